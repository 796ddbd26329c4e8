//! The data mask of a write, on the 64 bytes of a burst.
ghost use Rattle.std.specs.Prelude.{◌≡◌, ◌+◌, ◌≤◌, length};
ghost use Rattle.ddr_row_array.specs.Merge.{merged, MergesWord};

use ddr_timing::units::LINE_BYTES;

// The bytes of a machine word, which are merged at once where all or none of their bits are set.
const WORD_BYTES: usize = 8;

/// Puts a byte of `line` over each byte of the burst whose bit is set in `mask`.
pub fn merge(burst: &mut [u8], mask: u64, line: &[u8; LINE_BYTES])
    requires { length burst.old ≡ LINE_BYTES }
    ensures { burst.new ≡ merged mask line.now burst.old }
{
    if mask == u64::MAX {
        burst.copy_from_slice(line);
    } else {
        merge_words(burst, mask, line);
    }
}

/// The same, word by word.
fn merge_words(burst: &mut [u8], mask: u64, line: &[u8; LINE_BYTES])
    requires { length burst.old ≡ LINE_BYTES }
    ensures { burst.new ≡ merged mask line.now burst.old }
{
    for word in 0..LINE_BYTES / WORD_BYTES {
        merge_word(burst, mask, line, word * WORD_BYTES);
    }
}

/// Merges the eight bytes from `start` on.
fn merge_word(burst: &mut [u8], mask: u64, line: &[u8; LINE_BYTES], start: usize)
    requires long { length burst.old ≡ LINE_BYTES }
    requires within { start + 8 ≤ LINE_BYTES }
    ensures { MergesWord mask line.now burst.old burst.new start }
{
    let bits = (mask >> start) & 0xff;
    if bits == 0xff {
        burst[start..start + WORD_BYTES].copy_from_slice(&line[start..start + WORD_BYTES]);
    } else if bits != 0 {
        merge_bytes(burst, mask, line, start);
    }
}

/// The same, byte by byte.
fn merge_bytes(burst: &mut [u8], mask: u64, line: &[u8; LINE_BYTES], start: usize)
    requires long { length burst.old ≡ LINE_BYTES }
    requires within { start + 8 ≤ LINE_BYTES }
    ensures { MergesWord mask line.now burst.old burst.new start }
{
    for i in 0..WORD_BYTES {
        if (mask >> (start + i)) & 1 == 1 {
            burst[start + i] = line[start + i];
        }
    }
}
