//! A reply's line, put together on the stack, so that one call writes it and no memory is asked for.
//!
//! `ddr_reorder` stands below; `simulation` prints by this. The text is that of `reply` of `ddr_text`.
ghost use Rattle.std.specs.Prelude.{◌≡◌, ◌+◌, ◌≤◌, ◌++◌, IfSome, drop, length};
ghost use Rattle.std.specs.Fmt.{decimal};
ghost use Rattle.arrayvec.specs.ArrayVec.{array_vec_len};
ghost use Rattle.hex.specs.Hex.{encode_lower};
ghost use Rattle.ddr_reorder.specs.Replies.{said};
ghost use Rattle.ddr_text.specs.Replies.{done_text, reply_text};

use arrayvec::ArrayVec;
use ddr_address_map::request::Kind;
use ddr_reorder::reply::Reply;
use ddr_timing::units::LINE_BYTES;
use ddr_trace_text::number::MOST_DIGITS;

/// A line, for which there is room: three numbers of at most 20 digits each, two digits for each byte of a line of memory,
/// and at most ten bytes between them.
pub(crate) type Text = ArrayVec<u8, 256>;

/// A reply as a line, as `reply_text` says it. None where it lends more bytes than a line of memory has.
#[tactic(auto, unfolding(ddr_text::specs::Replies::reply_text))]
pub(crate) fn reply_line(port: u32, reply: &Reply<'_>) -> Option<Text>
    ensures { IfSome result (λ line. line.items ≡ reply_text port (said reply.now)) }
{
    if reply.bytes.len() > LINE_BYTES {
        return None;
    }
    let mut line = ArrayVec::new();
    add_number(&mut line, u64::from(port));
    add_bytes(&mut line, b" ");
    add_number(&mut line, reply.number);
    add_done(&mut line, reply);
    Some(line)
}

/// Adds what was done, its address, and for a read the bytes that it asked for.
fn add_done(line: &mut Text, reply: &Reply<'_>)
    requires few { length reply.now.bytes.now ≤ LINE_BYTES }
    requires room { array_vec_len line.old + 156 ≤ 256 }
    ensures { line.new.items ≡ line.old.items ++ done_text reply.now.echo.kind (said reply.now) }
{
    match reply.echo.kind {
        Kind::Read => {
            add_bytes(line, b" read ");
            add_number(line, reply.echo.addr);
            add_bytes(line, b" ");
            add_hex(line, reply.bytes);
            add_bytes(line, b"\n");
        }
        Kind::Write => {
            add_bytes(line, b" write ");
            add_number(line, reply.echo.addr);
            add_bytes(line, b"\n");
        }
    }
}

/// Adds a number in decimal.
fn add_number(line: &mut Text, number: u64)
    requires { array_vec_len line.old + 20 ≤ 256 }
    ensures items { line.new.items ≡ line.old.items ++ decimal number }
    ensures len { array_vec_len line.new ≤ array_vec_len line.old + 20 }
{
    let mut digits = [0; MOST_DIGITS];
    let start = write_digits(number, &mut digits);
    add_bytes(line, &digits[start..]);
}

/// Writes a number in decimal so that it ends where the array does, and tells where it starts.
fn write_digits(number: u64, digits: &mut [u8; MOST_DIGITS]) -> usize
    ensures within { result ≤ 20 }
    ensures written { drop result digits.new ≡ decimal number }
{
    let mut rest = number;
    let mut place = MOST_DIGITS;
    'tens: while rest >= 10 {
        place -= 1;
        digits[place] = b'0' + (rest % 10) as u8;
        rest /= 10;
    }
    place -= 1;
    digits[place] = b'0' + rest as u8;
    place
}

/// Adds bytes in hexadecimal.
fn add_hex(line: &mut Text, bytes: &[u8])
    requires few { length bytes.now ≤ LINE_BYTES }
    requires room { array_vec_len line.old + 128 ≤ 256 }
    ensures items { line.new.items ≡ line.old.items ++ encode_lower bytes.now }
    ensures len { array_vec_len line.new ≤ array_vec_len line.old + 128 }
{
    let mut digits = [0; 128];
    let digits = &mut digits[..2 * bytes.len()];
    let _ = hex::encode_to_slice(bytes, digits);
    add_bytes(line, digits);
}

/// Adds bytes, for which there is room.
fn add_bytes(line: &mut Text, bytes: &[u8])
    requires { array_vec_len line.old + length bytes.now ≤ 256 }
    ensures items { line.new.items ≡ line.old.items ++ bytes.now }
    ensures len { array_vec_len line.new ≡ array_vec_len line.old + length bytes.now }
{
    let _ = line.try_extend_from_slice(bytes);
}
