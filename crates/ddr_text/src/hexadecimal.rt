//! Bytes that are spelled in hexadecimal, two digits each, read by a table.
//!
//! The crate `hex` says what the digits are and what they spell, and nothing of the program stands below; `script` reads
//! the bytes of its lines by this. A digit is a look-up here, where `hex` compares it with the ends of three ranges.
ghost use Rattle.std.specs.Prelude.{◌≡◌, length, unwrap_or, option_map, IfOk, IfSome, IfNone, Some, None};
ghost use Rattle.std.specs.Result.{result_ok};
ghost use Rattle.hex.specs.Hex.{decode_of, decode_sized, hex_digit_value, pair_value};

use std::alloc::{AllocError, Global};

/// What the table has for a byte that is no digit: more than two digits spell, so one look at a pair finds it.
const NO_DIGIT: u32 = 256;

/// The value of each byte as a digit, of either case.
static VALUES: [u32; 256] = [
    256, 256, 256, 256, 256, 256, 256, 256, 256, 256, 256, 256, 256, 256, 256, 256, 256, 256, 256,
    256, 256, 256, 256, 256, 256, 256, 256, 256, 256, 256, 256, 256, 256, 256, 256, 256, 256, 256,
    256, 256, 256, 256, 256, 256, 256, 256, 256, 256, 0, 1, 2, 3, 4, 5, 6, 7, 8, 9, 256, 256, 256,
    256, 256, 256, 256, 10, 11, 12, 13, 14, 15, 256, 256, 256, 256, 256, 256, 256, 256, 256, 256,
    256, 256, 256, 256, 256, 256, 256, 256, 256, 256, 256, 256, 256, 256, 256, 256, 10, 11, 12, 13,
    14, 15, 256, 256, 256, 256, 256, 256, 256, 256, 256, 256, 256, 256, 256, 256, 256, 256, 256,
    256, 256, 256, 256, 256, 256, 256, 256, 256, 256, 256, 256, 256, 256, 256, 256, 256, 256, 256,
    256, 256, 256, 256, 256, 256, 256, 256, 256, 256, 256, 256, 256, 256, 256, 256, 256, 256, 256,
    256, 256, 256, 256, 256, 256, 256, 256, 256, 256, 256, 256, 256, 256, 256, 256, 256, 256, 256,
    256, 256, 256, 256, 256, 256, 256, 256, 256, 256, 256, 256, 256, 256, 256, 256, 256, 256, 256,
    256, 256, 256, 256, 256, 256, 256, 256, 256, 256, 256, 256, 256, 256, 256, 256, 256, 256, 256,
    256, 256, 256, 256, 256, 256, 256, 256, 256, 256, 256, 256, 256, 256, 256, 256, 256, 256, 256,
    256, 256, 256, 256, 256, 256, 256, 256, 256, 256, 256, 256, 256, 256, 256, 256, 256, 256, 256,
    256, 256, 256,
];

/// The bytes that the field spells. None where its length is odd, or a byte of it is no digit. As `hex::decode` does, it
/// asks for memory once, behind the look at the length and before the look at the digits.
pub(crate) fn decode(alloc: Global, field: &[u8]) -> Result<Option<Vec<u8>>, AllocError>
    ensures { IfOk result (λ found. option_map (λ v. v.items) found ≡ result_ok (decode_of field.now)) }
{
    if field.len() % 2 != 0 {
        return Ok(None);
    }
    let mut bytes = vec![in alloc; 0u8; field.len() / 2]?;
    let Some(()) = decode_into(field, bytes.as_mut_slice()) else {
        return Ok(None);
    };
    Ok(Some(bytes))
}

/// Writes the bytes that the field spells. None where it spells another number of them, or has a byte that is no digit:
/// what then stands in `bytes` is not specified.
pub(crate) fn decode_into(field: &[u8], bytes: &mut [u8]) -> Option<()>
    ensures some { IfSome result (λ _. result_ok (decode_sized field.now (length bytes.old)) ≡ Some bytes.new) }
    ensures none { IfNone result (result_ok (decode_sized field.now (length bytes.old)) ≡ None) }
{
    if field.len() % 2 != 0 || field.len() / 2 != bytes.len() {
        return None;
    }
    'pairs: for i in 0..bytes.len() {
        bytes[i] = pair(field[2 * i], field[2 * i + 1])?;
    }
    Some(())
}

/// The byte of two digits, the high one first. None where one of them is no digit.
#[inline(always)]
fn pair(high: u8, low: u8) -> Option<u8>
    ensures { result ≡ result_ok (pair_value high low 0) }
{
    let byte = value_of(high) * 16 + value_of(low);
    if byte >= NO_DIGIT {
        return None;
    }
    Some(byte as u8)
}

/// The value of a digit, and `NO_DIGIT` for every other byte.
#[inline(always)]
fn value_of(byte: u8) -> u32
    ensures { result ≡ unwrap_or (hex_digit_value byte) NO_DIGIT }
{
    VALUES[byte as usize]
}
