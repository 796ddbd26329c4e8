//! Hexadecimal numbers.
//!
//! Nothing of this crate stands below, and `tool` above.
ghost use Rattle.std.specs.Prelude.{◌≡◌, ◌≤◌, IfSome};
ghost use Rattle.ddr_capture.specs.Fields.{hex_index_of, hex_of, with_digit};

/// The number below 2^32 that a field spells in hexadecimal behind `0x`.
pub(crate) fn hex_index_of(field: &[u8]) -> Option<u32>
    ensures { result ≡ hex_index_of field.now }
{
    match field {
        [b'0', b'x', digits @ ..] => {
            let number = hex_of(digits, u64::from(u32::MAX))?;
            Some(number as u32)
        }
        _ => None,
    }
}

/// The number that hexadecimal digits of either case spell, one or more of them, where it is no more than `most`.
pub fn hex_of(digits: &[u8], most: u64) -> Option<u64>
    ensures exact { result ≡ hex_of most digits.now }
    ensures bounded { IfSome result (λ number. number ≤ most) }
{
    if digits.is_empty() {
        return None;
    }
    let mut number = 0;
    for digit in digits {
        number = with_digit(number, *digit, most)?;
    }
    Some(number)
}

/// The number with one hexadecimal digit more, where it is no more than `most`.
fn with_digit(number: u64, digit: u8, most: u64) -> Option<u64>
    ensures exact { result ≡ with_digit most number digit }
    ensures bounded { IfSome result (λ next. next ≤ most) }
{
    let value = char::from(digit).to_digit(16)?;
    let next = 16 * u128::from(number) + u128::from(value);
    if next > u128::from(most) {
        return None;
    }
    Some(next as u64)
}
