//! Numbers as a text spells them, in decimal digits, each read in one pass over its bytes.
//!
//! Nothing stands below. `parse` reads the fields of a trace by this, and the crates above the numbers of scripts, streams,
//! captures and maps.
ghost use Rattle.std.specs.Prelude.{◌≡◌, ◌≤◌, ◌+◌, ◌*◌, ◌^◌, IfSome, IfNone, true};
ghost use Rattle.std.specs.Char.{digit_value, is_ascii_digit};
ghost use Rattle.std.specs.List.{list_all};
ghost use Rattle.std.specs.Str.Parse.{digits_value};
ghost use Rattle.ddr_trace_text.specs.Numbers.{number_of};

/// The most digits of a number, which are those of the greatest `u64`.
pub const MOST_DIGITS: usize = 20;

/// The number that the field spells, where it is at most `most`: 1 to 20 decimal digits, leading zeros among them,
/// with no sign and no space. None where the field is of another form, or its number is greater.
#[tactic(auto, unfolding(crate::specs::Numbers::number_of))]
pub fn parse_number(field: &[u8], most: u64) -> Option<u64>
    ensures exact { result ≡ number_of most field.now }
    ensures small { IfSome result (λ number. number ≤ most) }
{
    if field.is_empty() || field.len() > MOST_DIGITS {
        return None;
    }
    let number = value_of(field)?;
    (number <= most).then_some(number)
}

/// The number that these bytes spell. None where one is no digit, or where the number is not below 2^64.
fn value_of(field: &[u8]) -> Option<u64>
    ensures digits { IfSome result (λ number. list_all is_ascii_digit field.now ≡ true) }
    ensures value { IfSome result (λ number. number ≡ digits_value 10 field.now) }
    ensures none { IfNone result (list_all is_ascii_digit field.now ≡ true → 2 ^ 64 ≤ digits_value 10 field.now) }
{
    let mut number = 0;
    for byte in field {
        number = with_digit(number, *byte)?;
    }
    Some(number)
}

/// The number with one digit more at its end. None where the byte is no digit, or where the number is not below 2^64.
fn with_digit(number: u64, byte: u8) -> Option<u64>
    ensures digit { IfSome result (λ next. is_ascii_digit byte ≡ true) }
    ensures value { IfSome result (λ next. next ≡ number * 10 + digit_value byte) }
    ensures none { IfNone result (is_ascii_digit byte ≡ true → 2 ^ 64 ≤ number * 10 + digit_value byte) }
{
    if !byte.is_ascii_digit() {
        return None;
    }
    number.checked_mul(10)?.checked_add(u64::from(byte - b'0'))
}
