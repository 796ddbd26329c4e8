//! What speaks against the value at a key of a configuration's table.
//!
//! `ddr_timing` finds the value and reads the text of `map`; `takes` has the values that a key takes. A number that `number`
//! gives is in its range, whatever else of the table is at fault.
ghost use Rattle.std.specs.Prelude.{◌≡◌, IfSome, IsTrue};
ghost use Rattle.toml.specs.View.{table_view, view};
ghost use Rattle.ddr_timing.specs.Keys.{domain_of, has_key};
ghost use Rattle.ddr_timing.specs.Refusals.{is_key, is_out_of_range};
ghost use Rattle.ddr_timing.specs.Tables.{FitsIn, takes_number};
ghost use Rattle.ddr_findings.specs.Takes.{takes_in};
ghost use Rattle.ddr_findings.specs.Sound.{are_sound, is_sound, sound_number};

use crate::takes::Takes;
use ddr_timing::key::Key;
use ddr_timing::order::order;
use ddr_timing::table::{integer_at, is_within, value_at, version};
use toml::{Table, Value};

/// Whether one of the keys is spelled so.
pub(crate) fn is_key(keys: &[Key], name: &str) -> bool
    ensures { result ≡ is_key keys.now name.now }
{
    keys.iter().any(|key| name == key.name())
}

/// Whether the value at the key is none that the key takes, or not there. Whether it is a power of two is not looked at.
pub(crate) fn is_out_of_range(table: &Table, key: Key) -> bool
    ensures { result ≡ is_out_of_range (table_view table.now) key }
{
    match value_at(table, key) {
        Some(value) => {
            let version = version(table);
            !takes_in(version, Takes::of(version, key), value)
        }
        None => true,
    }
}

/// Whether the value is one of these, in a version. Whether an integer is a power of two is not looked at.
fn takes_in(version: u32, takes: Takes, value: &Value) -> bool
    ensures { result ≡ takes_in version takes (view value.now) }
{
    match takes {
        Takes::Within { low, high } | Takes::PowerOfTwo { low, high } => {
            is_within(low, high, value)
        }
        Takes::TwoOrFour => is_within(2, 2, value) || is_within(4, 4, value),
        Takes::FiveWords | Takes::SixWords => match value {
            Value::String(text) => order(text.as_str(), version).is_some(),
            _ => false,
        },
        Takes::Flag => matches!(value, Value::Boolean(_)),
    }
}

/// Whether the table's version has the key.
fn has_key(version: u32, key: Key) -> bool
    ensures { result ≡ has_key version key }
{
    match key {
        Key::Closed | Key::Ranks | Key::Rtrs => version == 2,
        _ => true,
    }
}

/// Whether the table's version has the key, and the value there is one that the key takes.
pub(crate) fn is_sound(table: &Table, key: Key) -> bool
    ensures { result ≡ is_sound (table_view table.now) key }
{
    has_key(version(table), key) && !is_out_of_range(table, key)
}

/// Whether each of the keys is sound.
pub(crate) fn are_sound(table: &Table, keys: &[Key]) -> bool
    ensures { result ≡ are_sound (table_view table.now) keys.now }
{
    keys.iter().all(|key| is_sound(table, *key))
}

/// The number at a key that takes one, where the table's version has the key and the number is in its range.
pub(crate) fn number(table: &Table, key: Key) -> Option<u32>
    requires { IsTrue (takes_number (domain_of key)) }
    ensures value { result ≡ sound_number (table_view table.now) key }
    ensures range { IfSome result (λ n. FitsIn (domain_of key) n) }
{
    if !is_sound(table, key) {
        return None;
    }
    let n = integer_at(table, key).unwrap();
    Some(n as u32)
}
