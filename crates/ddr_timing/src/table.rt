//! What the table of a configuration's text holds at a key.
//!
//! Below stand `key`, with the keys and their domains, and `order`, which reads the text of `map`;
//! `check` and `values` read a table by this module alone.
ghost use Rattle.std.specs.Prelude.{◌≡◌, IsTrue, option_and_then, option_map};
ghost use Rattle.ddr_timing.specs.declared.key.Key.TheVariants.{Version};
ghost use Rattle.toml.specs.Data.{as_integer};
ghost use Rattle.toml.specs.View.{table_view, view};
ghost use Rattle.ddr_timing.specs.Keys.{domain_of, has_key};
ghost use Rattle.ddr_timing.specs.Refusals.{out_of_range};
ghost use Rattle.ddr_timing.specs.Tables.{FitsIn, flag_at, is_in, is_within, keys_of, number_of, order_at, takes_number, value_of, version_of};

use crate::geometry::Digit;
use crate::key::{Domain, Key};
use crate::order::order;
use toml::{Table, Value};

/// The value at the key.
pub fn value_at(table: &Table, key: Key) -> Option<&Value>
    ensures { option_map (λ value. view value.now) result ≡ value_of (table_view table.now) key }
{
    table.get(key.name())
}

/// The version by which the table is checked: 2 where the table holds that number, else 1.
pub fn version(table: &Table) -> u32
    ensures { result ≡ version_of (table_view table.now) }
{
    match integer_at(table, Key::Version) {
        Some(2) => 2,
        _ => 1,
    }
}

/// The keys that the table is to have, in their order.
pub fn keys(table: &Table) -> &'static [Key]
    ensures { result.now ≡ keys_of (table_view table.now) }
{
    Key::all(version(table))
}

/// The integer at a key that takes one, of a table whose values are all in their domains.
pub(crate) fn number(table: &Table, key: Key) -> u32
    requires ranged { out_of_range (table_view table.now) ≡ None }
    requires has { IsTrue (has_key (version_of (table_view table.now)) key) }
    requires takes { IsTrue (takes_number (domain_of key)) }
    ensures value { result ≡ number_of (table_view table.now) key }
    ensures range { FitsIn (domain_of key) result }
{
    let n = integer_at(table, key).unwrap();
    n as u32
}

/// The integer at the key, where its value is one.
pub fn integer_at(table: &Table, key: Key) -> Option<i64>
    ensures { result ≡ option_and_then as_integer (value_of (table_view table.now) key) }
{
    match value_at(table, key) {
        Some(value) => value.as_integer(),
        None => None,
    }
}

/// The order of the address digits at a key, if the key holds the text of one.
pub(crate) fn order_at(table: &Table, key: Key) -> Option<[Digit; 6]>
    ensures { result ≡ order_at (table_view table.now) key }
{
    match value_at(table, key) {
        Some(Value::String(text)) => order(text.as_str(), version(table)),
        _ => None,
    }
}

/// Whether the key holds true.
pub(crate) fn flag_at(table: &Table, key: Key) -> bool
    ensures { result ≡ flag_at (table_view table.now) key }
{
    match value_at(table, key) {
        Some(Value::Boolean(flag)) => *flag,
        _ => false,
    }
}

/// Whether the value is one of the domain, in a version; whether an integer is a power of two is not looked at.
pub(crate) fn is_in(version: u32, domain: Domain, value: &Value) -> bool
    ensures { result ≡ is_in version domain (view value.now) }
{
    match domain {
        Domain::Within { low, high } | Domain::PowerOfTwo { low, high } => {
            is_within(low, high, value)
        }
        Domain::TwoOrFour => is_within(2, 2, value) || is_within(4, 4, value),
        Domain::Order => match value {
            Value::String(text) => order(text.as_str(), version).is_some(),
            _ => false,
        },
        Domain::Flag => matches!(value, Value::Boolean(_)),
    }
}

/// Whether the value is an integer from `low` to `high`.
pub fn is_within(low: u32, high: u32, value: &Value) -> bool
    ensures { result ≡ is_within low high (view value.now) }
{
    match value {
        Value::Integer(n) => i64::from(low) <= *n && *n <= i64::from(high),
        _ => false,
    }
}
