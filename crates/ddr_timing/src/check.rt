//! Why a configuration's table is refused.
//!
//! Below stands `table`, with what the table holds at a key; `values` takes the values of a table that
//! passed.
ghost use Rattle.std.specs.Prelude.{◌≡◌, ◌≢◌, ◌+◌, ◌<◌, ◌&&◌, IfErr, IfSome, IsTrue, None, OnOk, find, length, max, nat_le, nat_lt, not, position};
ghost use Rattle.std.specs.Result.{result_err};
ghost use Rattle.toml.specs.View.{table_view};
ghost use Rattle.ddr_timing.specs.declared.key.Key.TheVariants.{Low, High, Writes, Cl, Cwl, Rp, Ras, CcdS, Wr, Rtp, Rtw, Rfc, Refi};
ghost use Rattle.ddr_timing.specs.declared.units.TheConstants.{BURST_CLOCKS};
ghost use Rattle.ddr_timing.specs.Keys.{domain_of, has_key};
ghost use Rattle.ddr_timing.specs.Refusals.{IsSound, broken_relation, has_unknown, is_key, is_missing, is_no_power, is_out_of_range, not_power_of_two, out_of_range, relations, table_refusal};
ghost use Rattle.ddr_timing.specs.Tables.{keys_of, number_of, takes_number, version_of};

use crate::error::ConfigError;
use crate::key::{Domain, Key};
use crate::table::{is_in, keys, number, value_at, version};
use crate::units::BURST_CLOCKS;
use toml::Table;

/// The first fault of the table, if it has one.
#[tactic(auto, unfolding(crate::specs::Refusals::table_refusal))]
pub(crate) fn check(table: &Table) -> Result<(), ConfigError>
    ensures refusal { result_err result ≡ table_refusal (table_view table.now) }
    ensures not_memory { IfErr result (λ refusal. refusal ≢ ConfigError.OutOfMemory) }
    ensures sound { OnOk result (IsSound (table_view table.now)) }
{
    if let Some(key) = missing(table) {
        return Err(ConfigError::Missing { key });
    }
    if has_unknown(table) {
        return Err(ConfigError::UnknownKey);
    }
    if let Some(key) = out_of_range(table) {
        return Err(ConfigError::Range { key });
    }
    if let Some(key) = not_power_of_two(table) {
        return Err(ConfigError::NotPowerOfTwo { key });
    }
    match broken_relation(table) {
        Some(n) => Err(ConfigError::Relation { n }),
        None => Ok(()),
    }
}

/// The first key that the table lacks.
fn missing(table: &Table) -> Option<Key>
    ensures { result ≡ find (is_missing (table_view table.now)) (keys_of (table_view table.now)) }
{
    keys(table)
        .iter()
        .copied()
        .find(|key| value_at(table, *key).is_none())
}

/// Whether some key of the table is none of a configuration's.
fn has_unknown(table: &Table) -> bool
    ensures { result ≡ has_unknown (table_view table.now) }
{
    let keys = keys(table);
    table.keys().any(|name| !is_key(keys, name.as_str()))
}

/// Whether one of the keys is spelled so.
fn is_key(keys: &[Key], name: &str) -> bool
    ensures { result ≡ is_key keys.now name.now }
{
    keys.iter().any(|key| name == key.name())
}

/// The first key whose value is none of its domain.
fn out_of_range(table: &Table) -> Option<Key>
    ensures { result ≡ out_of_range (table_view table.now) }
{
    keys(table)
        .iter()
        .copied()
        .find(|key| is_out_of_range(table, *key))
}

fn is_out_of_range(table: &Table, key: Key) -> bool
    ensures { result ≡ is_out_of_range (table_view table.now) key }
{
    match value_at(table, key) {
        Some(value) => !is_in(version(table), key.domain(), value),
        None => true,
    }
}

/// The first key whose value is to be a power of two, and is none.
fn not_power_of_two(table: &Table) -> Option<Key>
    requires { out_of_range (table_view table.now) ≡ None }
    ensures { result ≡ not_power_of_two (table_view table.now) }
{
    keys(table)
        .iter()
        .copied()
        .find(|key| is_no_power(table, *key))
}

fn is_no_power(table: &Table, key: Key) -> bool
    requires ranged { out_of_range (table_view table.now) ≡ None }
    ensures { result ≡ is_no_power (table_view table.now) key }
{
    match key.domain() {
        Domain::PowerOfTwo { .. } => !number(table, key).is_power_of_two(),
        _ => false,
    }
}

/// The number of the lowest relation among the values that is broken, counted from 1.
fn broken_relation(table: &Table) -> Option<u32>
    requires { out_of_range (table_view table.now) ≡ None }
    ensures { result ≡ broken_relation (table_view table.now) }
{
    let place = first_broken(&relations(table))?;
    Some(place as u32 + 1)
}

/// The place of the first relation that does not hold.
fn first_broken(relations: &[bool]) -> Option<usize>
    ensures first { result ≡ position not relations.now }
    ensures bound { IfSome result (λ place. place < length relations.now) }
{
    relations.iter().position(|holds| !*holds)
}

/// Whether each relation among the values holds, in their order.
fn relations(table: &Table) -> [bool; 7]
    requires { out_of_range (table_view table.now) ≡ None }
    ensures { result ≡ relations (table_view table.now) }
{
    [
        bursts_pass(table),
        is_at_least(table, Key::CcdL, Key::CcdS),
        is_at_least(table, Key::RrdL, Key::RrdS),
        write_follows_read(table),
        refresh_fits(table),
        marks_lie_apart(table),
        mark_is_reached(table),
    ]
}

/// Whether the value at one key is not below that at another.
fn is_at_least(table: &Table, key: Key, other: Key) -> bool
    requires ranged { out_of_range (table_view table.now) ≡ None }
    requires has { IsTrue (has_key (version_of (table_view table.now)) key) }
    requires takes { IsTrue (takes_number (domain_of key)) }
    requires other_has { IsTrue (has_key (version_of (table_view table.now)) other) }
    requires other_takes { IsTrue (takes_number (domain_of other)) }
    ensures { result ≡ nat_le (number_of (table_view table.now) other) (number_of (table_view table.now) key) }
{
    number(table, key) >= number(table, other)
}

/// Whether column commands to two bank groups are no closer than a burst takes.
fn bursts_pass(table: &Table) -> bool
    requires { out_of_range (table_view table.now) ≡ None }
    ensures { result ≡ nat_le BURST_CLOCKS (number_of (table_view table.now) CcdS) }
{
    let ccd_s = number(table, Key::CcdS);
    ccd_s >= BURST_CLOCKS
}

/// Whether a write that follows a read has its data behind the read's.
fn write_follows_read(table: &Table) -> bool
    requires { out_of_range (table_view table.now) ≡ None }
    ensures { result ≡ (nat_le BURST_CLOCKS (number_of (table_view table.now) Rtw) && nat_le (number_of (table_view table.now) Cl + BURST_CLOCKS) (number_of (table_view table.now) Rtw + number_of (table_view table.now) Cwl)) }
{
    let cl = number(table, Key::Cl);
    let cwl = number(table, Key::Cwl);
    let rtw = number(table, Key::Rtw);
    rtw >= BURST_CLOCKS && rtw + cwl >= cl + BURST_CLOCKS
}

/// Whether an interval between refreshes has time for one, and for what has to end before it.
fn refresh_fits(table: &Table) -> bool
    requires { out_of_range (table_view table.now) ≡ None }
    ensures { result ≡ nat_le (max (max (max (number_of (table_view table.now) Ras) (number_of (table_view table.now) Cwl + BURST_CLOCKS + number_of (table_view table.now) Wr)) (number_of (table_view table.now) Rtp) + number_of (table_view table.now) Rp) (number_of (table_view table.now) Rfc) + 4) (number_of (table_view table.now) Refi) }
{
    let cwl = number(table, Key::Cwl);
    let rp = number(table, Key::Rp);
    let ras = number(table, Key::Ras);
    let wr = number(table, Key::Wr);
    let rtp = number(table, Key::Rtp);
    let rfc = number(table, Key::Rfc);
    let refi = number(table, Key::Refi);
    let precharged = ras.max(cwl + BURST_CLOCKS + wr).max(rtp) + rp;
    precharged.max(rfc) + 4 <= refi
}

/// Whether the low mark of the write drain lies below the high one.
fn marks_lie_apart(table: &Table) -> bool
    requires { out_of_range (table_view table.now) ≡ None }
    ensures { result ≡ nat_lt (number_of (table_view table.now) Low) (number_of (table_view table.now) High) }
{
    let low = number(table, Key::Low);
    let high = number(table, Key::High);
    low < high
}

/// Whether the writes that may wait reach the high mark of the write drain.
fn mark_is_reached(table: &Table) -> bool
    requires { out_of_range (table_view table.now) ≡ None }
    ensures { result ≡ nat_le (number_of (table_view table.now) High) (number_of (table_view table.now) Writes) }
{
    let high = number(table, Key::High);
    let writes = number(table, Key::Writes);
    high <= writes
}
