//! All that speaks against a table.
//!
//! `table`, `relations`, `nearest` and `shown` stand below, and `ddr_timing`'s look into a table; `lint` asks for the faults of a text's
//! table.
ghost use Rattle.std.specs.Prelude.{◌≡◌, ◌++◌, IfOk, None, OnOk, Some, map, option_map, option_to_list, false, if◌then◌else◌};
ghost use Rattle.std.specs.List.{filter_map};
ghost use Rattle.toml.specs.View.{table_view, view};
ghost use Rattle.ddr_timing.specs.Refusals.{is_no_power, is_out_of_range};
ghost use Rattle.ddr_timing.specs.Tables.{keys_of, number_of};
ghost use Rattle.ddr_findings.specs.Faults.{faults_of, key_fault, name_fault, names_of, related, told, value_fault};
ghost use Rattle.ddr_findings.specs.Relations.{told_relations};

use crate::fault::ConfigFault;
use crate::nearest::nearest;
use crate::relation::Relation;
use crate::relations::relations;
use crate::shown::shown;
use crate::table::{is_key, is_out_of_range, number};
use crate::takes::Takes;
use ddr_timing::key::Key;
use ddr_timing::table::{keys, value_at, version};
use std::alloc::{AllocError, Global};
use toml::{Table, Value};

/// The faults of the table: of its keys, in their order, of the names that are none, in theirs, and the broken relations.
#[tactic(auto, unfolding(crate::specs::Faults::faults_of))]
pub(crate) fn faults(alloc: Global, table: &Table) -> Result<Vec<ConfigFault>, AllocError>
    ensures { IfOk result (λ faults. map told faults.items ≡ faults_of (Some (table_view table.now))) }
{
    let mut faults = Vec::new(alloc);
    add_key_faults(alloc, table, &mut faults)?;
    add_name_faults(alloc, table, &mut faults)?;
    add_relations(table, &mut faults)?;
    Ok(faults)
}

/// Adds a fault, where there is one.
fn add(faults: &mut Vec<ConfigFault>, found: Option<ConfigFault>) -> Result<(), AllocError>
    ensures { OnOk result (map told faults.new.items ≡ map told faults.old.items ++ option_to_list (option_map told found)) }
{
    if let Some(fault) = found {
        faults.push(fault)?;
    }
    Ok(())
}

fn add_key_faults(
    alloc: Global,
    table: &Table,
    faults: &mut Vec<ConfigFault>,
) -> Result<(), AllocError>
    ensures { OnOk result (map told faults.new.items ≡ map told faults.old.items ++ filter_map (key_fault (table_view table.now)) (keys_of (table_view table.now))) }
{
    for key in keys(table) {
        let found = key_fault(alloc, table, *key)?;
        add(faults, found)?;
    }
    Ok(())
}

/// What speaks against the table at a key that it is to have.
#[tactic(auto, unfolding(crate::specs::Faults::key_fault))]
fn key_fault(alloc: Global, table: &Table, key: Key) -> Result<Option<ConfigFault>, AllocError>
    ensures { IfOk result (λ found. option_map told found ≡ key_fault (table_view table.now) key) }
{
    match value_at(table, key) {
        None => Ok(Some(ConfigFault::Missing { key })),
        Some(value) => value_fault(alloc, table, key, value),
    }
}

/// What speaks against the value at a key.
fn value_fault(
    alloc: Global,
    table: &Table,
    key: Key,
    value: &Value,
) -> Result<Option<ConfigFault>, AllocError>
    ensures { IfOk result (λ found. option_map told found ≡ value_fault (table_view table.now) key (view value.now)) }
{
    if is_out_of_range(table, key) {
        let given = shown(alloc, value)?;
        let takes = Takes::of(version(table), key);
        return Ok(Some(ConfigFault::Range { key, given, takes }));
    }
    match no_power(table, key) {
        Some(given) => Ok(Some(ConfigFault::NotPowerOfTwo { key, given })),
        None => Ok(None),
    }
}

/// The number at a key whose value is in range, where a power of two is wanted and it is none.
fn no_power(table: &Table, key: Key) -> Option<u32>
    requires { is_out_of_range (table_view table.now) key ≡ false }
    ensures { result ≡ (if is_no_power (table_view table.now) key then Some (number_of (table_view table.now) key) else None) }
{
    match Takes::of(version(table), key) {
        Takes::PowerOfTwo { .. } => number(table, key).filter(|n| !n.is_power_of_two()),
        _ => None,
    }
}

fn add_name_faults(
    alloc: Global,
    table: &Table,
    faults: &mut Vec<ConfigFault>,
) -> Result<(), AllocError>
    ensures { OnOk result (map told faults.new.items ≡ map told faults.old.items ++ filter_map (name_fault (table_view table.now)) (names_of (table_view table.now))) }
{
    for name in table.keys() {
        let found = name_fault(alloc, table, name.as_str())?;
        add(faults, found)?;
    }
    Ok(())
}

/// What speaks against a name of the table.
#[tactic(auto, unfolding(crate::specs::Faults::name_fault))]
fn name_fault(alloc: Global, table: &Table, name: &str) -> Result<Option<ConfigFault>, AllocError>
    ensures { IfOk result (λ found. option_map told found ≡ name_fault (table_view table.now) name.now) }
{
    let keys = keys(table);
    if is_key(keys, name) {
        return Ok(None);
    }
    let text = String::from_str(alloc, name)?;
    if is_key(Key::all(2), name) {
        return Ok(Some(ConfigFault::Later { name: text }));
    }
    let nearest = nearest(alloc, keys, name)?;
    Ok(Some(ConfigFault::Unknown {
        name: text,
        nearest,
    }))
}

fn add_relations(table: &Table, faults: &mut Vec<ConfigFault>) -> Result<(), AllocError>
    ensures { OnOk result (map told faults.new.items ≡ map told faults.old.items ++ filter_map (option_map related) (told_relations (table_view table.now))) }
{
    let relations = relations(table);
    for found in relations {
        add(faults, related(found))?;
    }
    Ok(())
}

/// A broken relation as a fault.
fn related(found: Option<Relation>) -> Option<ConfigFault>
    ensures { option_map told result ≡ option_map related found }
{
    match found {
        Some(relation) => Some(ConfigFault::Related { relation }),
        None => None,
    }
}
