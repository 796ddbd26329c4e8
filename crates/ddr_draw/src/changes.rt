//! What a trace changes, entry by entry.
//!
//! `period` and `change` stand below, and `waves` above.
ghost use Rattle.std.specs.Prelude.{◌≡◌, ◌++◌, IfOk, OnOk};
ghost use Rattle.ddr_draw.specs.Changes.{all_changes, bank_changes, bus_changes, changes_of, data_changes, entry_changes, is_next_at};

use crate::change::{Change, Shown};
use crate::names::after;
use crate::period::{burst_end, burst_start, closed_at, is_followed, next_column};
use ddr_timing::config::Config;
use ddr_timing::timing::Timing;
use ddr_trace::command::Entry;
use std::alloc::{AllocError, Global};

/// All that the trace changes, and its end.
#[tactic(auto, unfolding(crate::specs::Changes::all_changes))]
pub(crate) fn all_changes(
    alloc: Global,
    config: &Config,
    end: u64,
    entries: &[Entry],
) -> Result<Vec<Change>, AllocError>
    ensures { IfOk result (λ changes. changes.items ≡ all_changes config.now end entries.now) }
{
    let mut changes = Vec::new(alloc);
    add_changes(&mut changes, config, entries)?;
    changes.push(Change {
        cycle: end,
        shown: Shown::End,
    })?;
    Ok(changes)
}

/// Adds what the entries change.
fn add_changes(
    changes: &mut Vec<Change>,
    config: &Config,
    entries: &[Entry],
) -> Result<(), AllocError>
    ensures { OnOk result (changes.new.items ≡ changes.old.items ++ changes_of config.now entries.now) }
{
    let mut rest = entries;
    'entries: while let Some((entry, later)) = rest.split_first() {
        add_entry(changes, config, entry, later)?;
        rest = later;
    }
    Ok(())
}

/// Adds what the entry changes, by the entries behind it.
#[tactic(auto, unfolding(crate::specs::Changes::entry_changes))]
fn add_entry(
    changes: &mut Vec<Change>,
    config: &Config,
    entry: &Entry,
    later: &[Entry],
) -> Result<(), AllocError>
    ensures { OnOk result (changes.new.items ≡ changes.old.items ++ entry_changes config.now entry.now later.now) }
{
    add_bus(changes, entry, later)?;
    add_data(changes, &config.timing, entry, later)?;
    add_bank(changes, config, entry, later)
}

/// Adds the command in its cycle, and that there is none in the next, unless there is.
#[tactic(auto, unfolding(crate::specs::Changes::bus_changes))]
fn add_bus(changes: &mut Vec<Change>, entry: &Entry, later: &[Entry]) -> Result<(), AllocError>
    ensures { OnOk result (changes.new.items ≡ changes.old.items ++ bus_changes entry.now later.now) }
{
    changes.push(Change {
        cycle: entry.cycle,
        shown: Shown::Named(entry.command),
    })?;
    let next = after(entry.cycle, 1);
    if is_next_at(next, later) {
        return Ok(());
    }
    changes.push(Change {
        cycle: next,
        shown: Shown::Quiet,
    })?;
    Ok(())
}

/// Whether the next entry stands in that cycle.
fn is_next_at(cycle: u64, later: &[Entry]) -> bool
    ensures { result ≡ is_next_at cycle later.now }
{
    match later.split_first() {
        Some((entry, _)) => entry.cycle == cycle,
        None => false,
    }
}

/// Adds the burst of a read or a write, and its end, unless another burst begins by then.
#[tactic(auto, unfolding(crate::specs::Changes::data_changes))]
fn add_data(
    changes: &mut Vec<Change>,
    timing: &Timing,
    entry: &Entry,
    later: &[Entry],
) -> Result<(), AllocError>
    ensures { OnOk result (changes.new.items ≡ changes.old.items ++ data_changes timing.now entry.now later.now) }
{
    if !entry.command.is_column() {
        return Ok(());
    }
    changes.push(Change {
        cycle: burst_start(timing, entry),
        shown: Shown::Burst(entry.command),
    })?;
    if is_followed(timing, entry, next_column(later)) {
        return Ok(());
    }
    changes.push(Change {
        cycle: burst_end(timing, entry),
        shown: Shown::Free,
    })?;
    Ok(())
}

/// Adds that the bank of an ACT opens, and that it is idle once its row is closed. A bank that the memory lacks is not shown.
#[tactic(auto, unfolding(crate::specs::Changes::bank_changes))]
fn add_bank(
    changes: &mut Vec<Change>,
    config: &Config,
    entry: &Entry,
    later: &[Entry],
) -> Result<(), AllocError>
    ensures { OnOk result (changes.new.items ≡ changes.old.items ++ bank_changes config.now entry.now later.now) }
{
    if !(entry.command.is_activate() && entry.command.is_in(&config.geometry)) {
        return Ok(());
    }
    changes.push(Change {
        cycle: entry.cycle,
        shown: Shown::Open(entry.command),
    })?;
    let Some(cycle) = closed_at(&config.timing, entry, later) else {
        return Ok(());
    };
    changes.push(Change {
        cycle,
        shown: Shown::Idle(entry.command),
    })?;
    Ok(())
}
