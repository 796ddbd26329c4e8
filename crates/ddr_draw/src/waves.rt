//! The changes of a trace as a value change dump, with strings as values, which are GTKWave's extension.
//!
//! `changes`, `order` and `names` stand below, and `draw` above.
ghost use Rattle.std.specs.Prelude.{◌≡◌, ◌<◌, IfOk, string_bytes};
ghost use Rattle.ddr_draw.specs.Waves.{change_line, declarations, declared_bank, dump_from, each_bank, idle_line, time_line, waves_text};

use crate::change::{Change, Shown};
use crate::changes::all_changes;
use crate::names::{bank_numbered, name_of_bank};
use crate::order::put_in_order;
use ddr_timing::config::Config;
use ddr_timing::geometry::Geometry;
use ddr_trace::command::Entry;
use std::alloc::{AllocError, Global};

/// What stands before the banks' variables.
const HEAD: &str =
    "$comment One unit of time is one clock of the memory. $end\n$timescale 1 ns $end\n$scope module ddr $end\n$var string 1 command command $end\n$var string 1 data data $end\n";

/// The whole dump of a trace.
#[tactic(auto, unfolding(crate::specs::Waves::waves_text))]
pub(crate) fn waves_text(
    alloc: Global,
    config: &Config,
    start: u64,
    end: u64,
    entries: &[Entry],
) -> Result<String, AllocError>
    ensures { IfOk result (λ text. string_bytes text ≡ waves_text config.now start end entries.now) }
{
    let mut changes = all_changes(alloc, config, end, entries)?;
    put_in_order(&mut changes)?;
    let declarations = declarations(alloc, &config.geometry, start)?;
    let dump = dump_from(alloc, start, changes.as_slice())?;
    format!(in alloc; "{declarations}{dump}")
}

/// The variables, and their values in the first cycle.
#[tactic(auto, unfolding(crate::specs::Waves::declarations))]
fn declarations(alloc: Global, geometry: &Geometry, start: u64) -> Result<String, AllocError>
    ensures { IfOk result (λ text. string_bytes text ≡ declarations geometry.now start) }
{
    let banks = declared_banks(alloc, geometry)?;
    let idle = idle_banks(alloc, geometry)?;
    format!(in alloc;
        "{HEAD}{banks}$upscope $end\n$enddefinitions $end\n#{start}\n$dumpvars\ns- command\ns- data\n{idle}$end\n"
    )
}

/// The variables of the banks.
fn declared_banks(alloc: Global, geometry: &Geometry) -> Result<String, AllocError>
    ensures { IfOk result (λ text. string_bytes text ≡ each_bank geometry.now declared_bank) }
{
    let mut text = String::new(alloc);
    for number in 0..geometry.banks() {
        let name = bank_numbered(alloc, geometry, number)?;
        let line = declared_bank(alloc, &name)?;
        text.push_str(line.as_str())?;
    }
    Ok(text)
}

/// The banks' values in the first cycle.
fn idle_banks(alloc: Global, geometry: &Geometry) -> Result<String, AllocError>
    ensures { IfOk result (λ text. string_bytes text ≡ each_bank geometry.now idle_line) }
{
    let mut text = String::new(alloc);
    for number in 0..geometry.banks() {
        let name = bank_numbered(alloc, geometry, number)?;
        let line = idle_line(alloc, &name)?;
        text.push_str(line.as_str())?;
    }
    Ok(text)
}

/// The variable of a bank.
#[tactic(auto, unfolding(crate::specs::Waves::declared_bank))]
fn declared_bank(alloc: Global, name: &String) -> Result<String, AllocError>
    ensures { IfOk result (λ text. string_bytes text ≡ declared_bank (string_bytes name.now)) }
{
    format!(in alloc; "$var string 1 {name} {name} $end\n")
}

/// That a bank is idle.
#[tactic(auto, unfolding(crate::specs::Waves::idle_line))]
fn idle_line(alloc: Global, name: &String) -> Result<String, AllocError>
    ensures { IfOk result (λ text. string_bytes text ≡ idle_line (string_bytes name.now)) }
{
    format!(in alloc; "sidle {name}\n")
}

/// The changes, each cycle told before its first one.
fn dump_from(alloc: Global, start: u64, changes: &[Change]) -> Result<String, AllocError>
    ensures { IfOk result (λ text. string_bytes text ≡ dump_from start changes.now) }
{
    let mut text = String::new(alloc);
    let mut last = start;
    let mut rest = changes;
    'changes: while let Some((change, later)) = rest.split_first() {
        let time = time_line(alloc, last, change.cycle)?;
        text.push_str(time.as_str())?;
        let line = change_line(alloc, &change.shown)?;
        text.push_str(line.as_str())?;
        last = last.max(change.cycle);
        rest = later;
    }
    Ok(text)
}

/// The line of a cycle, where it is later than the last that was told.
#[tactic(auto, unfolding(crate::specs::Waves::time_line))]
fn time_line(alloc: Global, last: u64, cycle: u64) -> Result<String, AllocError>
    ensures { IfOk result (λ text. string_bytes text ≡ time_line last cycle) }
{
    if last < cycle {
        format!(in alloc; "#{cycle}\n")
    } else {
        Ok(String::new(alloc))
    }
}

/// The line of a change.
#[tactic(auto, unfolding(crate::specs::Waves::change_line))]
fn change_line(alloc: Global, shown: &Shown) -> Result<String, AllocError>
    ensures { IfOk result (λ text. string_bytes text ≡ change_line shown.now) }
{
    match shown {
        Shown::Named(command) => {
            let name = command.name();
            format!(in alloc; "s{name} command\n")
        }
        Shown::Quiet => String::from_str(alloc, "s- command\n"),
        Shown::Burst(command) => {
            let kind = if command.is_read() { "RD_" } else { "WR_" };
            let bank = name_of_bank(alloc, command)?;
            format!(in alloc; "s{kind}{bank} data\n")
        }
        Shown::Free => String::from_str(alloc, "s- data\n"),
        Shown::Open(command) => {
            let row = command.row();
            let bank = name_of_bank(alloc, command)?;
            format!(in alloc; "srow_{row} {bank}\n")
        }
        Shown::Idle(command) => {
            let bank = name_of_bank(alloc, command)?;
            idle_line(alloc, &bank)
        }
        Shown::End => Ok(String::new(alloc)),
    }
}
