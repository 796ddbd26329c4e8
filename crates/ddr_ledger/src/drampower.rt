//! The commands of a channel as DRAMPower's command line reads them.
//!
//! `ddr_trace` stands below, and `ddr_replay` above. `specs/Drampower.antt` has the text, byte for byte.
ghost use Rattle.std.specs.Prelude.{◌≡◌, IfOk, string_bytes};
ghost use Rattle.ddr_ledger.specs.Drampower.{bank_in_rank, column_of, drampower_line, drampower_name, end_line, place_fields};

use ddr_timing::units::{GROUP_BANKS, LINE_COLUMNS};
use ddr_trace::command::{Command, Entry};
use std::alloc::{AllocError, Global};

/// The line of a command.
#[tactic(auto, unfolding(crate::specs::Drampower::drampower_line))]
pub fn drampower_line(alloc: Global, entry: &Entry) -> Result<String, AllocError>
    ensures { IfOk result (λ text. string_bytes text ≡ drampower_line entry.now) }
{
    let cycle = entry.cycle;
    let name = drampower_name(&entry.command);
    let place = place_fields(alloc, &entry.command)?;
    format!(in alloc; "{cycle},{name},{place}\n")
}

/// The line of the end of a trace that ends in this cycle.
#[tactic(auto, unfolding(crate::specs::Drampower::end_line))]
pub fn end_line(alloc: Global, end: u64) -> Result<String, AllocError>
    ensures { IfOk result (λ text. string_bytes text ≡ end_line end) }
{
    format!(in alloc; "{end},END,0,0,0,0,0\n")
}

/// What DRAMPower calls the command.
fn drampower_name(command: &Command) -> &'static str
    ensures { result.now ≡ drampower_name command.now }
{
    match command {
        Command::Refresh { .. } => "REFA",
        other => other.name(),
    }
}

/// The place that the command is for.
#[tactic(auto, unfolding(crate::specs::Drampower::place_fields))]
fn place_fields(alloc: Global, command: &Command) -> Result<String, AllocError>
    ensures { IfOk result (λ text. string_bytes text ≡ place_fields command.now) }
{
    let rank = command.rank();
    let group = command.group();
    let bank = bank_in_rank(command);
    let row = command.row();
    let column = column_of(command);
    format!(in alloc; "{rank},{group},{bank},{row},{column}")
}

/// The bank's number in its rank, 0 where the command names none.
fn bank_in_rank(command: &Command) -> u64
    ensures { result ≡ bank_in_rank command.now }
{
    u64::from(GROUP_BANKS) * u64::from(command.group()) + u64::from(command.bank())
}

/// The first column of the line, 0 where the command names none.
fn column_of(command: &Command) -> u64
    ensures { result ≡ column_of command.now }
{
    match *command {
        Command::Rd { line, .. }
        | Command::Wr { line, .. }
        | Command::RdAuto { line, .. }
        | Command::WrAuto { line, .. } => u64::from(LINE_COLUMNS) * u64::from(line),
        _ => 0,
    }
}
