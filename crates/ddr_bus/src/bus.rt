//! A command in C's form.
//!
//! `ddr_trace` stands below, and the libraries for C above.
ghost use Rattle.std.specs.Prelude.{◌≡◌};
ghost use Rattle.ddr_bus.specs.Bus.{bus_command, column_command, rank_command};

use ddr_timing::units::LINE_COLUMNS;
use ddr_trace::command::{Command, Entry};

/// A command of a channel. A place that the command does not name is 2^32 - 1.
#[repr(C)]
#[derive(Clone, Copy)]
pub struct BusCommand {
    pub cycle: u64,
    pub kind: u32,
    pub rank: u32,
    pub group: u32,
    pub bank: u32,
    pub row: u32,
    pub column: u32,
}

/// A place that a command does not name, and the kind of no command.
pub const UNNAMED: u32 = u32::MAX;

pub const ACT: u32 = 0;

pub const RD: u32 = 1;

pub const WR: u32 = 2;

pub const RDA: u32 = 3;

pub const WRA: u32 = 4;

pub const PRE: u32 = 5;

pub const PREA: u32 = 6;

pub const REF: u32 = 7;

/// A command in C's form. A place that it does not name is `UNNAMED`.
pub fn bus_command(entry: &Entry) -> BusCommand
    ensures { result ≡ bus_command entry.now }
{
    let cycle = entry.cycle;
    match entry.command {
        Command::Act {
            rank,
            group,
            bank,
            row,
        } => BusCommand {
            cycle,
            kind: ACT,
            rank,
            group,
            bank,
            row,
            column: UNNAMED,
        },
        Command::Rd {
            rank,
            group,
            bank,
            row,
            line,
        } => column_command(cycle, RD, (rank, group, bank), row, line),
        Command::Wr {
            rank,
            group,
            bank,
            row,
            line,
        } => column_command(cycle, WR, (rank, group, bank), row, line),
        Command::RdAuto {
            rank,
            group,
            bank,
            row,
            line,
        } => column_command(cycle, RDA, (rank, group, bank), row, line),
        Command::WrAuto {
            rank,
            group,
            bank,
            row,
            line,
        } => column_command(cycle, WRA, (rank, group, bank), row, line),
        Command::Pre { rank, group, bank } => BusCommand {
            cycle,
            kind: PRE,
            rank,
            group,
            bank,
            row: UNNAMED,
            column: UNNAMED,
        },
        Command::PreAll { rank } => rank_command(cycle, PREA, rank),
        Command::Refresh { rank } => rank_command(cycle, REF, rank),
    }
}

/// A read or a write in C's form, by its rank, group and bank. Its column is that of its line's first byte.
fn column_command(cycle: u64, kind: u32, place: (u32, u32, u32), row: u32, line: u32) -> BusCommand
    ensures { result ≡ column_command cycle kind place.0 place.1 place.2 row line }
{
    let (rank, group, bank) = place;
    BusCommand {
        cycle,
        kind,
        rank,
        group,
        bank,
        row,
        column: line.saturating_mul(LINE_COLUMNS),
    }
}

/// A command for a whole rank in C's form.
fn rank_command(cycle: u64, kind: u32, rank: u32) -> BusCommand
    ensures { result ≡ rank_command cycle kind rank }
{
    BusCommand {
        cycle,
        kind,
        rank,
        group: UNNAMED,
        bank: UNNAMED,
        row: UNNAMED,
        column: UNNAMED,
    }
}
