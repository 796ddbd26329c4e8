//! The commands that C tells of.
//!
//! `ddr_bus` stands below, and `lib` above.
ghost use Rattle.std.specs.Prelude.{◌≡◌};
ghost use Rattle.ddr_judge_c.specs.Bus.{entry_of};

use crate::codes::{NO_SUCH, NOT_JUDGED};
use ddr_bus::bus::{ACT, BusCommand, PRE, PREA, RD, RDA, REF, WR, WRA};
use ddr_timing::units::LINE_COLUMNS;
use ddr_trace::command::{Command, Entry};

/// The first kind that is no longer one of a command that a capture may have.
pub(crate) const KINDS: u32 = 18;

/// The command that C tells of, or the code of its refusal. Of a column the low three digits, the order in a burst, are left out.
pub(crate) fn entry_of(told: &BusCommand) -> Result<Entry, i32>
    ensures { result ≡ entry_of told.now }
{
    let BusCommand {
        cycle,
        kind,
        rank,
        group,
        bank,
        row,
        column,
    } = *told;
    let line = column / LINE_COLUMNS;
    let command = if kind == ACT {
        Command::Act {
            rank,
            group,
            bank,
            row,
        }
    } else if kind == RD {
        Command::Rd {
            rank,
            group,
            bank,
            row,
            line,
        }
    } else if kind == WR {
        Command::Wr {
            rank,
            group,
            bank,
            row,
            line,
        }
    } else if kind == RDA {
        Command::RdAuto {
            rank,
            group,
            bank,
            row,
            line,
        }
    } else if kind == WRA {
        Command::WrAuto {
            rank,
            group,
            bank,
            row,
            line,
        }
    } else if kind == PRE {
        Command::Pre { rank, group, bank }
    } else if kind == PREA {
        Command::PreAll { rank }
    } else if kind == REF {
        Command::Refresh { rank }
    } else if kind < KINDS {
        return Err(NOT_JUDGED);
    } else {
        return Err(NO_SUCH);
    };
    Ok(Entry { cycle, command })
}
