//! The commands that serve a request, whether one may be issued now, and the command of a choice.
ghost use Rattle.std.specs.Prelude.{◌≡◌};
ghost use Rattle.ddr_legality.specs.Bus.{is_legal_now};
ghost use Rattle.ddr_arbiter.specs.Commands.{activate_at, precharge_at, column_at};
ghost use Rattle.ddr_arbiter.specs.Laws.{command_of};

use crate::choice::Choice;
use ddr_address_map::place::Place;
use ddr_address_map::request::Kind;
use ddr_hazards::pending::Pending;
use ddr_legality::legality::Legality;
use ddr_trace::command::Command;

/// ACT of the place's row.
pub(crate) fn activate_at(place: Place) -> Command
    ensures { result ≡ activate_at place }
{
    Command::Act {
        rank: place.rank,
        group: place.group,
        bank: place.bank,
        row: place.row,
    }
}

/// PRE of the place's bank.
pub(crate) fn precharge_at(place: Place) -> Command
    ensures { result ≡ precharge_at place }
{
    Command::Pre {
        rank: place.rank,
        group: place.group,
        bank: place.bank,
    }
}

/// RD or WR of the place's line; with auto-precharge RDA or WRA.
pub(crate) fn column_at(auto: bool, kind: Kind, place: Place) -> Command
    ensures { result ≡ column_at auto kind place }
{
    let Place {
        rank,
        group,
        bank,
        row,
        line,
        ..
    } = place;
    match (auto, kind) {
        (false, Kind::Read) => Command::Rd {
            rank,
            group,
            bank,
            row,
            line,
        },
        (false, Kind::Write) => Command::Wr {
            rank,
            group,
            bank,
            row,
            line,
        },
        (true, Kind::Read) => Command::RdAuto {
            rank,
            group,
            bank,
            row,
            line,
        },
        (true, Kind::Write) => Command::WrAuto {
            rank,
            group,
            bank,
            row,
            line,
        },
    }
}

/// The command that a choice issues. `None` where it issues none, and where no request stands at its place.
pub fn command_of(pending: &Pending, choice: Choice) -> Option<Command>
    ensures { result ≡ command_of pending.now.waiting choice }
{
    match choice {
        Choice::Nothing => None,
        Choice::Refresh { rank } => Some(Command::Refresh { rank }),
        Choice::PreAll { rank } => Some(Command::PreAll { rank }),
        Choice::Act { place } => {
            let (request, _) = pending.get(place)?;
            Some(activate_at(request.place))
        }
        Choice::Pre { place } => {
            let (request, _) = pending.get(place)?;
            Some(precharge_at(request.place))
        }
        Choice::Column { place } => {
            let (request, _) = pending.get(place)?;
            Some(column_at(false, request.echo.kind, request.place))
        }
        Choice::ColumnAuto { place } => {
            let (request, _) = pending.get(place)?;
            Some(column_at(true, request.echo.kind, request.place))
        }
    }
}

/// Whether the command is legal now.
#[inline(always)]
pub(crate) fn may(legality: &Legality, command: Command) -> bool
    ensures { result ≡ is_legal_now legality.entry.now.bus command }
{
    legality.is_legal(command)
}
