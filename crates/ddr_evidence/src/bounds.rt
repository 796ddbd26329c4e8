//! Rules on an entry's own numbers: ORDER and PLACE.
//!
//! `evidence`, `kind` and `ddr_trace` stand below, and `find` above.
ghost use Rattle.std.specs.Prelude.{◌≡◌, IfSome, false, is_some, not};
ghost use Rattle.ddr_trace.specs.Rules.{breaks_order, is_in, last_cycle_below};
ghost use Rattle.ddr_evidence.specs.Evidence.{IsNotAbove, IsOrder, IsOutside, bound_of, first_outside, is_outside, number_in};

use crate::evidence::{Evidence, Part, Placed};
use ddr_timing::geometry::Geometry;
use ddr_timing::units::{GROUP_BANKS, LINE_COLUMNS};
use ddr_trace::command::{Command, Entry};

/// Why the entry breaks ORDER, if it does.
pub(crate) fn order(history: &[Entry], entry: &Entry, start: u64, end: u64) -> Option<Evidence>
    ensures broken { is_some result ≡ breaks_order start end history.now entry.now }
    ensures some { IfSome result (IsOrder start end history.now entry.now) }
{
    if let Some(earlier) = not_above(history, entry) {
        return Some(Evidence::NotAbove { earlier });
    }
    if entry.cycle < start {
        return Some(Evidence::BeforeStart);
    }
    if end <= entry.cycle {
        return Some(Evidence::NotBeforeEnd);
    }
    None
}

/// The entry before, where its cycle is not below the entry's.
fn not_above(history: &[Entry], entry: &Entry) -> Option<Placed>
    ensures kept { not (is_some result) ≡ last_cycle_below history.now entry.now.cycle }
    ensures some { IfSome result (IsNotAbove history.now entry.now) }
{
    let (last, before) = history.split_last()?;
    if last.cycle < entry.cycle {
        return None;
    }
    Some(Placed {
        place: before.len(),
        entry: *last,
    })
}

/// Why the command breaks PLACE, if it does: its first number that is not below its bound.
pub(crate) fn place(command: &Command, geometry: &Geometry) -> Option<Evidence>
    ensures broken { is_some result ≡ not (is_in geometry.now command.now) }
    ensures some { IfSome result (IsOutside geometry.now command.now) }
{
    let part = first_outside(command, geometry)?;
    let number = part.number_in(command)?;
    Some(Evidence::Outside {
        part,
        number,
        bound: part.bound(geometry),
    })
}

/// The first number of the command that is not below its bound, if there is one.
fn first_outside(command: &Command, geometry: &Geometry) -> Option<Part>
    ensures { result ≡ first_outside geometry.now command.now }
{
    if Part::Rank.is_outside(command, geometry) {
        Some(Part::Rank)
    } else if Part::Group.is_outside(command, geometry) {
        Some(Part::Group)
    } else if Part::Bank.is_outside(command, geometry) {
        Some(Part::Bank)
    } else if Part::Row.is_outside(command, geometry) {
        Some(Part::Row)
    } else if Part::Line.is_outside(command, geometry) {
        Some(Part::Line)
    } else {
        None
    }
}

impl Part {
    /// Whether the command has this number, and it is not below its bound.
    fn is_outside(self, command: &Command, geometry: &Geometry) -> bool
        ensures { result ≡ is_outside geometry.now command.now self }
    {
        match self.number_in(command) {
            Some(number) => self.bound(geometry) <= number,
            None => false,
        }
    }

    /// The command's number of this part, if it has one.
    fn number_in(self, command: &Command) -> Option<u32>
        ensures { result ≡ number_in self command.now }
    {
        match (self, *command) {
            (Part::Rank, any) => Some(any.rank()),
            (_, Command::PreAll { .. } | Command::Refresh { .. }) => None,
            (
                Part::Group,
                Command::Act { group, .. }
                | Command::Rd { group, .. }
                | Command::Wr { group, .. }
                | Command::RdAuto { group, .. }
                | Command::WrAuto { group, .. }
                | Command::Pre { group, .. },
            ) => Some(group),
            (
                Part::Bank,
                Command::Act { bank, .. }
                | Command::Rd { bank, .. }
                | Command::Wr { bank, .. }
                | Command::RdAuto { bank, .. }
                | Command::WrAuto { bank, .. }
                | Command::Pre { bank, .. },
            ) => Some(bank),
            (
                Part::Row,
                Command::Act { row, .. }
                | Command::Rd { row, .. }
                | Command::Wr { row, .. }
                | Command::RdAuto { row, .. }
                | Command::WrAuto { row, .. },
            ) => Some(row),
            (
                Part::Line,
                Command::Rd { line, .. }
                | Command::Wr { line, .. }
                | Command::RdAuto { line, .. }
                | Command::WrAuto { line, .. },
            ) => Some(line),
            _ => None,
        }
    }

    /// What the geometry bounds the number by.
    fn bound(self, geometry: &Geometry) -> u32
        ensures { result ≡ bound_of geometry.now self }
    {
        match self {
            Part::Rank => geometry.ranks,
            Part::Group => geometry.groups,
            Part::Bank => GROUP_BANKS,
            Part::Row => geometry.rows,
            Part::Line => geometry.columns / LINE_COLUMNS,
        }
    }
}
