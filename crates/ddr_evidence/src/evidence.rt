//! What a broken rule rests on.
//!
//! `ddr_trace` stands below; `find` finds it, over one module for each kind of rule.
ghost use Rattle.std.specs.Prelude.{◌<◌, ◌^◌};

use ddr_trace::bank::OpenBank;
use ddr_trace::command::Entry;

/// An entry of a trace, at its place.
#[derive(Clone, Copy, Debug, PartialEq, Eq)]
pub struct Placed {
    /// Counts the entries of the trace from 0.
    pub place: usize,
    pub entry: Entry,
    pub ghost in_range: { place < 2 ^ 63 },
}

/// What a broken rule rests on. A distance is in clocks, and 0 where the later entry's cycle is not above the earlier
/// one's.
#[derive(Clone, Copy, Debug, PartialEq, Eq)]
pub enum Evidence {
    /// The entry stands fewer than `least` clocks behind an earlier one: the rules on two commands, FAW and RTRS.
    TooClose {
        earlier: Placed,
        distance: u64,
        least: u32,
    },
    /// The entry stands fewer than `least` clocks behind the start of the auto-precharge of an earlier RDA or WRA: RP and
    /// RP_REF.
    TooCloseToStart {
        earlier: Placed,
        distance: u64,
        least: u32,
    },
    /// The bank is in another state than the entry wants: STATE and ROW. `opened` is what the history makes of the bank,
    /// `None` where nothing opened it or a precharge closed it, and `changed` the entry that last changed it, if one did.
    Bank {
        group: u32,
        bank: u32,
        opened: Option<OpenBank>,
        changed: Option<Placed>,
    },
    /// ORDER: the entry before has no lower cycle.
    NotAbove {
        earlier: Placed,
    },
    /// ORDER: the entry stands before the trace's start.
    BeforeStart,
    /// ORDER: the entry does not stand before the trace's end.
    NotBeforeEnd,
    /// PLACE: this number of the command, the first such, is not below its bound.
    Outside {
        part: Part,
        number: u32,
        bound: u32,
    },
    /// REF_GAP: the entry stands more than 9 REFI behind the REF before.
    TooFar {
        earlier: Placed,
        distance: u64,
    },
    /// REF_LATE: this many REFs of the rank came before, and the next one was due by cycle `due`.
    Late {
        refreshes: usize,
        due: u64,
    },
}

/// A number of a command that a geometry bounds.
#[derive(Clone, Copy, Debug, PartialEq, Eq)]
pub enum Part {
    Rank,
    Group,
    Bank,
    Row,
    /// A line of a row, which columns make up.
    Line,
}
