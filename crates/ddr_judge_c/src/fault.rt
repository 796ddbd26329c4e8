//! What a broken rule rests on, in C's form.
//!
//! `bus`, `ddr_watch` and `ddr_evidence` stand below, and `lib` above.
ghost use Rattle.std.specs.Prelude.{◌≡◌};
ghost use Rattle.ddr_trace.specs.Names.{number_of};
ghost use Rattle.ddr_judge_c.specs.Faults.{basis_of, earlier_of, fault_of, place_of};

use ddr_bus::bus::{BusCommand, UNNAMED, bus_command};
use ddr_evidence::evidence::{Evidence, Placed};
use ddr_timing::timing::Timing;
use ddr_trace::command::Entry;
use ddr_trace::rule::Rule;
use ddr_watch::told::Told;

/// A broken rule. `include/ddr_judge.h` says what `found` and `wanted` are of each basis.
#[repr(C)]
#[derive(Clone, Copy)]
pub struct Fault {
    /// The place that the command has, or would have, among those that count.
    pub place: u64,
    pub cycle: u64,
    pub rule: u32,
    pub basis: u32,
    /// The earlier command that is to blame; its kind is 2^32 - 1 where there is none.
    pub earlier: BusCommand,
    pub earlier_place: u64,
    pub found: u64,
    pub wanted: u64,
}

/// What a broken rule rests on, by its number, and two numbers of it.
#[derive(Clone, Copy)]
pub(crate) struct Basis {
    pub(crate) number: u32,
    pub(crate) earlier: Option<Placed>,
    pub(crate) found: u64,
    pub(crate) wanted: u64,
}

pub(crate) const NOT_KEPT: u32 = 0;

pub(crate) const TOO_CLOSE: u32 = 1;

pub(crate) const TOO_CLOSE_TO_START: u32 = 2;

pub(crate) const BANK: u32 = 3;

pub(crate) const NOT_ABOVE: u32 = 4;

pub(crate) const BEFORE_START: u32 = 5;

pub(crate) const NOT_BEFORE_END: u32 = 6;

pub(crate) const OUTSIDE: u32 = 7;

pub(crate) const TOO_FAR: u32 = 8;

pub(crate) const LATE: u32 = 9;

/// A broken rule in C's form.
pub(crate) fn fault_of(entry: &Entry, told: &Told, timing: &Timing) -> Fault
    ensures { result ≡ fault_of timing.now entry.now told.now }
{
    let basis = basis_of(&told.evidence, timing);
    Fault {
        place: told.place,
        cycle: entry.cycle,
        rule: number_of(told.rule),
        basis: basis.number,
        earlier: earlier_of(&basis.earlier),
        earlier_place: place_of(&basis.earlier),
        found: basis.found,
        wanted: basis.wanted,
    }
}

/// The earlier command in C's form.
fn earlier_of(earlier: &Option<Placed>) -> BusCommand
    ensures { result ≡ earlier_of earlier.now }
{
    match earlier {
        Some(earlier) => bus_command(&earlier.entry),
        None => BusCommand {
            cycle: 0,
            kind: UNNAMED,
            rank: UNNAMED,
            group: UNNAMED,
            bank: UNNAMED,
            row: UNNAMED,
            column: UNNAMED,
        },
    }
}

/// The earlier command's place.
fn place_of(earlier: &Option<Placed>) -> u64
    ensures { result ≡ place_of earlier.now }
{
    match earlier {
        Some(earlier) => earlier.place as u64,
        None => 0,
    }
}

/// What it rests on.
fn basis_of(evidence: &Option<Evidence>, timing: &Timing) -> Basis
    ensures { result ≡ basis_of timing.now evidence.now }
{
    let (number, earlier, found, wanted) = match *evidence {
        None => (NOT_KEPT, None, 0, 0),
        Some(
            Evidence::TooClose {
                earlier,
                distance,
                least,
            },
        ) => (TOO_CLOSE, Some(earlier), distance, u64::from(least)),
        Some(
            Evidence::TooCloseToStart {
                earlier,
                distance,
                least,
            },
        ) => (
            TOO_CLOSE_TO_START,
            Some(earlier),
            distance,
            u64::from(least),
        ),
        Some(Evidence::Bank { changed, .. }) => (BANK, changed, 0, 0),
        Some(Evidence::NotAbove { earlier }) => (NOT_ABOVE, Some(earlier), 0, 0),
        Some(Evidence::BeforeStart) => (BEFORE_START, None, 0, 0),
        Some(Evidence::NotBeforeEnd) => (NOT_BEFORE_END, None, 0, 0),
        Some(Evidence::Outside { number, bound, .. }) => {
            (OUTSIDE, None, u64::from(number), u64::from(bound))
        }
        Some(Evidence::TooFar { earlier, distance }) => {
            (TOO_FAR, Some(earlier), distance, 9 * u64::from(timing.refi))
        }
        Some(Evidence::Late { refreshes, due }) => (LATE, None, refreshes as u64, due),
    };
    Basis {
        number,
        earlier,
        found,
        wanted,
    }
}

/// A rule's number, from 1 on, in the order in which rules that are broken at once are told.
fn number_of(rule: Rule) -> u32
    ensures { result ≡ number_of rule }
{
    match rule {
        Rule::Order => 1,
        Rule::Place => 2,
        Rule::State => 3,
        Rule::Row => 4,
        Rule::Rcd => 5,
        Rule::Ras => 6,
        Rule::Rc => 7,
        Rule::Rp => 8,
        Rule::RrdL => 9,
        Rule::RrdS => 10,
        Rule::Faw => 11,
        Rule::CcdL => 12,
        Rule::CcdS => 13,
        Rule::WtrL => 14,
        Rule::WtrS => 15,
        Rule::Rtp => 16,
        Rule::Wr => 17,
        Rule::Rtw => 18,
        Rule::RpRef => 19,
        Rule::Rfc => 20,
        Rule::RefLate => 21,
        Rule::RefGap => 22,
        Rule::Rtrs => 23,
    }
}
