//! Two ranks, with the timing of profile S2: what may be issued cycle by cycle, open rows, and the first fault of whole
//! traces.
mod allowed;
mod chance;
mod every;

use super::check::fault_at;
use super::issue::wait_until;
use ddr_legality::checker::first_fault;
use ddr_legality::legality::Legality;
use ddr_samples::steps::Step;
use ddr_timing::config::Config;
use ddr_timing::profile::PROFILE_S2;
use ddr_trace::checker;
use ddr_trace::command::{Command, Entry};
use ddr_trace::rule::Rule;
use std::alloc::{AllocError, Global};
use std::process::Abort;
use std::test::Fail;

/// A rank, and a command of it with its cycle.
type Ranked = (u32, Step);

fn entry_of(ranked: Ranked) -> Entry {
    let (rank, step) = ranked;
    Entry {
        cycle: step.cycle(),
        command: step.command_of(rank),
    }
}

fn entries_of(alloc: Global, commands: &[Ranked]) -> Result<Vec<Entry>, AllocError> {
    let mut entries = Vec::new(alloc);
    for ranked in commands {
        entries.push(entry_of(*ranked))?;
    }
    Ok(entries)
}

/// What happens on a bus, or is asked of it.
#[derive(Clone, Copy)]
enum Event {
    /// A command is issued in its cycle, in which it is legal.
    Issue(Ranked),
    /// What a command would break in its cycle.
    May(Ranked, Option<Rule>),
    /// In a cycle, the open row of bank 0 of group 0 of a rank.
    Row(u64, u32, Option<u32>),
}

fn check_may(rt: &impl Abort, bus: &mut Legality, entry: Entry, rule: Option<Rule>) {
    wait_until(bus, entry.cycle);
    assert_eq!(rt; bus.may(entry.command).err(), rule, "{entry:?}");
}

fn issue(rt: &impl Abort, bus: &mut Legality, command: Command) -> Result<(), Fail> {
    bus.reserve_entry()?;
    assert_eq!(rt; bus.may(command), Ok(()), "{command:?}");
    bus.record(command);
    Ok(())
}

fn check_row(rt: &impl Abort, bus: &mut Legality, cycle: u64, rank: u32, row: Option<u32>) {
    wait_until(bus, cycle);
    assert_eq!(rt; bus.open_row(rank, 0, 0), row, "of rank {rank} in {cycle}");
}

fn take(rt: &impl Abort, bus: &mut Legality, event: Event) -> Result<(), Fail> {
    match event {
        Event::Issue(ranked) => {
            let entry = entry_of(ranked);
            wait_until(bus, entry.cycle);
            return issue(rt, bus, entry.command);
        }
        Event::May(ranked, rule) => check_may(rt, bus, entry_of(ranked), rule),
        Event::Row(cycle, rank, row) => check_row(rt, bus, cycle, rank, row),
    }
    Ok(())
}

/// Takes the events on a bus from cycle 0 on.
fn play(rt: &impl Abort, alloc: Global, events: &[Event]) -> Result<(), Fail> {
    let config = Config::read(alloc, PROFILE_S2)?;
    let mut bus = Legality::open(alloc, &config, 0)?;
    for event in events {
        take(rt, &mut bus, *event)?;
    }
    Ok(())
}

/// From a write to a read of the other rank are 5 clocks: CWL + 4 + RTRS - CL. Within the rank WTR_L is longer.
const SWITCH: &[Event] = &[
    Event::Issue((0, Step::Act(0, 0, 0, 0))),
    Event::Issue((1, Step::Act(1, 0, 0, 0))),
    Event::May((1, Step::Rd(2, 0, 0, 0, 0)), Some(Rule::Rcd)),
    Event::May((1, Step::Rd(4, 0, 0, 0, 0)), Some(Rule::Rcd)),
    Event::Issue((0, Step::Wr(4, 0, 0, 0, 0))),
    Event::May((1, Step::Rd(5, 0, 0, 0, 0)), Some(Rule::Rtrs)),
    Event::May((1, Step::Rd(6, 0, 0, 0, 0)), Some(Rule::Rtrs)),
    Event::May((1, Step::Rd(7, 0, 0, 0, 0)), Some(Rule::Rtrs)),
    Event::May((1, Step::Rd(8, 0, 0, 0, 0)), Some(Rule::Rtrs)),
    Event::May((0, Step::Rd(9, 0, 0, 0, 0)), Some(Rule::WtrL)),
    Event::May((1, Step::Rd(9, 0, 0, 0, 0)), None),
    Event::May((1, Step::RdAuto(9, 0, 0, 0, 0)), None),
    Event::May((2, Step::PreAll(9)), Some(Rule::Place)),
];

#[test]
fn read_behind_a_write_of_the_other_rank(rt: HostRuntime) -> Result<(), Fail> {
    play(&rt, rt.alloc(), SWITCH)
}

/// The auto-precharge of rank 1 starts at 11: RTP is over at 8, and RAS at 11.
const ROWS: &[Event] = &[
    Event::Issue((0, Step::Act(0, 0, 0, 5))),
    Event::Issue((1, Step::Act(1, 0, 0, 7))),
    Event::Row(2, 0, Some(5)),
    Event::Row(2, 1, Some(7)),
    Event::Row(2, 2, None),
    Event::Issue((1, Step::RdAuto(5, 0, 0, 7, 0))),
    Event::Row(10, 1, Some(7)),
    Event::Row(11, 1, None),
    Event::Row(11, 0, Some(5)),
];

#[test]
fn open_rows_of_each_rank(rt: HostRuntime) -> Result<(), Fail> {
    play(&rt, rt.alloc(), ROWS)
}

/// Traces from cycle 0 on, each with the first cycle behind it and its first fault: the place and the rule.
const FAULTS: &[(&[Ranked], u64, Option<(usize, Rule)>)] = &[
    (
        &[
            (0, Step::Act(0, 0, 0, 0)),
            (1, Step::Act(1, 0, 0, 0)),
            (0, Step::Wr(4, 0, 0, 0, 0)),
            (1, Step::Rd(8, 0, 0, 0, 0)),
        ],
        20,
        Some((3, Rule::Rtrs)),
    ),
    (
        &[
            (0, Step::Act(0, 0, 0, 0)),
            (1, Step::Act(1, 0, 0, 0)),
            (0, Step::Wr(4, 0, 0, 0, 0)),
            (1, Step::Rd(9, 0, 0, 0, 0)),
        ],
        20,
        None,
    ),
    (&[(2, Step::Refresh(0))], 20, Some((0, Rule::Place))),
    (
        &[(0, Step::Act(0, 0, 0, 0)), (1, Step::Rd(4, 0, 0, 0, 0))],
        20,
        Some((1, Rule::State)),
    ),
    // RFC is of one rank
    (
        &[(0, Step::Refresh(0)), (1, Step::Act(1, 0, 0, 0))],
        20,
        None,
    ),
    // each rank's first REF is due at 1800
    (&[], 1800, None),
    (&[], 1801, Some((0, Rule::RefLate))),
    (&[(0, Step::Refresh(1799))], 1801, Some((1, Rule::RefLate))),
    (&[(1, Step::Refresh(1799))], 1801, Some((1, Rule::RefLate))),
    (
        &[
            (0, Step::Refresh(20)),
            (0, Step::Refresh(40)),
            (1, Step::Refresh(1801)),
        ],
        1802,
        Some((2, Rule::RefLate)),
    ),
    // and its second at 2000
    (
        &[(0, Step::Refresh(1799)), (1, Step::Refresh(1800))],
        2000,
        None,
    ),
    (
        &[(0, Step::Refresh(1799)), (1, Step::Refresh(1800))],
        2001,
        Some((2, Rule::RefLate)),
    ),
    // two REFs of a rank are 1800 apart at most
    (
        &[
            (0, Step::Refresh(20)),
            (1, Step::Refresh(21)),
            (0, Step::Refresh(1820)),
            (1, Step::Refresh(1821)),
        ],
        1822,
        None,
    ),
    (
        &[
            (0, Step::Refresh(20)),
            (1, Step::Refresh(21)),
            (0, Step::Refresh(1820)),
            (1, Step::Refresh(1822)),
        ],
        1823,
        Some((3, Rule::RefGap)),
    ),
];

#[test]
fn faults_of_two_ranks(rt: HostRuntime) -> Result<(), Fail> {
    let config = Config::read(rt.alloc(), PROFILE_S2)?;
    for (commands, end, at) in FAULTS {
        let entries = entries_of(rt.alloc(), commands)?;
        let found = first_fault(rt.alloc(), &entries, &config, 0, *end)?;
        assert_eq!(rt; found, fault_at(*at), "{entries:?} up to {end}");
        assert_eq!(rt; found, checker::first_fault(&entries, &config, 0, *end));
    }
    Ok(())
}
