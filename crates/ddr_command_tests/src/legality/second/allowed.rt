//! The first cycle in which a command keeps every distance on the bus, on two ranks and with auto-precharge: worked out by
//! hand, and behind commands by chance as the bus says it cycle by cycle.
use super::chance::command;
use super::every::{commands, issue_now};
use super::{Ranked, entry_of};
use crate::legality::issue::wait_until;
use ddr_legality::legality::Legality;
use ddr_samples::chance::Chance;
use ddr_samples::steps::Step;
use ddr_timing::config::Config;
use ddr_timing::profile::PROFILE_S2;
use ddr_trace::command::Command;
use ddr_trace::rule::Rule;
use std::alloc::{AllocError, Global};
use std::process::Abort;
use std::test::Fail;

/// A bus on which these commands were issued, in the cycle of the last one.
fn bus_behind(rt: &impl Abort, alloc: Global, issued: &[Ranked]) -> Result<Legality, Fail> {
    let config = Config::read(alloc, PROFILE_S2)?;
    let mut bus = Legality::open(alloc, &config, 0)?;
    for ranked in issued {
        let entry = entry_of(*ranked);
        wait_until(&mut bus, entry.cycle);
        issue_now(rt, &mut bus, entry.command)?;
    }
    Ok(bus)
}

const READ: &[Ranked] = &[
    (0, Step::Act(0, 0, 0, 0)),
    (1, Step::Act(1, 0, 0, 0)),
    (0, Step::Rd(4, 0, 0, 0, 0)),
];

const WRITTEN: &[Ranked] = &[
    (0, Step::Act(0, 0, 0, 0)),
    (1, Step::Act(1, 0, 0, 0)),
    (0, Step::Wr(4, 0, 0, 0, 0)),
];

/// It begins to close its bank in cycle 17, CWL + 4 + WR behind the WRA.
const WRITTEN_AUTO: &[Ranked] = &[
    (0, Step::Act(0, 0, 0, 0)),
    (1, Step::Act(1, 0, 0, 0)),
    (1, Step::WrAuto(5, 0, 0, 0, 0)),
];

const FOUR: &[Ranked] = &[
    (0, Step::Act(0, 0, 0, 0)),
    (0, Step::Act(2, 1, 0, 0)),
    (0, Step::Act(4, 2, 0, 0)),
    (0, Step::Act(6, 3, 0, 0)),
];

/// Commands, and a command in the first cycle that its distances allow, from the cycle of the last one on.
const ALLOWED: &[(&[Ranked], Ranked)] = &[
    (&[], (1, Step::Act(0, 0, 0, 0))),
    // between ranks: max(4, CL + 4 + RTRS - CL), CL + 4 + RTRS - CWL
    (READ, (1, Step::Rd(10, 0, 0, 0, 0))),
    (READ, (1, Step::WrAuto(11, 0, 0, 0, 0))),
    (READ, (0, Step::Rd(9, 0, 0, 0, 0))),
    (READ, (0, Step::Wr(11, 0, 0, 0, 0))),
    // CWL + 4 + RTRS - CL, CWL + 4 + RTRS - CWL; within the rank WTR_L and CCD_L
    (WRITTEN, (1, Step::Rd(9, 0, 0, 0, 0))),
    (WRITTEN, (1, Step::Wr(10, 0, 0, 0, 0))),
    (WRITTEN, (0, Step::Rd(15, 0, 0, 0, 0))),
    (WRITTEN, (0, Step::Wr(9, 0, 0, 0, 0))),
    (WRITTEN, (0, Step::Pre(16, 0, 0))),
    (WRITTEN, (1, Step::Pre(11, 0, 0))),
    // the bus is taken in the cycle of the write
    (WRITTEN, (0, Step::Act(5, 1, 0, 0))),
    (WRITTEN, (1, Step::Act(5, 1, 0, 0))),
    (WRITTEN, (1, Step::Refresh(5))),
    // outside the geometry
    (WRITTEN, (2, Step::PreAll(u64::MAX))),
    (WRITTEN_AUTO, (1, Step::Act(21, 0, 0, 1))),
    (WRITTEN_AUTO, (1, Step::Refresh(21))),
    (WRITTEN_AUTO, (0, Step::Refresh(6))),
    (FOUR, (0, Step::Act(12, 0, 1, 0))),
    (FOUR, (1, Step::Act(7, 0, 1, 0))),
];

#[test]
fn first_cycles(rt: HostRuntime) -> Result<(), Fail> {
    for (issued, next) in ALLOWED {
        let bus = bus_behind(&rt, rt.alloc(), issued)?;
        let entry = entry_of(*next);
        let first = bus.allowed_at(entry.command);
        assert_eq!(rt; first, entry.cycle, "{entry:?}");
    }
    Ok(())
}

/// A command with the first cycle that its distances allow.
type First = (Command, u64);

fn firsts(alloc: Global, bus: &Legality, all: &[Command]) -> Result<Vec<First>, AllocError> {
    let mut firsts = Vec::new(alloc);
    for command in all {
        firsts.push((*command, bus.allowed_at(*command)))?;
    }
    Ok(firsts)
}

/// Where the bank's state fits, a command is legal from its first cycle on. Answers the rule that it breaks.
fn check(rt: &impl Abort, bus: &Legality, first: First) -> Option<Rule> {
    let (command, first) = first;
    let cycle = bus.now();
    let broken = bus.may(command).err();
    let fits = !matches!(broken, Some(Rule::State | Rule::Row));
    let legal = bus.is_legal(command);
    if fits {
        assert_eq!(rt;
            legal,
            first <= cycle,
            "{command:?} in {cycle}, from {first} on"
        );
    } else {
        assert!(rt; !legal, "{command:?} in {cycle}");
    }
    broken
}

/// Compares these first cycles with what the bus says in so many cycles from now on, and keeps each rule that is broken.
fn compare(
    rt: &impl Abort,
    bus: &mut Legality,
    firsts: &[First],
    cycles: u32,
    met: &mut Vec<Option<Rule>>,
) -> Result<(), AllocError> {
    for _ in 0..cycles {
        for first in firsts {
            let broken = check(rt, bus, *first);
            if !met.contains(&broken) {
                met.push(broken)?;
            }
        }
        let next = bus.now().saturating_add(1);
        wait_until(bus, next);
    }
    Ok(())
}

/// Opens a bank of each group, each as soon as its distances allow, so that the next ACT waits for the first.
fn open_four(rt: &impl Abort, bus: &mut Legality) -> Result<(), Fail> {
    for group in 0..4u32 {
        let command = Step::Act(0, group, 3, 0).command_of(0);
        let first = bus.allowed_at(command);
        wait_until(bus, first);
        issue_now(rt, bus, command)?;
    }
    Ok(())
}

/// Issues a command by chance, if one of some is legal now.
fn issue_some(rt: &impl Abort, bus: &mut Legality, chance: &mut Chance) -> Result<(), Fail> {
    for _ in 0..16 {
        let command = command(chance);
        if bus.is_legal(command) {
            return issue_now(rt, bus, command);
        }
    }
    Ok(())
}

/// The states of one bus.
fn compare_states(
    rt: &impl Abort,
    alloc: Global,
    config: &Config,
    chance: &mut Chance,
    met: &mut Vec<Option<Rule>>,
) -> Result<(), Fail> {
    let all = commands(alloc)?;
    let mut bus = Legality::open(alloc, config, 0)?;
    open_four(rt, &mut bus)?;
    let opened = firsts(alloc, &bus, &all)?;
    compare(rt, &mut bus, &opened, 12, met)?;
    for _ in 0..24 {
        issue_some(rt, &mut bus, chance)?;
        let firsts = firsts(alloc, &bus, &all)?;
        let cycles = chance.pick(9).saturating_add(1);
        compare(rt, &mut bus, &firsts, cycles, met)?;
    }
    Ok(())
}

/// The rules that must be met among those that commands break.
const MET: &[Option<Rule>] = &[
    None,
    Some(Rule::Order),
    Some(Rule::State),
    Some(Rule::Row),
    Some(Rule::Rcd),
    Some(Rule::Ras),
    Some(Rule::Rc),
    Some(Rule::Rp),
    Some(Rule::RrdL),
    Some(Rule::RrdS),
    Some(Rule::Faw),
    Some(Rule::CcdL),
    Some(Rule::CcdS),
    Some(Rule::WtrL),
    Some(Rule::WtrS),
    Some(Rule::Rtp),
    Some(Rule::Wr),
    Some(Rule::Rtw),
    Some(Rule::RpRef),
    Some(Rule::Rfc),
    Some(Rule::Rtrs),
];

#[test]
fn as_the_bus_says_cycle_by_cycle(rt: HostRuntime) -> Result<(), Fail> {
    let config = Config::read(rt.alloc(), PROFILE_S2)?;
    let mut chance = Chance::new(1);
    let mut met = Vec::new(rt.alloc());
    for _ in 0..20 {
        compare_states(&rt, rt.alloc(), &config, &mut chance, &mut met)?;
    }
    for rule in MET {
        assert!(rt; met.contains(rule), "{rule:?}");
    }
    Ok(())
}
