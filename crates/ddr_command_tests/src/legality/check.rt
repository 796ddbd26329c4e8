//! The first fault of whole traces.
use super::traces::LEGAL;
use ddr_legality::checker::{first_fault, kept_places};
use ddr_samples::chance::Chance;
use ddr_samples::steps::{Step, entries_of};
use ddr_timing::config::Config;
use ddr_timing::profile::PROFILE_S;
use ddr_trace::checker::{self, Fault, lowest_broken};
use ddr_trace::command::Entry;
use ddr_trace::rule::Rule;
use std::alloc::{AllocError, Global};
use std::process::Abort;
use std::test::Fail;

fn fault_of(alloc: Global, entries: &[Entry], start: u64, end: u64) -> Result<Option<Fault>, Fail> {
    let config = Config::read(alloc, PROFILE_S)?;
    Ok(first_fault(alloc, entries, &config, start, end)?)
}

/// That this is the first fault of a trace, if it has one.
fn finds(
    rt: &impl Abort,
    alloc: Global,
    steps: &[Step],
    start: u64,
    end: u64,
    fault: Option<Fault>,
) -> Result<(), Fail> {
    let entries = entries_of(alloc, steps)?;
    let found = fault_of(alloc, &entries, start, end)?;
    assert_eq!(rt; found, fault, "{entries:?} up to {end}");
    Ok(())
}

#[test]
fn legal_traces(rt: HostRuntime) -> Result<(), Fail> {
    for (steps, end, _) in LEGAL {
        finds(&rt, rt.alloc(), steps, 0, *end, None)?;
    }
    Ok(())
}

/// Traces, each with its first cycle, the first one behind it, and its first fault: the place and the rule.
const FAULTS: &[(&[Step], u64, u64, Option<(usize, Rule)>)] = &[
    (
        &[Step::Act(0, 0, 0, 0), Step::Refresh(0)],
        0,
        5,
        Some((1, Rule::Order)),
    ),
    (&[Step::Refresh(5)], 0, 5, Some((0, Rule::Order))),
    (
        &[Step::Act(0, 0, 0, 0), Step::Act(2, 4, 0, 0)],
        0,
        100,
        Some((1, Rule::Place)),
    ),
    (&[Step::Rd(0, 0, 0, 0, 0)], 0, 1, Some((0, Rule::State))),
    (
        &[
            Step::Act(0, 0, 0, 0),
            Step::Rd(4, 0, 0, 1, 0),
            Step::Rd(5, 0, 0, 0, 0),
        ],
        0,
        100,
        Some((1, Rule::Row)),
    ),
    (
        &[
            Step::Act(0, 0, 0, 0),
            Step::Wr(4, 0, 0, 0, 0),
            Step::Rd(14, 0, 0, 0, 0),
        ],
        0,
        20,
        Some((2, Rule::WtrL)),
    ),
    (
        &[
            Step::Act(0, 0, 0, 0),
            Step::Act(2, 1, 0, 0),
            Step::Act(4, 2, 0, 0),
            Step::Act(6, 3, 0, 0),
            Step::Act(11, 0, 1, 0),
        ],
        0,
        30,
        Some((4, Rule::Faw)),
    ),
    // refreshes alone
    (&[], 0, 1800, None),
    (&[], 0, 1801, Some((0, Rule::RefLate))),
    (&[Step::Refresh(1800)], 0, 2000, None),
    (&[Step::Refresh(1800)], 0, 2001, Some((1, Rule::RefLate))),
    (&[Step::Refresh(1801)], 0, 1802, Some((0, Rule::RefLate))),
    (
        &[Step::Refresh(20), Step::Refresh(40), Step::Refresh(1840)],
        0,
        1842,
        None,
    ),
    (
        &[Step::Refresh(20), Step::Refresh(40), Step::Refresh(1841)],
        0,
        1842,
        Some((2, Rule::RefGap)),
    ),
    (&[Step::Refresh(9)], 10, 20, Some((0, Rule::Order))),
    (&[Step::Refresh(1810)], 10, 2010, None),
];

pub fn fault_at(at: Option<(usize, Rule)>) -> Option<Fault> {
    let (place, rule) = at?;
    Some(Fault { place, rule })
}

#[test]
fn faults(rt: HostRuntime) -> Result<(), Fail> {
    for (steps, start, end, at) in FAULTS {
        finds(&rt, rt.alloc(), steps, *start, *end, fault_at(*at))?;
    }
    Ok(())
}

/// Mostly a few clocks, and sometimes up to 12 refresh intervals.
pub fn gap(chance: &mut Chance) -> u64 {
    if chance.below(24) == 0 {
        chance.below(2400)
    } else {
        chance.below(8)
    }
}

/// A command on one of four banks, or of the rank.
fn entry(chance: &mut Chance, cycle: u64) -> Entry {
    let group = chance.pick(2);
    let bank = chance.pick(2);
    let row = chance.pick(2);
    let step = match chance.pick(8) {
        0 | 1 => Step::Act(cycle, group, bank, row),
        2 | 3 => Step::Rd(cycle, group, bank, row, 0),
        4 => Step::Wr(cycle, group, bank, row, 0),
        5 => Step::Pre(cycle, group, bank),
        6 => Step::PreAll(cycle),
        _ => Step::Refresh(cycle),
    };
    step.entry()
}

/// A trace in which most commands are legal.
fn trace(chance: &mut Chance, alloc: Global, config: &Config) -> Result<Vec<Entry>, AllocError> {
    let mut entries = Vec::new(alloc);
    let mut cycle = 0u64;
    for _ in 0..40 {
        cycle = cycle.saturating_add(gap(chance));
        let entry = entry(chance, cycle);
        let broken = lowest_broken(&entries, &entry, config, 0, u64::MAX);
        if broken.is_none() || chance.below(64) == 0 {
            entries.push(entry)?;
        }
    }
    Ok(entries)
}

fn last_cycle(entries: &[Entry]) -> u64 {
    match entries {
        [.., last] => last.cycle,
        [] => 0,
    }
}

fn rule_in(found: Option<Fault>) -> Option<Rule> {
    let fault = found?;
    Some(fault.rule)
}

/// The rule broken first in a trace of that turn, whose end is by chance and in which the plain checker finds the same fault.
pub fn rule_of(
    rt: &impl Abort,
    alloc: Global,
    config: &Config,
    (turn, entries): (u32, &[Entry]),
    chance: &mut Chance,
) -> Result<Option<Rule>, Fail> {
    let end = last_cycle(entries).saturating_add(gap(chance));
    let found = first_fault(alloc, entries, config, 0, end)?;
    let plain = checker::first_fault(entries, config, 0, end);
    assert_eq!(rt; found, plain, "trace {turn}: {entries:?} up to {end}");
    Ok(rule_in(found))
}

/// The rules broken first in 400 such traces.
fn rules_of_400(rt: &impl Abort, alloc: Global) -> Result<Vec<Option<Rule>>, Fail> {
    let config = Config::read(alloc, PROFILE_S)?;
    let mut chance = Chance::new(1);
    let mut rules = Vec::new(alloc);
    for turn in 0..400 {
        let entries = trace(&mut chance, alloc, &config)?;
        let rule = rule_of(rt, alloc, &config, (turn, &entries), &mut chance)?;
        rules.push(rule)?;
    }
    Ok(rules)
}

const MET: &[Option<Rule>] = &[
    None,
    Some(Rule::State),
    Some(Rule::RefLate),
    Some(Rule::RefGap),
];

#[test]
fn as_the_plain_checker(rt: HostRuntime) -> Result<(), Fail> {
    let rules = rules_of_400(&rt, rt.alloc())?;
    for rule in MET {
        assert!(rt; rules.contains(rule), "{rule:?}");
    }
    Ok(())
}

/// Traces of profile S up to cycle 100, and which of their entries are known to break no rule.
const KEPT: &[(&[Step], &[bool])] = &[
    (&[], &[]),
    // The second ACT finds its bank active, and stands in what comes behind it.
    (
        &[
            Step::Act(0, 0, 0, 0),
            Step::Act(2, 0, 0, 1),
            Step::Rd(6, 0, 0, 1, 0),
            Step::Rd(11, 0, 0, 0, 0),
        ],
        &[true, false, true, false],
    ),
    // Nothing is known behind a group that there isn't, nor behind a cycle that doesn't rise.
    (
        &[
            Step::Act(0, 0, 0, 0),
            Step::Act(50, 4, 0, 0),
            Step::Pre(60, 0, 0),
        ],
        &[true, false, false],
    ),
    (
        &[
            Step::Act(0, 0, 0, 0),
            Step::Pre(0, 3, 3),
            Step::Pre(60, 0, 0),
        ],
        &[true, false, false],
    ),
];

#[test]
fn entries_that_break_no_rule(rt: HostRuntime) -> Result<(), Fail> {
    let alloc = rt.alloc();
    let config = Config::read(alloc, PROFILE_S)?;
    for (steps, wanted) in KEPT {
        let entries = entries_of(alloc, steps)?;
        let kept = kept_places(alloc, &entries, &config, 0, 100)?;
        assert_eq!(rt; kept.as_slice(), *wanted, "{entries:?}");
    }
    Ok(())
}
