//! Traces on two ranks that look like chance, with RDA and WRA among their commands: in each the checker in one pass
//! finds the fault that the plain one finds, or none.
use super::super::check::{gap, rule_of};
use ddr_samples::chance::Chance;
use ddr_timing::config::Config;
use ddr_timing::profile::PROFILE_S2;
use ddr_trace::checker::lowest_broken;
use ddr_trace::command::{Command, Entry};
use ddr_trace::rule::Rule;
use std::alloc::{AllocError, Global};
use std::process::Abort;
use std::test::Fail;

const TRACES: u32 = 2000;

/// A command on one of four banks of a rank, or of the rank.
pub fn command(chance: &mut Chance) -> Command {
    let rank = chance.pick(2);
    let group = chance.pick(2);
    let bank = chance.pick(2);
    let row = chance.pick(2);
    let line = 0;
    match chance.pick(12) {
        0..=3 => Command::Act {
            rank,
            group,
            bank,
            row,
        },
        4 | 5 => Command::Rd {
            rank,
            group,
            bank,
            row,
            line,
        },
        6 | 7 => Command::Wr {
            rank,
            group,
            bank,
            row,
            line,
        },
        8 => Command::RdAuto {
            rank,
            group,
            bank,
            row,
            line,
        },
        9 => Command::WrAuto {
            rank,
            group,
            bank,
            row,
            line,
        },
        10 => Command::Pre { rank, group, bank },
        _ => of_rank(chance, rank),
    }
}

/// A command of a whole rank.
fn of_rank(chance: &mut Chance, rank: u32) -> Command {
    if chance.pick(2) == 0 {
        Command::PreAll { rank }
    } else {
        Command::Refresh { rank }
    }
}

/// A trace in which most commands are legal.
fn trace(chance: &mut Chance, alloc: Global, config: &Config) -> Result<Vec<Entry>, AllocError> {
    let mut entries = Vec::new(alloc);
    let mut cycle = 0u64;
    for _ in 0..40 {
        cycle = cycle.saturating_add(gap(chance));
        let command = command(chance);
        let entry = Entry { cycle, command };
        let broken = lowest_broken(&entries, &entry, config, 0, u64::MAX);
        if broken.is_none() || chance.pick(48) == 0 {
            entries.push(entry)?;
        }
    }
    Ok(entries)
}

/// The rules broken first in such traces.
fn rules(rt: &impl Abort, alloc: Global) -> Result<Vec<Option<Rule>>, Fail> {
    let config = Config::read(alloc, PROFILE_S2)?;
    let mut chance = Chance::new(1);
    let mut rules = Vec::new(alloc);
    for turn in 0..TRACES {
        let entries = trace(&mut chance, alloc, &config)?;
        let rule = rule_of(rt, alloc, &config, (turn, &entries), &mut chance)?;
        rules.push(rule)?;
    }
    Ok(rules)
}

/// What must be met among the traces: no fault, and these rules broken first.
const MET: &[Option<Rule>] = &[
    None,
    Some(Rule::Order),
    Some(Rule::State),
    Some(Rule::Row),
    Some(Rule::Rp),
    Some(Rule::RefLate),
    Some(Rule::RefGap),
    Some(Rule::Rtrs),
];

#[test]
fn as_the_plain_checker_on_two_ranks(rt: HostRuntime) -> Result<(), Fail> {
    let rules = rules(&rt, rt.alloc())?;
    let legal = rules.iter().filter(|rule| rule.is_none()).count();
    assert!(rt; 400 <= legal && legal <= 1600, "{legal} are legal");
    for rule in MET {
        assert!(rt; rules.contains(rule), "{rule:?}");
    }
    Ok(())
}
