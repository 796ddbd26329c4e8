//! Two ranks and auto-precharge: in each cycle the bus and the plain checker say the same of each command.
use super::{Ranked, entry_of};
use crate::legality::issue::{compare, wait_until};
use ddr_legality::legality::Legality;
use ddr_samples::steps::Step;
use ddr_timing::config::Config;
use ddr_timing::profile::PROFILE_S2;
use ddr_trace::command::Command;
use std::alloc::{AllocError, Global};
use std::process::Abort;
use std::test::Fail;

/// The most cycles that a command of the table waits for.
const PATIENCE: u64 = 100;

/// The commands that are issued, each in the first cycle in which it is legal. The steps' own cycles say nothing.
const ISSUED: &[Ranked] = &[
    (0, Step::Act(0, 0, 0, 0)),
    (1, Step::Act(0, 0, 0, 0)),
    (0, Step::WrAuto(0, 0, 0, 0, 0)),
    (1, Step::RdAuto(0, 0, 0, 0, 0)),
    // a bank again, behind its auto-precharge
    (0, Step::Act(0, 0, 0, 1)),
    (0, Step::Rd(0, 0, 0, 1, 0)),
    (0, Step::Act(0, 0, 1, 0)),
    (0, Step::Act(0, 1, 0, 0)),
    (0, Step::Act(0, 2, 0, 0)),
    // the fifth of five
    (0, Step::Act(0, 3, 0, 0)),
    (0, Step::Wr(0, 1, 0, 0, 0)),
    (0, Step::RdAuto(0, 0, 1, 0, 0)),
    (1, Step::Act(0, 0, 0, 1)),
    (1, Step::WrAuto(0, 0, 0, 1, 0)),
    (0, Step::Pre(0, 2, 0)),
    (0, Step::PreAll(0)),
    (0, Step::Refresh(0)),
    (1, Step::Refresh(0)),
    (0, Step::Act(0, 0, 0, 0)),
];

/// Two banks of a group and one of another, with the row that is opened first.
const BANKS: &[(u32, u32)] = &[(0, 0), (0, 1), (1, 0)];

/// Every command on these banks, with rows 0 and 1, and those of whole ranks.
pub fn commands(alloc: Global) -> Result<Vec<Command>, AllocError> {
    let mut all = Vec::new(alloc);
    for rank in 0..2u32 {
        push_banks(&mut all, rank)?;
        all.push(Step::PreAll(0).command_of(rank))?;
        all.push(Step::Refresh(0).command_of(rank))?;
    }
    Ok(all)
}

fn push_banks(all: &mut Vec<Command>, rank: u32) -> Result<(), AllocError> {
    for (group, bank) in BANKS {
        push_rows(all, rank, *group, *bank)?;
        all.push(Step::Pre(0, *group, *bank).command_of(rank))?;
    }
    Ok(())
}

fn push_rows(all: &mut Vec<Command>, rank: u32, group: u32, bank: u32) -> Result<(), AllocError> {
    for row in 0..2u32 {
        all.push(Step::Act(0, group, bank, row).command_of(rank))?;
        all.push(Step::Rd(0, group, bank, row, 0).command_of(rank))?;
        all.push(Step::Wr(0, group, bank, row, 0).command_of(rank))?;
        all.push(Step::RdAuto(0, group, bank, row, 0).command_of(rank))?;
        all.push(Step::WrAuto(0, group, bank, row, 0).command_of(rank))?;
    }
    Ok(())
}

/// Goes on to the first cycle in which the command is legal, and compares the two in each cycle up to it.
fn wait_for(
    rt: &impl Abort,
    alloc: Global,
    config: &Config,
    bus: &mut Legality,
    all: &[Command],
    next: Command,
) -> Result<(), Fail> {
    for waited in 0..PATIENCE {
        compare(rt, alloc, bus, config, all)?;
        if bus.is_legal(next) {
            return Ok(());
        }
        let cycle = bus.now();
        assert!(rt; waited + 1 < PATIENCE, "{next:?} in {cycle}");
        wait_until(bus, cycle.saturating_add(1));
    }
    Ok(())
}

/// Issues a command in this cycle, in which it is legal.
pub fn issue_now(rt: &impl Abort, bus: &mut Legality, command: Command) -> Result<(), Fail> {
    bus.reserve_entry()?;
    assert_eq!(rt; bus.may(command), Ok(()), "{command:?}");
    bus.record(command);
    Ok(())
}

#[test]
fn as_the_plain_checker(rt: HostRuntime) -> Result<(), Fail> {
    let alloc = rt.alloc();
    let config = Config::read(alloc, PROFILE_S2)?;
    let all = commands(alloc)?;
    let mut bus = Legality::open(alloc, &config, 0)?;
    for ranked in ISSUED {
        let command = entry_of(*ranked).command;
        wait_for(&rt, alloc, &config, &mut bus, &all, command)?;
        issue_now(&rt, &mut bus, command)?;
    }
    Ok(())
}
