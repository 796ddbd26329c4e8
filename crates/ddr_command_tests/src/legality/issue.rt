//! What may be issued, cycle by cycle.
use super::traces::LEGAL;
use ddr_legality::legality::Legality;
use ddr_samples::steps::{Step, entries_of};
use ddr_timing::config::Config;
use ddr_timing::profile::PROFILE_S;
use ddr_timing::units::CLOCK_STOP;
use ddr_trace::checker::{Fault, first_fault};
use ddr_trace::command::{Command, Entry};
use ddr_trace::rule::Rule;
use std::alloc::{AllocError, Global};
use std::process::Abort;
use std::test::Fail;

/// A bus on which nothing was issued.
fn bus_from(alloc: Global, first: u64) -> Result<Legality, Fail> {
    if first > CLOCK_STOP {
        return Err("there is no such cycle".into());
    }
    let config = Config::read(alloc, PROFILE_S)?;
    Ok(Legality::open(alloc, &config, first)?)
}

/// Goes on to a cycle.
pub fn wait_until(bus: &mut Legality, cycle: u64) {
    for _tick in bus.now()..cycle {
        if bus.now() < CLOCK_STOP {
            bus.tick();
        }
    }
}

/// Issues a command in its cycle, in which it is legal.
fn issue(rt: &impl Abort, bus: &mut Legality, step: Step) -> Result<(), Fail> {
    let entry = step.entry();
    wait_until(bus, entry.cycle);
    bus.reserve_entry()?;
    assert_eq!(rt; bus.may(entry.command), Ok(()), "{entry:?}");
    bus.record(entry.command);
    Ok(())
}

/// The entries so far, and this command in the cycle that comes next.
fn longer(alloc: Global, bus: &Legality, command: Command) -> Result<Vec<Entry>, AllocError> {
    let mut entries = Vec::new(alloc);
    for entry in bus.entries() {
        entries.push(*entry)?;
    }
    let cycle = bus.now();
    entries.push(Entry { cycle, command })?;
    Ok(entries)
}

/// What the bus says of a command, as a fault of the longer trace.
fn said_of(bus: &Legality, command: Command) -> Option<Fault> {
    match bus.may(command) {
        Ok(()) => None,
        Err(rule) => Some(Fault {
            place: bus.entries().len(),
            rule,
        }),
    }
}

/// Whether the bus and the plain checker say the same of each command in this cycle.
pub fn compare(
    rt: &impl Abort,
    alloc: Global,
    bus: &Legality,
    config: &Config,
    commands: &[Command],
) -> Result<(), Fail> {
    let cycle = bus.now();
    for command in commands {
        let entries = longer(alloc, bus, *command)?;
        let fault = first_fault(&entries, config, 0, cycle + 1);
        assert_eq!(rt; said_of(bus, *command), fault, "{command:?} in {cycle}");
        assert_eq!(rt; bus.is_legal(*command), fault.is_none(), "in {cycle}");
    }
    Ok(())
}

/// Appends the commands of these steps.
fn push_commands(all: &mut Vec<Command>, steps: &[Step]) -> Result<(), AllocError> {
    for step in steps {
        all.push(step.command())?;
    }
    Ok(())
}

/// Every command on a row of a bank.
fn steps_of(group: u32, bank: u32, row: u32) -> [Step; 3] {
    [
        Step::Act(0, group, bank, row),
        Step::Rd(0, group, bank, row, 0),
        Step::Wr(0, group, bank, row, 0),
    ]
}

/// The commands of the whole rank, and one outside the geometry.
const OTHERS: &[Step] = &[Step::PreAll(0), Step::Refresh(0), Step::Act(0, 4, 0, 0)];

/// Every command on these banks, with rows 0 and 1, those of the whole rank, and one outside the geometry.
fn commands(alloc: Global, banks: &[(u32, u32)]) -> Result<Vec<Command>, AllocError> {
    let mut all = Vec::new(alloc);
    for (group, bank) in banks {
        push_commands(&mut all, &steps_of(*group, *bank, 0))?;
        push_commands(&mut all, &steps_of(*group, *bank, 1))?;
        all.push(Step::Pre(0, *group, *bank).command())?;
    }
    push_commands(&mut all, OTHERS)?;
    Ok(all)
}

/// Compares the two in every cycle up to this one.
fn compare_until(
    rt: &impl Abort,
    alloc: Global,
    bus: &mut Legality,
    config: &Config,
    commands: &[Command],
    end: u64,
) -> Result<(), Fail> {
    for cycle in bus.now()..end {
        wait_until(bus, cycle);
        compare(rt, alloc, bus, config, commands)?;
    }
    Ok(())
}

/// Compares the two in every cycle of a trace up to its end, also before each of its commands is issued.
fn compare_trace(
    rt: &impl Abort,
    alloc: Global,
    bus: &mut Legality,
    steps: &[Step],
    end: u64,
    commands: &[Command],
) -> Result<(), Fail> {
    let config = Config::read(alloc, PROFILE_S)?;
    for step in steps {
        let next = step.cycle().saturating_add(1);
        compare_until(rt, alloc, bus, &config, commands, next)?;
        issue(rt, bus, *step)?;
    }
    compare_until(rt, alloc, bus, &config, commands, end)
}

#[test]
fn as_the_plain_checker(rt: HostRuntime) -> Result<(), Fail> {
    let alloc = rt.alloc();
    for (steps, end, banks) in LEGAL {
        let commands = commands(alloc, banks)?;
        let mut bus = bus_from(alloc, 0)?;
        compare_trace(&rt, alloc, &mut bus, steps, *end, &commands)?;
        wait_until(&mut bus, *end);
        check_cycles(&rt, &bus, (0, *end));
        check_entries(&rt, alloc, bus, steps)?;
    }
    Ok(())
}

/// What happens on a bus, or is asked of it.
#[derive(Clone, Copy)]
enum Event {
    /// A command is issued in its cycle, in which it is legal.
    Issue(Step),
    /// What a command would break in its cycle.
    May(Step, Option<Rule>),
    /// The bus goes on to a cycle.
    Wait(u64),
    /// The open row of a bank: the group, the bank and the row.
    Row(u32, u32, Option<u32>),
    /// The first cycle, and the one that comes next.
    Cycles(u64, u64),
}

fn check_may(rt: &impl Abort, bus: &Legality, command: Command, rule: Option<Rule>) {
    let cycle = bus.now();
    assert_eq!(rt; bus.may(command).err(), rule, "{command:?} in {cycle}");
}

fn check_row(rt: &impl Abort, bus: &Legality, group: u32, bank: u32, row: Option<u32>) {
    let found = bus.open_row(0, group, bank);
    assert_eq!(rt; found, row, "of {group} and {bank} in {}", bus.now());
}

fn check_cycles(rt: &impl Abort, bus: &Legality, cycles: (u64, u64)) {
    assert_eq!(rt; (bus.start(), bus.now()), cycles);
}

/// Compares what is recorded with these commands, and what is handed over.
fn check_entries(
    rt: &impl Abort,
    alloc: Global,
    bus: Legality,
    steps: &[Step],
) -> Result<(), Fail> {
    let entries = entries_of(alloc, steps)?;
    assert_eq!(rt; bus.entries(), entries.as_slice());
    assert_eq!(rt; bus.into_entries().as_slice(), entries.as_slice());
    Ok(())
}

fn take(rt: &impl Abort, bus: &mut Legality, event: Event) -> Result<(), Fail> {
    match event {
        Event::Issue(step) => return issue(rt, bus, step),
        Event::May(step, rule) => {
            wait_until(bus, step.cycle());
            check_may(rt, bus, step.command(), rule);
        }
        Event::Wait(cycle) => wait_until(bus, cycle),
        Event::Row(group, bank, row) => check_row(rt, bus, group, bank, row),
        Event::Cycles(start, now) => check_cycles(rt, bus, (start, now)),
    }
    Ok(())
}

/// Takes the events on a bus from its first cycle on, which then has recorded these commands.
fn play(
    rt: &impl Abort,
    alloc: Global,
    first: u64,
    events: &[Event],
    recorded: &[Step],
) -> Result<(), Fail> {
    let mut bus = bus_from(alloc, first)?;
    for event in events {
        take(rt, &mut bus, *event)?;
    }
    check_entries(rt, alloc, bus, recorded)
}

const FIVE: &[Event] = &[
    Event::Issue(Step::Act(0, 0, 0, 0)),
    Event::Issue(Step::Act(2, 1, 0, 0)),
    Event::Issue(Step::Act(5, 2, 0, 0)),
    Event::Issue(Step::Act(7, 3, 0, 0)),
    Event::May(Step::Act(11, 0, 1, 0), Some(Rule::Faw)),
    Event::May(Step::Act(12, 0, 1, 0), None),
];

const FOUR: &[Step] = &[
    Step::Act(0, 0, 0, 0),
    Step::Act(2, 1, 0, 0),
    Step::Act(5, 2, 0, 0),
    Step::Act(7, 3, 0, 0),
];

#[test]
fn fifth_activation(rt: HostRuntime) -> Result<(), Fail> {
    play(&rt, rt.alloc(), 0, FIVE, FOUR)
}

const ONE: Step = Step::Refresh(CLOCK_STOP);

const ANOTHER: &[Event] = &[
    Event::Cycles(CLOCK_STOP, CLOCK_STOP),
    Event::Issue(ONE),
    Event::May(ONE, Some(Rule::Order)),
];

#[test]
fn one_command_a_cycle(rt: HostRuntime) -> Result<(), Fail> {
    play(&rt, rt.alloc(), CLOCK_STOP, ANOTHER, &[ONE])
}

const OPEN_ROWS: &[Event] = &[
    Event::Issue(Step::Act(0, 0, 0, 5)),
    Event::Issue(Step::Act(2, 1, 3, 7)),
    Event::Wait(3),
    Event::Row(0, 0, Some(5)),
    Event::Row(1, 3, Some(7)),
    Event::Row(0, 3, None),
    Event::Row(4, 0, None),
    Event::Row(0, 4, None),
    Event::Issue(Step::Pre(10, 0, 0)),
    Event::Wait(11),
    Event::Row(0, 0, None),
    Event::Row(1, 3, Some(7)),
];

const ONE_CLOSED: &[Step] = &[
    Step::Act(0, 0, 0, 5),
    Step::Act(2, 1, 3, 7),
    Step::Pre(10, 0, 0),
];

#[test]
fn open_rows(rt: HostRuntime) -> Result<(), Fail> {
    play(&rt, rt.alloc(), 0, OPEN_ROWS, ONE_CLOSED)
}

const NO_ROWS: &[Event] = &[
    Event::Issue(Step::Act(0, 0, 0, 5)),
    Event::Issue(Step::Act(2, 1, 3, 7)),
    Event::Issue(Step::PreAll(12)),
    Event::Wait(13),
    Event::Row(0, 0, None),
    Event::Row(1, 3, None),
];

const ALL_CLOSED: &[Step] = &[
    Step::Act(0, 0, 0, 5),
    Step::Act(2, 1, 3, 7),
    Step::PreAll(12),
];

#[test]
fn all_rows_closed(rt: HostRuntime) -> Result<(), Fail> {
    play(&rt, rt.alloc(), 0, NO_ROWS, ALL_CLOSED)
}
