//! The core: three reads of one bank, of which the last finds its row open and passes the second, and the refreshes behind them,
//! event by event and by runs. The answers and the traces are written out by hand.
use super::Met;
use crate::entries::{act, is_trace, pre, pre_all, rd, refresh};
use ddr_ports::request::Request;
use ddr_samples::sample::sample;
use ddr_trace::command::Entry;
use ddr_trace::trace::Trace;
use ddr_world::event::{Event, Outcome, Refusal};
use ddr_world::world::World;
use std::alloc::Global;

/// An event, and its answer where memory is there.
type Row = (Event<'static>, Result<Outcome, Refusal>);

/// The cycle before which a fourth read is made.
const LATER: u32 = 424;

/// A read of a byte from port 0.
fn read(addr: u64) -> Event<'static> {
    Event::Submit(0, Request::Read { addr, len: 1 })
}

/// Two rows of one bank, and the first row again.
fn reads() -> [Row; 3] {
    [
        (read(0), Ok(Outcome::Accepted { number: 0 })),
        (read(8192), Ok(Outcome::Accepted { number: 1 })),
        (read(64), Ok(Outcome::Accepted { number: 2 })),
    ]
}

const ENDS: [Row; 8] = [
    (Event::End(0, 0), Ok(Outcome::Ended)),
    (Event::End(0, 1), Ok(Outcome::Ended)),
    (Event::End(1, 0), Ok(Outcome::Ended)),
    (Event::End(1, 1), Ok(Outcome::Ended)),
    (Event::Take(0), Ok(Outcome::Taken)),
    (Event::Take(0), Ok(Outcome::Taken)),
    (Event::Take(1), Ok(Outcome::Taken)),
    (Event::Take(1), Ok(Outcome::Taken)),
];

/// Makes each event, and says whether each has its answer.
fn answers(world: &mut World, rows: &[Row]) -> Result<(), &'static str> {
    for (event, answer) in rows {
        if world.step(*event) != *answer {
            return Err("an event's answer");
        }
    }
    Ok(())
}

/// Makes a cycle of channel 0, and once more where memory was refused.
fn cycle_again(world: &mut World) -> Met {
    match world.step(Event::Cycle(0)) {
        Ok(Outcome::Cycled) => Ok(false),
        Err(Refusal::OutOfMemory) if world.step(Event::Cycle(0)) == Ok(Outcome::Cycled) => Ok(true),
        _ => Err("a cycle made again"),
    }
}

/// Which number's completion comes in a cycle. RD is CL + 4 clocks before: the first comes at 4, the younger hit CCD_L behind
/// it, and the third behind PRE at 12 and ACT at 16. That of the read that is made later comes behind its ACT at 424.
fn number_in(cycle: u32) -> Option<u64> {
    match cycle {
        12 => Some(0),
        17 => Some(2),
        28 => Some(1),
        436 => Some(3),
        _ => None,
    }
}

/// What the channel and port 0 take in a cycle.
fn collected_in(cycle: u32) -> [Row; 2] {
    let (delivered, collected) = match number_in(cycle) {
        Some(number) => (Ok(Outcome::Delivered), Ok(Outcome::Collected { number })),
        None => (Err(Refusal::Nothing), Err(Refusal::Nothing)),
    };
    [
        (Event::Deliver(0), delivered),
        (Event::Collect(0), collected),
    ]
}

/// Takes a request where there is one, makes a cycle, and takes what comes of it.
fn make_round(world: &mut World, cycle: u32) -> Met {
    let taken = if cycle < 3 || cycle == LATER {
        Ok(Outcome::Taken)
    } else {
        Err(Refusal::Nothing)
    };
    answers(world, &[(Event::Take(0), taken)])?;
    let refused = cycle_again(world)?;
    answers(world, &collected_in(cycle))?;
    Ok(refused)
}

/// Makes the rounds from one cycle up to another.
fn make_rounds(world: &mut World, (first, end): (u32, u32)) -> Met {
    let mut refused = false;
    for cycle in first..end {
        if make_round(world, cycle)? {
            refused = true;
        }
    }
    Ok(refused)
}

/// Gives the replies of these numbers up in their order.
fn release(world: &mut World, (first, end): (u64, u64)) -> Result<(), &'static str> {
    for number in first..end {
        let is_there = match world.front(0) {
            Some(reply) => reply.number == number && reply.bytes == [0].as_slice(),
            None => false,
        };
        if !is_there || world.step(Event::Release(0)) != Ok(Outcome::Released { number }) {
            return Err("a reply");
        }
    }
    Ok(())
}

/// RCD, CCD_L, RTP, RP and RCD lie between the commands of the three reads. A refresh falls due at each multiple of REFI,
/// which is 200; where a row is open, PREA comes first, and REF behind it by RP.
fn of_three_reads() -> [Entry; 9] {
    [
        act(0, 0),
        rd(4, 0, 0),
        rd(9, 0, 1),
        pre(12),
        act(16, 1),
        rd(20, 1, 0),
        pre_all(200),
        refresh(204, 0),
        refresh(400, 0),
    ]
}

/// What comes of the fourth read, whose row is a third one.
fn of_the_fourth() -> [Entry; 4] {
    [
        act(u64::from(LATER), 2),
        rd(428, 2, 0),
        pre_all(600),
        refresh(604, 0),
    ]
}

/// Whether a trace has the commands of the three reads, then these, and this end.
fn goes_on_with(trace: &Trace, more: &[Entry], end: u64) -> bool {
    let reads = of_three_reads();
    let entries = trace.entries.as_slice();
    match (entries.get(..reads.len()), entries.get(reads.len()..)) {
        (Some(first), Some(rest)) => {
            first == reads.as_slice() && rest == more && trace.end == end
        }
        _ => false,
    }
}

/// Whether channel 0 has the trace of the three reads with these commands behind it, and the other none.
fn has_traces(traces: &[Option<Trace>], more: &[Entry], end: u64) -> bool {
    match traces {
        [Some(first), Some(second)] => goes_on_with(first, more, end) && is_trace(second, &[], 0),
        _ => false,
    }
}

/// Closes a core that is drained, whose port 0 took so many replies and whose channel 0 has these commands behind the three reads.
fn is_closed(world: World, count: u64, more: &[Entry], end: u64) -> bool {
    match world.close() {
        Ok(closed) => {
            closed.accepted.as_slice() == [count, 0].as_slice()
                && closed.taken.as_slice() == [count, 0].as_slice()
                && has_traces(closed.traces.as_slice(), more, end)
        }
        Err(_) => false,
    }
}

/// Opens a core, once more where memory is refused.
fn open(alloc: Global) -> Result<World, &'static str> {
    match World::open(alloc, &sample()) {
        Ok(world) => Ok(world),
        Err(_) => World::open(alloc, &sample()).or(Err("a core opened again")),
    }
}

/// The three reads, and all of them taken.
fn taken_reads() -> [Event<'static>; 6] {
    [
        read(0),
        read(8192),
        read(64),
        Event::Take(0),
        Event::Take(0),
        Event::Take(0),
    ]
}

/// Takes the three completions.
const COMPLETIONS: [Event<'static>; 6] = [
    Event::Deliver(0),
    Event::Collect(0),
    Event::Deliver(0),
    Event::Collect(0),
    Event::Deliver(0),
    Event::Collect(0),
];

/// More than an interval of refreshes.
const CYCLES: [Event<'static>; 202] = [Event::Cycle(0); 202];

/// Makes events by a run that has to make each.
fn make_all(world: &mut World, events: &[Event<'_>]) -> Result<(), &'static str> {
    let report = world.run(events);
    if (report.made, report.refused) == (events.len(), 0) {
        Ok(())
    } else {
        Err("a run's report")
    }
}

/// Makes cycles by a run, which goes on after one that is refused and counts it, and makes one more in its place.
fn make_cycles(world: &mut World) -> Met {
    let report = world.run(&CYCLES);
    match (report.made, report.refused) {
        (202, 0) => Ok(false),
        (201, 1) => {
            make_all(world, &CYCLES[..1])?;
            Ok(true)
        }
        _ => Err("a run's report of a refused cycle"),
    }
}

/// Makes cycles by runs, over three refreshes.
fn make_runs(world: &mut World) -> Met {
    let first = make_cycles(world)?;
    let second = make_cycles(world)?;
    let third = make_cycles(world)?;
    Ok(first || second || third)
}

/// Three reads by `World::run`, with the cycle that is refused made again behind the others.
pub fn run(alloc: Global) -> Met {
    let mut world = open(alloc)?;
    make_all(&mut world, &taken_reads())?;
    let refused = make_runs(&mut world)?;
    make_all(&mut world, &COMPLETIONS)?;
    release(&mut world, (0, 3))?;
    answers(&mut world, &ENDS)?;
    // Without the fourth read no row is open from the first refresh on.
    if is_closed(world, 3, &[refresh(600, 0)], 606) {
        Ok(refused)
    } else {
        Err("what is left of a run")
    }
}

/// Three reads, and one more between two refreshes, with each cycle that is refused made again.
pub fn row_hit(alloc: Global) -> Met {
    let mut world = open(alloc)?;
    answers(&mut world, &reads())?;
    let first = make_rounds(&mut world, (0, 29))?;
    release(&mut world, (0, 3))?;
    let second = make_rounds(&mut world, (29, LATER))?;
    answers(
        &mut world,
        &[(read(16_384), Ok(Outcome::Accepted { number: 3 }))],
    )?;
    let third = make_rounds(&mut world, (LATER, 605))?;
    release(&mut world, (3, 4))?;
    answers(&mut world, &ENDS)?;
    if is_closed(world, 4, &of_the_fourth(), 605) {
        Ok(first || second || third)
    } else {
        Err("what is left")
    }
}
