//! Worked lists of events. Outcomes and refusals are written out by hand, for profile S with the changes named.

use ddr_ports::request::Request;
use ddr_samples::sample::limits;
use ddr_timing::config::Config;
use ddr_timing::limits::Limits;
use ddr_timing::profile::PROFILE_S;
use ddr_trace::trace::Trace;
use ddr_world::event::{Event, Outcome, Refusal};
use ddr_world::world::{Closed, NotDrained, World};
use std::alloc::Global;
use std::process::Abort;
use std::test::Fail;

mod chance;
mod quiet;
mod replies;
mod told;

/// A read of a byte at address 0, from port 0.
const READ: Event<'static> = Event::Submit(0, Request::Read { addr: 0, len: 1 });

/// Profile S, but for its limits, and with open rows.
fn config_with(alloc: Global, mut limits: Limits) -> Result<Config, Fail> {
    let mut config = Config::read(alloc, PROFILE_S)?;
    limits.closed = false;
    config.limits = limits;
    Ok(config)
}

/// A core of profile S, but for its limits.
fn open_with(alloc: Global, limits: Limits) -> Result<World, Fail> {
    let config = config_with(alloc, limits)?;
    Ok(World::open(alloc, &config)?)
}

/// An event, and what has to come of it.
type Row = (Event<'static>, Result<Outcome, Refusal>);

const FIRST: Row = (READ, Ok(Outcome::Accepted { number: 0 }));

const SECOND: Row = (READ, Ok(Outcome::Accepted { number: 1 }));

/// Makes each event, which has to come to what stands beside it.
fn makes(rt: &impl Abort, world: &mut World, rows: &[Row]) {
    for (event, expected) in rows {
        assert_eq!(rt; world.step(*event), *expected, "{event:?}");
    }
}

/// Makes rounds until the port's oldest reply is there, 100 at most, and gives its number up.
fn next_number(world: &mut World) -> Result<u64, Fail> {
    for _ in 0..100 {
        world.run(&[
            Event::Take(0),
            Event::Cycle(0),
            Event::Deliver(0),
            Event::Collect(0),
        ]);
        if let Ok(Outcome::Released { number }) = world.step(Event::Release(0)) {
            return Ok(number);
        }
    }
    Err("no reply".into())
}

/// A core that is not drained is handed back.
fn not_closed(world: World) -> Result<World, Fail> {
    match world.close() {
        Ok(_) => Err("closed too early".into()),
        Err((world, NotDrained)) => Ok(world),
    }
}

/// A trace from cycle 0 that made no cycle.
fn has_nothing(rt: &impl Abort, trace: &Trace) {
    assert_eq!(rt; (trace.start, trace.end, trace.entries.len()), (0, 0, 0));
}

fn are_zero(rt: &impl Abort, counts: &[u64]) {
    assert_eq!(rt; counts, [0, 0].as_slice());
}

fn have_nothing(rt: &impl Abort, traces: &[Option<Trace>]) -> Result<(), Fail> {
    assert_eq!(rt; traces.len(), 2);
    for trace in traces {
        has_nothing(rt, trace.as_ref().ok_or("no trace")?);
    }
    Ok(())
}

/// Nothing was asked for and no cycle was made, at two ports and two channels.
fn was_idle(rt: &impl Abort, closed: &Closed) -> Result<(), Fail> {
    are_zero(rt, closed.accepted.as_slice());
    are_zero(rt, closed.taken.as_slice());
    have_nothing(rt, closed.traces.as_slice())
}

/// Two reads, the first of which is taken, and then what cannot be done.
fn one_of_two_taken() -> [Row; 9] {
    [
        FIRST,
        SECOND,
        (Event::Take(0), Ok(Outcome::Taken)),
        (Event::Take(0), Err(Refusal::QueueFull)),
        (Event::Deliver(0), Err(Refusal::Nothing)),
        (Event::Collect(0), Err(Refusal::Nothing)),
        (Event::Release(0), Err(Refusal::Nothing)),
        (Event::End(0, 0), Err(Refusal::NotEmpty)),
        (Event::Cycle(2), Err(Refusal::NoSuch)),
    ]
}

#[test]
fn one_read_taken_where_the_read_queue_has_one_place(rt: HostRuntime) -> Result<(), Fail> {
    let mut limits = limits();
    limits.reads = 1;
    let mut world = open_with(rt.alloc(), limits)?;
    makes(&rt, &mut world, &one_of_two_taken());
    not_closed(world)?;
    Ok(())
}

/// The Ends of both ports at both channels, pushed and but for the last one taken.
fn all_but_the_last_end() -> [Row; 9] {
    [
        (Event::End(0, 0), Ok(Outcome::Ended)),
        (READ, Err(Refusal::Finished)),
        (Event::End(0, 0), Err(Refusal::Finished)),
        (Event::End(0, 1), Ok(Outcome::Ended)),
        (Event::End(1, 0), Ok(Outcome::Ended)),
        (Event::End(1, 1), Ok(Outcome::Ended)),
        (Event::Take(0), Ok(Outcome::Taken)),
        (Event::Take(0), Ok(Outcome::Taken)),
        (Event::Take(1), Ok(Outcome::Taken)),
    ]
}

#[test]
fn nothing_submitted_and_closed(rt: HostRuntime) -> Result<(), Fail> {
    let mut world = open_with(rt.alloc(), limits())?;
    makes(&rt, &mut world, &all_but_the_last_end());
    let mut world = not_closed(world)?;
    makes(&rt, &mut world, &[(Event::Take(1), Ok(Outcome::Taken))]);
    match world.close() {
        Ok(closed) => was_idle(&rt, &closed),
        Err(_) => Err("not closed".into()),
    }
}

#[test]
fn a_window_of_one(rt: HostRuntime) -> Result<(), Fail> {
    let mut limits = limits();
    limits.window = 1;
    let mut world = open_with(rt.alloc(), limits)?;
    makes(&rt, &mut world, &[FIRST, (READ, Err(Refusal::WindowFull))]);
    for number in 0..2 {
        assert_eq!(rt; next_number(&mut world)?, number);
        let next = Outcome::Accepted { number: number + 1 };
        assert_eq!(rt; world.step(READ), Ok(next));
    }
    Ok(())
}

/// A read of so many bytes from port 0.
fn read(addr: u64, len: u32) -> Event<'static> {
    Event::Submit(0, Request::read(addr, len))
}

#[test]
fn what_is_no_part_of_one_line(rt: HostRuntime) -> Result<(), Fail> {
    let mut world = open_with(rt.alloc(), limits())?;
    let answers = [
        (262_143, 1, Ok(Outcome::Accepted { number: 0 })),
        (262_144, 0, Err(Refusal::OutOfRange)),
        (0, 0, Err(Refusal::EmptyLength)),
        (60, 8, Err(Refusal::CrossesLine)),
        (60, 4, Ok(Outcome::Accepted { number: 1 })),
    ];
    for (addr, len, answer) in answers {
        assert_eq!(rt; world.step(read(addr, len)), answer);
    }
    let absent = Event::Submit(2, Request::read(0, 1));
    assert_eq!(rt; world.step(absent), Err(Refusal::NoSuch));
    Ok(())
}

/// The next replies have the numbers below the bound.
fn has_numbers_below(rt: &impl Abort, world: &mut World, bound: u64) -> Result<(), Fail> {
    for number in 0..bound {
        assert_eq!(rt; next_number(world)?, number);
    }
    Ok(())
}

#[test]
fn the_widest_window_and_intake(rt: HostRuntime) -> Result<(), Fail> {
    let mut limits = limits();
    limits.window = 64;
    limits.intake = 64;
    let mut world = open_with(rt.alloc(), limits)?;
    let report = world.run(&[READ; 65]);
    assert_eq!(rt; (report.made, report.refused), (64, 1));
    assert_eq!(rt; world.step(READ), Err(Refusal::WindowFull));
    has_numbers_below(&rt, &mut world, 64)?;
    makes(
        &rt,
        &mut world,
        &[(Event::Release(0), Err(Refusal::Nothing))],
    );
    Ok(())
}

/// A second read is refused until the first is taken.
fn takes_one_at_a_time(rt: &impl Abort, world: &mut World) -> Result<(), Fail> {
    let busy = Refusal::Busy { channel: 0 };
    makes(rt, world, &[FIRST, (READ, Err(busy))]);
    assert!(rt; world.front(0).is_none());
    assert_eq!(rt; next_number(world)?, 0);
    makes(rt, world, &[SECOND]);
    Ok(())
}

#[test]
fn an_intake_of_one(rt: HostRuntime) -> Result<(), Fail> {
    let mut limits = limits();
    limits.intake = 1;
    let mut world = open_with(rt.alloc(), limits)?;
    takes_one_at_a_time(&rt, &mut world)
}

/// A hundred rounds of channel 0 and both ports.
fn make_rounds(world: &mut World) {
    for _ in 0..100 {
        world.run(&[
            Event::Take(0),
            Event::Cycle(0),
            Event::Deliver(0),
            Event::Collect(0),
            Event::Collect(1),
        ]);
    }
}

/// The port's oldest reply is its first one, with these bytes.
fn is_lent(rt: &impl Abort, world: &World, port: u32, bytes: &[u8]) -> Result<(), Fail> {
    match world.front(port) {
        Some(reply) => {
            assert_eq!(rt; (reply.number, reply.bytes), (0, bytes));
            Ok(())
        }
        None => Err("no reply".into()),
    }
}

/// A read of what another port wrote before it: the write's byte at its place, and zeros about it.
#[test]
fn two_ports_share_a_line(rt: HostRuntime) -> Result<(), Fail> {
    let mut world = open_with(rt.alloc(), limits())?;
    let write = Event::Submit(1, Request::write(1, &[255]));
    let report = world.run(&[write, read(0, 3)]);
    assert_eq!(rt; report.refused, 0);
    assert_eq!(rt; world.waiting(0), Some(2));
    assert_eq!(rt; world.waiting(1), Some(0));
    make_rounds(&mut world);
    assert_eq!(rt; world.waiting(0), Some(0));
    assert!(rt; world.waiting(2).is_none());
    is_lent(&rt, &world, 0, &[0, 255, 0])?;
    is_lent(&rt, &world, 1, &[])?;
    assert!(rt; world.front(2).is_none());
    assert!(rt; world.channel(2).is_none());
    Ok(())
}
