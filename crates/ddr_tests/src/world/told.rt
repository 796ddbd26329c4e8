//! What the core's cycles tell, and what its replies tell of them: a byte that is written and read back.
use super::*;
use ddr_channel::issued::Issued;

/// Port 0 writes a byte at address 0 and reads it, and channel 0 takes both requests before its first cycle.
const ASKED: [Row; 4] = [
    (
        Event::Submit(
            0,
            Request::Write {
                addr: 0,
                bytes: &[7],
            },
        ),
        Ok(Outcome::Accepted { number: 0 }),
    ),
    SECOND,
    (Event::Take(0), Ok(Outcome::Taken)),
    (Event::Take(0), Ok(Outcome::Taken)),
];

/// A request that a cycle serves: its number, and the cycle in which it will be complete.
type Told = (u64, u64);

/// The cycles that issue a command, ACT, WR and RD, each with the request that it serves.
const TOLD: [(u64, Option<Told>); 3] = [(0, None), (4, Some((0, 11))), (15, Some((1, 23)))];

/// What stands in the table for a cycle, if it issues a command.
fn told_in(cycle: u64) -> Option<Option<Told>> {
    for (at, told) in TOLD {
        if at == cycle {
            return Some(told);
        }
    }
    None
}

/// The request that is served, by what was told.
fn served_by(issued: &Issued) -> Option<Told> {
    match &issued.served {
        Some(served) => Some((served.number, served.due)),
        None => None,
    }
}

/// Makes a cycle, which has to tell what stands in the table.
fn watch(rt: &impl Abort, world: &mut World, cycle: u64) {
    match world.cycle(0) {
        Ok(Some(issued)) => {
            assert_eq!(rt; issued.entry.cycle, cycle);
            assert_eq!(rt; Some(served_by(&issued)), told_in(cycle), "cycle {cycle}");
        }
        Ok(None) => assert_eq!(rt; told_in(cycle), None, "cycle {cycle}"),
        Err(cause) => assert!(rt; false, "{cause:?}"),
    }
}

/// Makes the cycles up to the one in which the read is complete, and hands on what is done.
fn watch_all(rt: &impl Abort, world: &mut World) {
    for cycle in 0..24 {
        watch(rt, world, cycle);
        world.run(&[Event::Deliver(0), Event::Collect(0)]);
    }
}

/// The number of the reply in front, and the cycles in which its request was served.
fn front(world: &World) -> Option<(u64, u64, u64)> {
    match world.front(0) {
        Some(reply) => Some((reply.number, reply.issued, reply.due)),
        None => None,
    }
}

#[test]
fn a_reply_tells_the_cycles_that_its_channel_told(rt: HostRuntime) -> Result<(), Fail> {
    let mut world = open_with(rt.alloc(), limits())?;
    makes(&rt, &mut world, &ASKED);
    watch_all(&rt, &mut world);
    assert_eq!(rt; front(&world), Some((0, 4, 11)));
    let given_up = Ok(Outcome::Released { number: 0 });
    assert_eq!(rt; world.step(Event::Release(0)), given_up);
    assert_eq!(rt; front(&world), Some((1, 15, 23)));
    Ok(())
}

#[test]
fn a_channel_that_is_not_there_makes_no_cycle(rt: HostRuntime) -> Result<(), Fail> {
    let mut world = open_with(rt.alloc(), limits())?;
    assert_eq!(rt; world.cycle(2).err(), Some(Refusal::NoSuch));
    Ok(())
}
