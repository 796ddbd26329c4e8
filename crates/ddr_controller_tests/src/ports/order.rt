//! Lines that come back in every order of a window of four.
use super::{Asked, ask, fill, lends, open};
use ddr_address_map::request::{Kind, Line};
use ddr_ports::port::PortCore;
use ddr_ports::refusal::PortError;
use std::alloc::Global;
use std::ops::Range;
use std::process::Abort;
use std::test::Fail;

/// Each order of four: the place of each line that comes back, and how many replies are ready then.
const ORDERS: &[[(usize, usize); 4]] = &[
    [(0, 1), (1, 2), (2, 3), (3, 4)],
    [(0, 1), (1, 2), (3, 2), (2, 4)],
    [(0, 1), (2, 1), (1, 3), (3, 4)],
    [(0, 1), (2, 1), (3, 1), (1, 4)],
    [(0, 1), (3, 1), (1, 2), (2, 4)],
    [(0, 1), (3, 1), (2, 1), (1, 4)],
    [(1, 0), (0, 2), (2, 3), (3, 4)],
    [(1, 0), (0, 2), (3, 2), (2, 4)],
    [(1, 0), (2, 0), (0, 3), (3, 4)],
    [(1, 0), (2, 0), (3, 0), (0, 4)],
    [(1, 0), (3, 0), (0, 2), (2, 4)],
    [(1, 0), (3, 0), (2, 0), (0, 4)],
    [(2, 0), (0, 1), (1, 3), (3, 4)],
    [(2, 0), (0, 1), (3, 1), (1, 4)],
    [(2, 0), (1, 0), (0, 3), (3, 4)],
    [(2, 0), (1, 0), (3, 0), (0, 4)],
    [(2, 0), (3, 0), (0, 1), (1, 4)],
    [(2, 0), (3, 0), (1, 0), (0, 4)],
    [(3, 0), (0, 1), (1, 2), (2, 4)],
    [(3, 0), (0, 1), (2, 1), (1, 4)],
    [(3, 0), (1, 0), (0, 2), (2, 4)],
    [(3, 0), (1, 0), (2, 0), (0, 4)],
    [(3, 0), (2, 0), (0, 1), (1, 4)],
    [(3, 0), (2, 0), (1, 0), (0, 4)],
];

/// The numbers of four reads of eight bytes.
fn ask_four(port: &mut PortCore) -> Result<[u64; 4], PortError> {
    let mut numbers = [0; 4];
    for number in &mut numbers {
        *number = ask(port, Asked::Read(0, 8))?;
    }
    Ok(numbers)
}

/// A line with a number in its first bytes.
fn line_of(number: u64) -> Line {
    let mut line = [0; 64];
    line[..8].copy_from_slice(&number.to_le_bytes());
    line
}

/// Brings the line of a read back, with its number in its first bytes.
fn complete(alloc: Global, port: &mut PortCore, number: u64) -> Result<(), Fail> {
    let filled = fill(alloc, port, number, (Kind::Read, 0, 8), &line_of(number))?;
    Ok(filled.ok().ok_or("stray")?)
}

/// Four reads, whose lines come back in an order.
fn complete_four(
    rt: &impl Abort,
    alloc: Global,
    port: &mut PortCore,
    order: &[(usize, usize); 4],
) -> Result<(), Fail> {
    let numbers = ask_four(port)?;
    for (place, ready) in order {
        let number = numbers.get(*place).ok_or("no such read")?;
        complete(alloc, port, *number)?;
        assert!(rt; port.ready() == *ready, "{order:?}");
        assert!(rt; port.nth(*ready).is_none(), "{order:?}");
    }
    Ok(())
}

/// The number of the oldest reply.
fn front_number(port: &PortCore) -> Option<u64> {
    Some(port.front()?.number)
}

/// Takes four replies, whose numbers are the next ones.
fn take_four(rt: &impl Abort, port: &mut PortCore, numbers: &mut Range<u64>) -> Result<(), Fail> {
    for _ in 0..4 {
        let number = front_number(port).ok_or("no reply")?;
        assert!(rt; Some(number) == numbers.next());
        assert!(rt; lends(port, &number.to_le_bytes()));
        let _ = port.release();
    }
    Ok(())
}

// The numbers wrap round a ring of four places 24 times.
#[test]
fn gives_replies_in_the_order_of_their_numbers(rt: HostRuntime) -> Result<(), Fail> {
    let mut port = open(rt.alloc(), 4, 0)?;
    let mut numbers = 0..96;
    for order in ORDERS {
        complete_four(&rt, rt.alloc(), &mut port, order)?;
        take_four(&rt, &mut port, &mut numbers)?;
    }
    assert!(rt; numbers.next().is_none());
    Ok(())
}
