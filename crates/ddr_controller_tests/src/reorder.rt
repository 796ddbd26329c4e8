//! Worked runs of a reorder buffer.
ghost use Rattle.ddr_reorder.specs.State.{IsWithinLine};

use ddr_address_map::request::{Echo, Kind};
use ddr_reorder::refusal::{ReorderError, Stray};
use ddr_reorder::reorder::Reorder;
use ddr_reorder::reply::{Reply, Service};
use ddr_timing::units::CLOCK_STOP;
use std::test::Fail;

/// A read of seven bytes in mid-line.
fn read() -> Echo
    ensures { IsWithinLine result }
{
    Echo {
        kind: Kind::Read,
        addr: 8195,
        len: 7,
    }
}

/// A write of a whole line.
fn write() -> Echo
    ensures { IsWithinLine result }
{
    Echo {
        kind: Kind::Write,
        addr: 64,
        len: 64,
    }
}

/// The cycles of a write at address 0 and of a read behind it, by profile S: WR in cycle 4, RD in cycle 15.
const FIRST: Service = Service { issued: 4, due: 11 };

const SECOND: Service = Service {
    issued: 15,
    due: 23,
};

/// The cycles in which the request of a reply was served.
fn service(reply: Option<Reply<'_>>) -> Option<Service> {
    let reply = reply?;
    Some(Service {
        issued: reply.issued,
        due: reply.due,
    })
}

#[test]
fn lends_replies_in_the_order_of_their_numbers(rt: HostRuntime) -> Result<(), Fail> {
    let mut reorder = Reorder::open(rt.alloc(), 2, 40)?;
    let (oldest, mut line) = reorder.issue(read()).ok().ok_or("no number")?;
    let (newest, other) = reorder.issue(write()).ok().ok_or("no number")?;
    assert_eq!(rt; (oldest, newest), (40, 41));
    assert_eq!(rt; reorder.issue(read()).err(), Some(ReorderError::WindowFull));
    for (place, byte) in line.iter_mut().enumerate() {
        *byte = place as u8;
    }
    assert!(rt; reorder.fill(41, write(), FIRST, other).is_ok());
    assert_eq!(rt; (reorder.ready(), reorder.outstanding()), (0, 2));
    assert!(rt; reorder.front().is_none() && reorder.nth(1).is_none());
    assert!(rt; reorder.fill(40, read(), SECOND, line).is_ok());
    assert_eq!(rt; reorder.ready(), 2);
    assert_eq!(rt; service(reorder.front()), Some(SECOND));
    assert_eq!(rt; service(reorder.nth(1)), Some(FIRST));
    let reply = reorder.front().ok_or("no reply")?;
    assert_eq!(rt; (reply.number, reply.echo), (40, read()));
    assert_eq!(rt; reply.bytes, [3, 4, 5, 6, 7, 8, 9].as_slice());
    let reply = reorder.nth(1).ok_or("no reply")?;
    assert_eq!(rt; (reply.number, reply.echo), (41, write()));
    assert_eq!(rt; reply.bytes.len(), 0);
    assert_eq!(rt; reorder.release(), Some(40));
    assert_eq!(rt; reorder.release(), Some(41));
    assert_eq!(rt; reorder.release(), None);
    assert_eq!(rt; reorder.outstanding(), 0);
    Ok(())
}

#[test]
fn takes_back_the_newest_number_and_no_stray_line(rt: HostRuntime) -> Result<(), Fail> {
    let mut reorder = Reorder::open(rt.alloc(), 1, CLOCK_STOP - 1)?;
    let (number, line) = reorder.issue(read()).ok().ok_or("no number")?;
    assert_eq!(rt; reorder.issue(read()).err(), Some(ReorderError::Spent));
    reorder.recall(number, line);
    assert_eq!(rt; reorder.outstanding(), 0);
    let (number, line) = reorder.issue(write()).ok().ok_or("no number")?;
    assert_eq!(rt; number, CLOCK_STOP - 1);
    let (line, stray) = reorder
        .fill(number, read(), FIRST, line)
        .err()
        .ok_or("filled")?;
    assert_eq!(rt; stray, Stray);
    let (line, _) = reorder.fill(0, write(), FIRST, line).err().ok_or("filled")?;
    assert!(rt; reorder.fill(number, write(), SECOND, line).is_ok());
    assert_eq!(rt; service(reorder.front()), Some(SECOND));
    assert_eq!(rt; reorder.release(), Some(number));
    assert_eq!(rt; reorder.issue(read()).err(), Some(ReorderError::Spent));
    Ok(())
}
