//! A list of pending requests that is filled and emptied, with what it holds told by hand; in `chance` by a plain list.
ghost use Rattle.std.specs.Prelude.{◌<◌, IfOk};
ghost use Rattle.ddr_timing.specs.declared.units.TheConstants.{MOST_GROUPS};
ghost use Rattle.ddr_hazards.specs.PendingList.{IsInRank};

use ddr_address_map::place::Place;
use ddr_address_map::request::{Echo, Kind, Req};
use ddr_hazards::pending::Pending;
use std::alloc::{AllocError, Global};
use std::process::Abort;
use std::test::Fail;

mod chance;

/// A request to a byte.
fn request_at(alloc: Global, kind: Kind, number: u64, place: Place) -> Result<Req, AllocError>
    requires { IsInRank place }
    ensures { IfOk result (λ r. IsInRank r.place) }
{
    Ok(Req {
        port: 0,
        number,
        echo: Echo {
            kind,
            addr: 0,
            len: 1,
        },
        place,
        mask: 0,
        line: Box::new(alloc, [0; 64])?,
    })
}

/// A request to a byte of one row, which differs from others in its line and its offset alone.
fn request(
    alloc: Global,
    kind: Kind,
    number: u64,
    line: u32,
    offset: u32,
) -> Result<Req, AllocError>
    ensures { IfOk result (λ r. IsInRank r.place) }
{
    let place = Place {
        channel: 0,
        rank: 0,
        group: 1,
        bank: 2,
        row: 3,
        line,
        offset,
    };
    request_at(alloc, kind, number, place)
}

/// A request that is to be admitted: its kind, its number, its line and its offset, and the cycle.
type Asked = (Kind, u64, u32, u32, u64);

/// What happens to a list, or is asked of it.
#[derive(Clone, Copy)]
enum Step {
    /// The request is admitted.
    Admit(Asked),
    /// The request is handed back.
    Refuse(Asked),
    /// The request at a place is removed, which has this number.
    Remove(usize, Option<u64>),
    /// How many requests are pending, how many reads and how many writes.
    Holds(usize, u32, u32),
    /// Whether no request is pending.
    Empty(bool),
    /// As many requests of the kind are pending as may be.
    Full(Kind),
    /// The number and the admission cycle of the request at a place.
    At(usize, Option<(u64, u64)>),
    /// The number of the oldest request.
    Oldest(Option<u64>),
    /// The numbers of the requests that are blocked, the oldest first.
    Blocks(&'static [u64]),
}

/// The number of the request where it is handed back.
fn admit(alloc: Global, pending: &mut Pending, asked: Asked) -> Result<Option<u64>, AllocError> {
    let (kind, number, line, offset, now) = asked;
    match pending.admit(request(alloc, kind, number, line, offset)?, now) {
        Ok(()) => Ok(None),
        Err(refused) => Ok(Some(refused.number)),
    }
}

fn remove(pending: &mut Pending, place: usize) -> Option<u64> {
    let request = pending.remove(place)?;
    Some(request.number)
}

/// The number and the admission cycle of the request at a place.
fn at(pending: &Pending, place: usize) -> Option<(u64, u64)> {
    let (request, admitted) = pending.get(place)?;
    Some((request.number, admitted))
}

fn oldest(pending: &Pending) -> Option<u64> {
    let (request, _) = pending.oldest()?;
    Some(request.number)
}

/// The numbers of the requests that are blocked, the oldest first.
fn blocked_numbers(alloc: Global, pending: &Pending) -> Result<Vec<u64>, Fail> {
    let mut numbers = Vec::new(alloc);
    for place in 0..pending.len() {
        if pending.blocked(place) {
            let (request, _) = pending.get(place).ok_or("nothing is pending there")?;
            numbers.push(request.number)?;
        }
    }
    Ok(numbers)
}

fn check_number(rt: &impl Abort, nth: usize, found: Option<u64>, number: Option<u64>) {
    assert_eq!(rt; found, number, "step {nth}");
}

fn check_counts(rt: &impl Abort, nth: usize, pending: &Pending, counts: (usize, u32, u32)) {
    let found = (pending.len(), pending.reads(), pending.writes());
    assert_eq!(rt; found, counts, "step {nth}");
}

fn check_blocked(
    rt: &impl Abort,
    alloc: Global,
    nth: usize,
    pending: &Pending,
    numbers: &[u64],
) -> Result<(), Fail> {
    let found = blocked_numbers(alloc, pending)?;
    assert_eq!(rt; found.as_slice(), numbers, "step {nth}");
    Ok(())
}

fn check_place(
    rt: &impl Abort,
    nth: usize,
    found: Option<(u64, u64)>,
    expected: Option<(u64, u64)>,
) {
    assert_eq!(rt; found, expected, "step {nth}");
}

fn check_truth(rt: &impl Abort, nth: usize, found: bool, expected: bool) {
    assert!(rt; found == expected, "step {nth}");
}

/// Takes a step.
fn take(
    rt: &impl Abort,
    alloc: Global,
    pending: &mut Pending,
    nth: usize,
    step: Step,
) -> Result<(), Fail> {
    match step {
        Step::Admit(asked) => check_number(rt, nth, admit(alloc, pending, asked)?, None),
        Step::Refuse(asked) => {
            check_number(rt, nth, admit(alloc, pending, asked)?, Some(asked.1))
        }
        Step::Remove(place, number) => check_number(rt, nth, remove(pending, place), number),
        Step::Holds(all, reads, writes) => check_counts(rt, nth, pending, (all, reads, writes)),
        Step::Empty(empty) => check_truth(rt, nth, pending.is_empty(), empty),
        Step::Full(kind) => check_truth(rt, nth, pending.is_full(kind), true),
        Step::At(place, expected) => check_place(rt, nth, at(pending, place), expected),
        Step::Oldest(number) => check_number(rt, nth, oldest(pending), number),
        Step::Blocks(numbers) => return check_blocked(rt, alloc, nth, pending, numbers),
    }
    Ok(())
}

/// Takes the steps, in order.
fn play(rt: &impl Abort, alloc: Global, pending: &mut Pending, steps: &[Step]) -> Result<(), Fail> {
    for (nth, step) in steps.iter().enumerate() {
        take(rt, alloc, pending, nth, *step)?;
    }
    Ok(())
}

const ORDER: &[Step] = &[
    Step::Empty(true),
    Step::Oldest(None),
    Step::Admit((Kind::Read, 10, 0, 0, 5)),
    Step::Admit((Kind::Write, 11, 1, 0, 5)),
    Step::Admit((Kind::Read, 12, 2, 0, 8)),
    Step::Refuse((Kind::Read, 13, 3, 0, 9)),
    Step::Holds(3, 2, 1),
    Step::Full(Kind::Read),
    Step::Full(Kind::Write),
    Step::Remove(1, Some(11)),
    Step::Remove(2, None),
    Step::At(0, Some((10, 5))),
    Step::At(1, Some((12, 8))),
    Step::At(2, None),
    Step::Oldest(Some(10)),
    Step::Holds(2, 2, 0),
];

#[test]
fn requests_stay_in_the_order_of_their_admission(rt: HostRuntime) -> Result<(), Fail> {
    let mut pending = Pending::open(2, 1);
    play(&rt, rt.alloc(), &mut pending, ORDER)
}

/// Byte 8 of line 4, the whole of line 5, and byte 0 of line 4: the last waits for the first.
const OLDER: &[Step] = &[
    Step::Admit((Kind::Write, 0, 4, 8, 0)),
    Step::Admit((Kind::Write, 1, 5, 0, 0)),
    Step::Admit((Kind::Read, 2, 4, 0, 0)),
    Step::Holds(3, 1, 2),
    Step::Blocks(&[2]),
    Step::Remove(0, Some(0)),
    Step::Holds(2, 1, 1),
    Step::Blocks(&[]),
];

#[test]
fn only_an_older_request_to_the_line_blocks(rt: HostRuntime) -> Result<(), Fail> {
    let mut pending = Pending::open(32, 32);
    play(&rt, rt.alloc(), &mut pending, OLDER)
}

/// A write, a read and a write, all of line 4.
const THREE_OF_A_LINE: &[Step] = &[
    Step::Admit((Kind::Write, 0, 4, 0, 0)),
    Step::Admit((Kind::Read, 1, 4, 0, 0)),
    Step::Admit((Kind::Write, 2, 4, 0, 0)),
];

/// What is done with the three of a line: the first is removed and then the next, the one in the middle alone, and
/// the last alone. The removal of the first frees the next alone, and that of a blocked one frees none.
const REMOVALS: [&[Step]; 3] = [
    &[
        Step::Blocks(&[1, 2]),
        Step::Remove(0, Some(0)),
        Step::Blocks(&[2]),
        Step::Remove(0, Some(1)),
        Step::Blocks(&[]),
    ],
    &[Step::Remove(1, Some(1)), Step::Blocks(&[2])],
    &[Step::Remove(2, Some(2)), Step::Blocks(&[1])],
];

#[test]
fn removal_frees_the_next_of_its_line_at_most(rt: HostRuntime) -> Result<(), Fail> {
    for steps in REMOVALS {
        let mut pending = Pending::open(32, 32);
        play(&rt, rt.alloc(), &mut pending, THREE_OF_A_LINE)?;
        play(&rt, rt.alloc(), &mut pending, steps)?;
    }
    Ok(())
}

/// Line 4 by 0, 2 and 3, line 5 by 1 and 4.
const TWO_LINES: &[Step] = &[
    Step::Admit((Kind::Read, 0, 4, 0, 0)),
    Step::Admit((Kind::Read, 1, 5, 0, 0)),
    Step::Admit((Kind::Write, 2, 4, 0, 0)),
    Step::Admit((Kind::Read, 3, 4, 0, 0)),
    Step::Admit((Kind::Write, 4, 5, 0, 0)),
    Step::Blocks(&[2, 3, 4]),
    Step::Remove(1, Some(1)),
    Step::Blocks(&[2, 3]),
    Step::Remove(0, Some(0)),
    Step::Blocks(&[3]),
    Step::Remove(0, Some(2)),
    Step::Blocks(&[]),
    // a request to line 5 waits again, since 4 is pending still
    Step::Admit((Kind::Read, 5, 5, 0, 0)),
    Step::Blocks(&[5]),
];

#[test]
fn each_line_is_freed_by_its_own_requests(rt: HostRuntime) -> Result<(), Fail> {
    let mut pending = Pending::open(32, 32);
    play(&rt, rt.alloc(), &mut pending, TWO_LINES)
}

/// A read of the first byte of row 0 in bank 0 of a group.
fn read_of_group(alloc: Global, number: u64, group: u32) -> Result<Req, AllocError>
    requires { group < MOST_GROUPS }
    ensures { IfOk result (λ r. IsInRank r.place) }
{
    let place = Place {
        channel: 0,
        rank: 0,
        group,
        bank: 0,
        row: 0,
        line: 0,
        offset: 0,
    };
    request_at(alloc, Kind::Read, number, place)
}

/// How many older requests each one waits for, the oldest first.
fn hazards(alloc: Global, pending: &Pending) -> Result<Vec<usize>, Fail> {
    let mut counts = Vec::new(alloc);
    for place in 0..pending.len() {
        counts.push(pending.hazards(place))?;
    }
    Ok(counts)
}

/// Four reads of group 0, 1, 0 and 0, as addresses 0, 512, 0 and 0 of profile S are.
fn admit_four(alloc: Global, pending: &mut Pending) -> Result<(), Fail> {
    for (number, group) in [0u32, 1, 0, 0].into_iter().enumerate() {
        let request = read_of_group(alloc, number as u64, group & 1)?;
        pending.admit(request, 0).map_err(|_| "the queue is full")?;
    }
    Ok(())
}

#[test]
fn hazards_are_counted_and_a_bank_has_its_places(rt: HostRuntime) -> Result<(), Fail> {
    let alloc = rt.alloc();
    let mut pending = Pending::open(32, 32);
    admit_four(alloc, &mut pending)?;
    assert_eq!(&rt;
        hazards(alloc, &pending)?.as_slice(),
        [0usize, 0, 1, 2].as_slice()
    );
    assert_eq!(&rt; pending.in_bank(0, 0, 0, 1), Some(2));
    assert_eq!(&rt; pending.in_bank(0, 1, 0, 0), Some(1));
    assert_eq!(&rt; pending.in_bank(0, 0, 0, 3), None);
    assert_eq!(&rt; remove(&mut pending, 0), Some(0));
    assert_eq!(&rt;
        hazards(alloc, &pending)?.as_slice(),
        [0usize, 0, 1].as_slice()
    );
    assert_eq!(&rt; pending.in_bank(0, 0, 0, 1), Some(2));
    Ok(())
}
