//! What a channel has no room for, and that it goes on.
ghost use Rattle.std.specs.Prelude.{◌≡◌, IfOk};
ghost use Rattle.ddr_channel.specs.Sound.{IsServed};

use super::*;

/// Offers a request where its kind has no place left, and takes it back.
fn offer_in_vain(
    rt: &impl Abort,
    alloc: Global,
    channel: &mut Channel,
    number: u64,
    access: Access,
) -> Result<Req, Fail>
    ensures config { channel.new.config ≡ channel.old.config }
    ensures served { IfOk result (λ r. IsServed channel.new.config r.place) }
{
    let offered = request(alloc, channel.config(), number, access)?;
    let place = offered.place;
    let Err(returned) = channel.admit(offered) else {
        return Err("admitted by a full queue".into());
    };
    check_eq(rt, "the place", returned.place, place);
    Ok(returned)
}

fn check_room(rt: &impl Abort, channel: &Channel, expected: bool) {
    check_eq(rt, "whether there is room", channel.room(), expected);
}

/// Makes so many cycles, before each of which there is no room.
fn make_full_cycles(rt: &impl Abort, channel: &mut Channel, count: u32) -> Result<(), Fail>
    ensures { channel.new.config ≡ channel.old.config }
{
    for _nth in 0..count {
        check_room(rt, channel, false);
        channel.cycle()?;
    }
    Ok(())
}

/// Compares a request that was handed back with what was offered: the number, the mask and the byte of the line.
fn check_returned(rt: &impl Abort, returned: &Req, kind: Kind, expected: (u64, u64, u8)) {
    let (number, mask, byte) = expected;
    check_eq(rt, "the kind", returned.echo.kind, kind);
    check_eq(
        rt,
        "the number",
        (returned.port, returned.number),
        (0, number),
    );
    check_eq(rt, "the mask", returned.mask, mask);
    check_eq(rt, "the line", *returned.line, [byte; 64]);
}

const EIGHT_READS: &[Access] = &[Access::Read(0); 8];

/// Fills the queue of the reads, and offers one read more. A write, numbered 9, has a place.
fn refused_read(rt: &impl Abort, alloc: Global, channel: &mut Channel) -> Result<Req, Fail>
    ensures config { channel.new.config ≡ channel.old.config }
    ensures served { IfOk result (λ r. IsServed channel.new.config r.place) }
{
    check_room(rt, channel, true);
    admit_all(alloc, channel, 0, EIGHT_READS)?;
    check_room(rt, channel, false);
    let ninth = offer_in_vain(rt, alloc, channel, 8, Access::Read(0))?;
    check_returned(rt, &ninth, Kind::Read, (8, 0, 0xee));
    admit_all(alloc, channel, 9, &[Access::Write(0, 1, 0x77)])?;
    Ok(ninth)
}

/// Admits the read that was refused as soon as there is room: the first read is served in cycle 4.
fn admit_again(rt: &impl Abort, channel: &mut Channel, ninth: Req) -> Result<(), Fail>
    requires { IsServed channel.old.config ninth.place }
{
    make_full_cycles(rt, channel, 5)?;
    check_room(rt, channel, true);
    check_eq(
        rt,
        "whether it is admitted",
        channel.admit(ninth).is_ok(),
        true,
    );
    Ok(())
}

const FULL_QUEUE: Outcome = Outcome {
    commands: &[
        Step::Act(0, 0, 0, 0),
        Step::Rd(4, 0, 0, 0, 0),
        Step::Rd(9, 0, 0, 0, 0),
        Step::Rd(14, 0, 0, 0, 0),
        Step::Rd(19, 0, 0, 0, 0),
        Step::Rd(24, 0, 0, 0, 0),
        Step::Rd(29, 0, 0, 0, 0),
        Step::Rd(34, 0, 0, 0, 0),
        Step::Rd(39, 0, 0, 0, 0),
        Step::Wr(46, 0, 0, 0, 0),
        Step::Rd(57, 0, 0, 0, 0),
    ],
    end: 66,
    times: &[
        (0, 4, 12),
        (1, 9, 17),
        (2, 14, 22),
        (3, 19, 27),
        (4, 24, 32),
        (5, 29, 37),
        (6, 34, 42),
        (7, 39, 47),
        (9, 46, 53),
        (8, 57, 65),
    ],
    lines: &[(7, &[]), (8, &[0x77])],
};

/// Serves the ten requests, the one that was refused among them.
pub fn serve_ten(rt: &impl Abort, alloc: Global, channel: &mut Channel) -> Result<(), Fail> {
    let ninth = refused_read(rt, alloc, channel)?;
    admit_again(rt, channel, ninth)?;
    check_rest(rt, alloc, channel, &FULL_QUEUE)
}

/// The request that is handed back is the one that was offered, and is admitted later: the write that came in the
/// meantime is before it.
#[test]
fn a_full_queue_hands_the_request_back(rt: HostRuntime) -> Result<(), Fail> {
    play(&rt, rt.alloc(), &[], &Scene::Ten, &FULL_QUEUE)
}

/// Settings with which there is room for one write.
const ONE_WRITE: &[(&str, &str)] = &[
    ("writes", "writes = 1"),
    ("low", "low = 0"),
    ("high", "high = 1"),
];

/// Admits a write, and offers a second one in vain.
fn refuse_second_write(rt: &impl Abort, alloc: Global, channel: &mut Channel) -> Result<(), Fail> {
    check_eq(
        rt,
        "the places of writes",
        channel.config().limits.writes,
        1,
    );
    admit_all(alloc, channel, 0, &[Access::Write(0, 1, 5)])?;
    check_room(rt, channel, false);
    let second = offer_in_vain(rt, alloc, channel, 1, Access::Write(64, 2, 6))?;
    check_returned(rt, &second, Kind::Write, (1, 2, 6));
    Ok(())
}

/// Admits a read behind the first write, and serves both.
fn serve_first_two(rt: &impl Abort, alloc: Global, channel: &mut Channel) -> Result<(), Fail> {
    admit_all(alloc, channel, 2, &[Access::Read(0)])?;
    let taken = finish(alloc, channel)?;
    check_times(rt, alloc, &taken, &[(0, 4, 11), (2, 15, 23)])?;
    check_eq(rt, "the next cycle", channel.now(), 24);
    Ok(())
}

/// The row is still open for the write that comes last, and RTW is over.
const ONE_WRITE_AT_A_TIME: Outcome = Outcome {
    commands: &[
        Step::Act(0, 0, 0, 0),
        Step::Wr(4, 0, 0, 0, 0),
        Step::Rd(15, 0, 0, 0, 0),
        Step::Wr(24, 0, 0, 0, 1),
    ],
    end: 32,
    times: &[(3, 24, 31)],
    lines: &[],
};

/// Serves a write, a read, and then the write that had no place.
pub fn serve_one_by_one(rt: &impl Abort, alloc: Global, channel: &mut Channel) -> Result<(), Fail> {
    refuse_second_write(rt, alloc, channel)?;
    serve_first_two(rt, alloc, channel)?;
    admit_all(alloc, channel, 3, &[Access::Write(64, 2, 6)])?;
    check_rest(rt, alloc, channel, &ONE_WRITE_AT_A_TIME)
}

/// Where the writes have no place left, a read is admitted, and `room` tells that not both kinds have one.
#[test]
fn each_kind_has_a_queue_of_its_own(rt: HostRuntime) -> Result<(), Fail> {
    play(
        &rt,
        rt.alloc(),
        ONE_WRITE,
        &Scene::OneByOne,
        &ONE_WRITE_AT_A_TIME,
    )
}

/// The number of the completion that was done first.
fn number_done(channel: &Channel) -> Option<u64> {
    match channel.next_done() {
        Some(done) => Some(done.number),
        None => None,
    }
}

/// Makes so many cycles. Behind each it compares the number of the completion that was done first.
fn check_next_done(
    rt: &impl Abort,
    channel: &mut Channel,
    count: u32,
    expected: Option<u64>,
) -> Result<(), Fail> {
    for _nth in 0..count {
        channel.cycle()?;
        check_eq(rt, "what is done", number_done(channel), expected);
    }
    Ok(())
}

const WAITS_FOR_ROOM: Outcome = Outcome {
    commands: &[
        Step::Act(0, 0, 0, 0),
        Step::Rd(4, 0, 0, 0, 0),
        Step::Rd(30, 0, 0, 0, 1),
    ],
    end: 39,
    times: &[(1, 30, 38)],
    lines: &[],
};

/// Takes the completion that was done first, and tells when it was due.
fn take_due(channel: &mut Channel) -> Option<u64> {
    match channel.pop_done() {
        Some(done) => Some(done.due),
        None => None,
    }
}

/// Has the first read done from cycle 12 on, and takes it behind cycle 29.
fn take_late(rt: &impl Abort, channel: &mut Channel) -> Result<(), Fail> {
    check_next_done(rt, channel, 12, None)?;
    check_next_done(rt, channel, 18, Some(0))?;
    check_eq(rt, "how many commands", channel.trace().len(), 2);
    check_eq(rt, "when it was due", take_due(channel), Some(12));
    Ok(())
}

/// Serves two reads, of which the second has to wait.
pub fn serve_with_room_for_one(
    rt: &impl Abort,
    alloc: Global,
    channel: &mut Channel,
) -> Result<(), Fail> {
    admit_all(alloc, channel, 0, &[Access::Read(0), Access::Read(64)])?;
    take_late(rt, channel)?;
    check_rest(rt, alloc, channel, &WAITS_FOR_ROOM)
}

/// Settings with which one request may be in flight or done.
const ONE_DONE: &[(&str, &str)] = &[("done", "done = 1")];

/// One request may be in flight or done: the second read waits until the first is taken.
#[test]
fn no_column_command_without_room(rt: HostRuntime) -> Result<(), Fail> {
    play(
        &rt,
        rt.alloc(),
        ONE_DONE,
        &Scene::RoomForOne,
        &WAITS_FOR_ROOM,
    )
}

/// The first cycle that the clock does not allow.
const SPENT: u64 = 1 << 62;

/// Makes the last cycle that the clock allows, and no other.
fn spend_clock(rt: &impl Abort, channel: &mut Channel) {
    check_eq(rt, "the last cycle", channel.cycle(), Ok(()));
    check_eq(rt, "the clock", channel.now(), SPENT);
    check_eq(
        rt,
        "one cycle more",
        channel.cycle(),
        Err(CycleError::ClockSpent),
    );
    check_eq(rt, "the clock", channel.now(), SPENT);
    check_eq(rt, "what is done", number_done(channel), None);
}

#[test]
fn the_clock_is_spent(rt: HostRuntime) -> Result<(), Fail> {
    let mut channel = open_at(rt.alloc(), &[], SPENT - 1)?;
    spend_clock(&rt, &mut channel);
    Ok(())
}
