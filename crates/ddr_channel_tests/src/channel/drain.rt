//! When writes go before reads.
use super::*;

const OLDER_READ: Case = Case {
    lines: &[("low", "low = 0"), ("high", "high = 1")],
    turns: &[(0, &[Access::Read(0), Access::Write(0, 1, 0xff)])],
    outcome: Outcome {
        commands: &[
            Step::Act(0, 0, 0, 0),
            Step::Rd(4, 0, 0, 0, 0),
            Step::Wr(11, 0, 0, 0, 0),
        ],
        end: 19,
        times: &[(0, 4, 12), (1, 11, 18)],
        lines: &[(0, &[])],
    },
};

/// Drain mode is on, but the write waits for the older read of its line.
#[test]
fn drained_write_waits_for_an_older_read(rt: HostRuntime) -> Result<(), Fail> {
    check(&rt, rt.alloc(), &OLDER_READ)
}

/// Drains begin at three pending writes and end at one.
const MARKS: &[(&str, &str)] = &[("low", "low = 1"), ("high", "high = 3")];

/// CCD_L between the writes, WL + 4 + WTR_L up to the read, and RTW.
const DRAIN_ON: Case = Case {
    lines: MARKS,
    turns: &[(
        0,
        &[
            Access::Read(192),
            Access::Write(0, 1, 1),
            Access::Write(64, 1, 2),
            Access::Write(128, 1, 3),
        ],
    )],
    outcome: Outcome {
        commands: &[
            Step::Act(0, 0, 0, 0),
            Step::Wr(4, 0, 0, 0, 0),
            Step::Wr(9, 0, 0, 0, 1),
            Step::Rd(20, 0, 0, 0, 3),
            Step::Wr(27, 0, 0, 0, 2),
        ],
        end: 35,
        times: &[(1, 4, 11), (2, 9, 16), (0, 20, 28), (3, 27, 34)],
        lines: &[(0, &[])],
    },
};

/// Three pending writes turn the drain on. With two it stays on, though two would not turn it on, and with one it
/// is off: the read goes before the third write.
#[test]
fn drain_stays_on_above_the_low_mark(rt: HostRuntime) -> Result<(), Fail> {
    check(&rt, rt.alloc(), &DRAIN_ON)
}

/// So many reads and writes are pending.
fn check_pending(rt: &impl Abort, channel: &Channel, reads: u32, writes: u32) {
    check_eq(rt, "reads", channel.pending(Kind::Read), reads);
    check_eq(rt, "writes", channel.pending(Kind::Write), writes);
}

/// The requests of `DRAIN_ON` are pending up to the cycles of their reads and writes: 4, 9, 20 and 27.
#[test]
fn requests_are_pending_until_they_are_issued(rt: HostRuntime) -> Result<(), Fail> {
    let mut channel = open(rt.alloc(), MARKS)?;
    check_pending(&rt, &channel, 0, 0);
    let accesses = [
        Access::Read(192),
        Access::Write(0, 1, 1),
        Access::Write(64, 1, 2),
        Access::Write(128, 1, 3),
    ];
    admit_all(rt.alloc(), &mut channel, 0, &accesses)?;
    check_pending(&rt, &channel, 1, 3);
    make_cycles(&mut channel, 4)?;
    check_pending(&rt, &channel, 1, 3);
    make_cycles(&mut channel, 1)?;
    check_pending(&rt, &channel, 1, 2);
    make_cycles(&mut channel, 5)?;
    check_pending(&rt, &channel, 1, 1);
    make_cycles(&mut channel, 11)?;
    check_pending(&rt, &channel, 0, 1);
    make_cycles(&mut channel, 7)?;
    check_pending(&rt, &channel, 0, 0);
    Ok(())
}

const DRAIN_OFF: Case = Case {
    lines: MARKS,
    turns: &[(
        0,
        &[
            Access::Write(0, 1, 1),
            Access::Write(64, 1, 2),
            Access::Read(192),
        ],
    )],
    outcome: Outcome {
        commands: &[
            Step::Act(0, 0, 0, 0),
            Step::Rd(4, 0, 0, 0, 3),
            Step::Wr(11, 0, 0, 0, 0),
            Step::Wr(16, 0, 0, 0, 1),
        ],
        end: 24,
        times: &[(2, 4, 12), (0, 11, 18), (1, 16, 23)],
        lines: &[],
    },
};

/// Two pending writes lie between the marks, so reads go first.
#[test]
fn drain_stays_off_below_the_high_mark(rt: HostRuntime) -> Result<(), Fail> {
    check(&rt, rt.alloc(), &DRAIN_OFF)
}

const DRAIN_GOES_ON: Case = Case {
    lines: MARKS,
    turns: &[
        (
            0,
            &[
                Access::Read(256),
                Access::Write(0, 1, 1),
                Access::Write(64, 1, 2),
                Access::Write(128, 1, 3),
            ],
        ),
        // up to the first write, which leaves two; the next one to come makes three of them, and two after its turn
        (5, &[Access::Write(192, 1, 4)]),
    ],
    outcome: Outcome {
        commands: &[
            Step::Act(0, 0, 0, 0),
            Step::Wr(4, 0, 0, 0, 0),
            Step::Wr(9, 0, 0, 0, 1),
            Step::Wr(14, 0, 0, 0, 2),
            Step::Rd(25, 0, 0, 0, 4),
            Step::Wr(32, 0, 0, 0, 3),
        ],
        end: 40,
        times: &[
            (1, 4, 11),
            (2, 9, 16),
            (3, 14, 21),
            (0, 25, 33),
            (4, 32, 39),
        ],
        lines: &[],
    },
};

/// A drain that is on goes on between the marks while writes come, and ends only at the low mark.
#[test]
fn drain_takes_writes_that_come_later(rt: HostRuntime) -> Result<(), Fail> {
    check(&rt, rt.alloc(), &DRAIN_GOES_ON)
}
