//! What each cycle tells: the command that it issues, and the request that it serves. A cycle of which nothing is
//! written here tells nothing.
use super::*;
use ddr_channel::issued::{Issued, Served};

/// A command of a rank, and of a column command the number of the request, what it asks for, and the cycles of its
/// admission and of its completion.
type Told = (u32, Step, Option<(u64, Access, u64, u64)>);

/// The request that is told of.
fn served_of(told: &Told) -> Option<Served> {
    let (number, access, admitted, due) = told.2?;
    Some(Served {
        port: 0,
        number,
        echo: access.echo(),
        admitted,
        due,
    })
}

/// What is told in a cycle.
fn told_in(told: &[Told], cycle: u64) -> Option<Issued> {
    for it in told {
        if it.1.cycle() == cycle {
            return Some(Issued {
                entry: Entry {
                    cycle,
                    command: it.1.command_of(it.0),
                },
                served: served_of(it),
            });
        }
    }
    None
}

/// The cycle of the column command that serves a request, and that of its completion.
fn times_of(told: &[Told], number: u64) -> Option<(u64, u64)> {
    for it in told {
        if let Some((served, _, _, due)) = it.2 {
            if served == number {
                return Some((it.1.cycle(), due));
            }
        }
    }
    None
}

/// Compares a completion that comes out behind the cycle in which it is due with what was told of its request.
fn check_done(rt: &impl Abort, told: &[Told], done: &Done, cycle: u64) {
    check_eq(rt, "the cycle of completion", done.due, cycle);
    check_eq(
        rt,
        "what was told of it",
        times_of(told, done.number),
        Some((done.issued, done.due)),
    );
}

/// Makes a cycle, and compares what it tells, and what is done then.
fn watch_cycle(rt: &impl Abort, channel: &mut Channel, told: &[Told]) -> Result<(), Fail> {
    let cycle = channel.now();
    let issued = channel.cycle_observed()?;
    check_eq(rt, "what the cycle tells", issued, told_in(told, cycle));
    if let Some(done) = channel.pop_done() {
        check_done(rt, told, &done, cycle);
    }
    Ok(())
}

/// Makes so many cycles.
fn watch_cycles(
    rt: &impl Abort,
    channel: &mut Channel,
    told: &[Told],
    count: u32,
) -> Result<(), Fail> {
    for _nth in 0..count {
        watch_cycle(rt, channel, told)?;
    }
    Ok(())
}

/// Requests in turns, and what the cycles tell.
#[derive(Drop)]
struct Watched {
    /// What is changed in profile S.
    lines: &'static [(&'static str, &'static str)],
    /// How many cycles are made, and which requests are admitted then. The requests are numbered from 0.
    turns: &'static [(u32, &'static [Access])],
    told: &'static [Told],
    /// How many cycles are made behind the last turn. Then nothing is left.
    rest: u32,
}

/// Takes turns, and compares what each cycle tells.
fn watch_turns(
    rt: &impl Abort,
    alloc: Global,
    channel: &mut Channel,
    case: &Watched,
) -> Result<(), Fail> {
    let mut first = 0u64;
    for (cycles, accesses) in case.turns {
        watch_cycles(rt, channel, case.told, *cycles)?;
        admit_all(alloc, channel, first, accesses)?;
        first = first.wrapping_add(accesses.len() as u64);
    }
    watch_cycles(rt, channel, case.told, case.rest)
}

/// Opens a channel, and compares what each of its cycles tells.
fn watch(rt: &impl Abort, alloc: Global, case: &Watched) -> Result<(), Fail> {
    let mut channel = open(alloc, case.lines)?;
    watch_turns(rt, alloc, &mut channel, case)?;
    check_eq(rt, "whether nothing is left", channel.is_empty(), true);
    check_eq(
        rt,
        "how many commands there are",
        channel.trace().len(),
        case.told.len(),
    );
    Ok(())
}

/// RAS, then RP and RC.
const TWO_ROWS: Watched = Watched {
    lines: &[],
    turns: &[(0, &[Access::Read(0), Access::Read(8192)])],
    told: &[
        (0, Step::Act(0, 0, 0, 0), None),
        (
            0,
            Step::Rd(4, 0, 0, 0, 0),
            Some((0, Access::Read(0), 0, 12)),
        ),
        (0, Step::Pre(10, 0, 0), None),
        (0, Step::Act(14, 0, 0, 1), None),
        (
            0,
            Step::Rd(18, 0, 0, 1, 0),
            Some((1, Access::Read(8192), 0, 26)),
        ),
    ],
    rest: 27,
};

#[test]
fn reads_of_two_rows(rt: HostRuntime) -> Result<(), Fail> {
    watch(&rt, rt.alloc(), &TWO_ROWS)
}

/// WL + 4 + WTR_L behind the write, which completes CWL + 4 behind its command.
const READ_BEHIND_A_WRITE: Watched = Watched {
    lines: &[],
    turns: &[(0, &[Access::Write(0, 0b1111, 0xab), Access::Read(0)])],
    told: &[
        (0, Step::Act(0, 0, 0, 0), None),
        (
            0,
            Step::Wr(4, 0, 0, 0, 0),
            Some((0, Access::Write(0, 0, 0), 0, 11)),
        ),
        (
            0,
            Step::Rd(15, 0, 0, 0, 0),
            Some((1, Access::Read(0), 0, 23)),
        ),
    ],
    rest: 24,
};

#[test]
fn a_write_and_a_read_of_its_line(rt: HostRuntime) -> Result<(), Fail> {
    watch(&rt, rt.alloc(), &READ_BEHIND_A_WRITE)
}

/// The younger read of the open row is served first: it is told of, and not the older one that waits.
const YOUNGER_FIRST: Watched = Watched {
    lines: &[],
    turns: &[
        (0, &[Access::Read(0), Access::Read(8192)]),
        (2, &[Access::Read(64)]),
    ],
    told: &[
        (0, Step::Act(0, 0, 0, 0), None),
        (
            0,
            Step::Rd(4, 0, 0, 0, 0),
            Some((0, Access::Read(0), 0, 12)),
        ),
        (
            0,
            Step::Rd(9, 0, 0, 0, 1),
            Some((2, Access::Read(64), 2, 17)),
        ),
        (0, Step::Pre(12, 0, 0), None),
        (0, Step::Act(16, 0, 0, 1), None),
        (
            0,
            Step::Rd(20, 0, 0, 1, 0),
            Some((1, Access::Read(8192), 0, 28)),
        ),
    ],
    rest: 27,
};

#[test]
fn a_younger_row_hit(rt: HostRuntime) -> Result<(), Fail> {
    watch(&rt, rt.alloc(), &YOUNGER_FIRST)
}

const IDLE: Watched = Watched {
    lines: &[],
    turns: &[],
    told: &[(0, Step::Refresh(200), None)],
    rest: 201,
};

#[test]
fn the_refresh_of_an_idle_channel(rt: HostRuntime) -> Result<(), Fail> {
    watch(&rt, rt.alloc(), &IDLE)
}

/// RP, RFC, RCD; then RAS, RP and RCD. The reads are admitted before cycle 205.
const ROW_CLOSED: Watched = Watched {
    lines: &[],
    turns: &[
        (0, &[Access::Write(0, u64::MAX, 0x55)]),
        (205, &[Access::Read(8192), Access::Read(0)]),
    ],
    told: &[
        (0, Step::Act(0, 0, 0, 0), None),
        (
            0,
            Step::Wr(4, 0, 0, 0, 0),
            Some((0, Access::Write(0, 0, 0), 0, 11)),
        ),
        (0, Step::PreAll(200), None),
        (0, Step::Refresh(204), None),
        (0, Step::Act(224, 0, 0, 1), None),
        (
            0,
            Step::Rd(228, 0, 0, 1, 0),
            Some((1, Access::Read(8192), 205, 236)),
        ),
        (0, Step::Pre(234, 0, 0), None),
        (0, Step::Act(238, 0, 0, 0), None),
        (
            0,
            Step::Rd(242, 0, 0, 0, 0),
            Some((2, Access::Read(0), 205, 250)),
        ),
    ],
    rest: 46,
};

#[test]
fn rows_closed_for_a_refresh(rt: HostRuntime) -> Result<(), Fail> {
    watch(&rt, rt.alloc(), &ROW_CLOSED)
}

/// The precharge starts at 10, RAS behind the ACT; then RP and RC.
const CLOSED_ROWS: Watched = Watched {
    lines: &[
        ("version", "version = 2\nranks = 1\nrtrs = 1\nclosed = true"),
        ("map", "map = \"column group bank row channel rank\""),
    ],
    turns: &[(0, &[Access::Read(0), Access::Read(8192)])],
    told: &[
        (0, Step::Act(0, 0, 0, 0), None),
        (
            0,
            Step::RdAuto(4, 0, 0, 0, 0),
            Some((0, Access::Read(0), 0, 12)),
        ),
        (0, Step::Act(14, 0, 0, 1), None),
        (
            0,
            Step::RdAuto(18, 0, 0, 1, 0),
            Some((1, Access::Read(8192), 0, 26)),
        ),
    ],
    rest: 27,
};

#[test]
fn reads_that_close_their_rows(rt: HostRuntime) -> Result<(), Fail> {
    watch(&rt, rt.alloc(), &CLOSED_ROWS)
}

/// Two ranks with an RTRS of 2. Address 262,144 is line 0 of row 0 in bank 0 of rank 1.
const TWO_RANKS: &[(&str, &str)] = &[
    (
        "version",
        "version = 2\nranks = 2\nrtrs = 2\nclosed = false",
    ),
    ("map", "map = \"column group bank row channel rank\""),
];

/// A burst of 4 and RTRS between the reads.
const TWO_READS: Watched = Watched {
    lines: TWO_RANKS,
    turns: &[(0, &[Access::Read(0), Access::Read(262144)])],
    told: &[
        (0, Step::Act(0, 0, 0, 0), None),
        (1, Step::Act(1, 0, 0, 0), None),
        (
            0,
            Step::Rd(4, 0, 0, 0, 0),
            Some((0, Access::Read(0), 0, 12)),
        ),
        (
            1,
            Step::Rd(10, 0, 0, 0, 0),
            Some((1, Access::Read(262144), 0, 18)),
        ),
    ],
    rest: 19,
};

#[test]
fn reads_of_two_ranks(rt: HostRuntime) -> Result<(), Fail> {
    watch(&rt, rt.alloc(), &TWO_READS)
}

/// RL + 4 + RTRS - WL behind the read.
const READ_FIRST: Watched = Watched {
    lines: TWO_RANKS,
    turns: &[(0, &[Access::Write(0, 1, 0xff), Access::Read(262144)])],
    told: &[
        (1, Step::Act(0, 0, 0, 0), None),
        (
            1,
            Step::Rd(4, 0, 0, 0, 0),
            Some((1, Access::Read(262144), 0, 12)),
        ),
        (0, Step::Act(5, 0, 0, 0), None),
        (
            0,
            Step::Wr(11, 0, 0, 0, 0),
            Some((0, Access::Write(0, 0, 0), 0, 18)),
        ),
    ],
    rest: 19,
};

#[test]
fn a_read_before_a_write_of_another_rank(rt: HostRuntime) -> Result<(), Fail> {
    watch(&rt, rt.alloc(), &READ_FIRST)
}

const IDLE_RANKS: Watched = Watched {
    lines: TWO_RANKS,
    turns: &[],
    told: &[(0, Step::Refresh(200), None), (1, Step::Refresh(201), None)],
    rest: 202,
};

#[test]
fn the_refreshes_of_two_idle_ranks(rt: HostRuntime) -> Result<(), Fail> {
    watch(&rt, rt.alloc(), &IDLE_RANKS)
}
