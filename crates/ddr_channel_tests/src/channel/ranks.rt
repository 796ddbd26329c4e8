//! Two ranks with the timing of profile S, and an RTRS of 2. Address 262,144 is line 0 of row 0 in bank 0 of rank 1.
use super::*;

const TWO_RANKS: &[(&str, &str)] = &[
    (
        "version",
        "version = 2\nranks = 2\nrtrs = 2\nclosed = false",
    ),
    ("map", "map = \"column group bank row channel rank\""),
];

/// Requests in turns, and what comes of them on two ranks.
#[derive(Drop)]
struct RankCase {
    turns: &'static [(u32, &'static [Access])],
    /// The commands of the trace, each behind its rank.
    commands: &'static [(u32, Step)],
    end: u64,
    times: &'static [(u64, u64, u64)],
    lines: &'static [(u64, &'static [u8])],
}

fn push_of_rank(entries: &mut Vec<Entry>, rank: u32, step: Step) -> Result<(), AllocError> {
    entries.push(Entry {
        cycle: step.cycle(),
        command: step.command_of(rank),
    })?;
    Ok(())
}

fn push_of_ranks(entries: &mut Vec<Entry>, steps: &[(u32, Step)]) -> Result<(), AllocError> {
    for (rank, step) in steps {
        push_of_rank(entries, *rank, *step)?;
    }
    Ok(())
}

/// Opens a channel of two ranks, admits the requests in their turns, and compares all that comes of them.
fn check_ranks(rt: &impl Abort, alloc: Global, case: &RankCase) -> Result<(), Fail> {
    let mut commands = Vec::new(alloc);
    push_of_ranks(&mut commands, case.commands)?;
    let scene = Scene::Turns(case.turns);
    let outcome = Outcome {
        commands: &[],
        end: case.end,
        times: case.times,
        lines: case.lines,
    };
    play_for(rt, alloc, TWO_RANKS, &scene, &outcome, &commands)
}

/// No distance between the rows of two ranks; a burst of 4 and RTRS between the reads.
const TWO_READS: RankCase = RankCase {
    turns: &[(0, &[Access::Read(0), Access::Read(262144)])],
    commands: &[
        (0, Step::Act(0, 0, 0, 0)),
        (1, Step::Act(1, 0, 0, 0)),
        (0, Step::Rd(4, 0, 0, 0, 0)),
        (1, Step::Rd(10, 0, 0, 0, 0)),
    ],
    end: 19,
    times: &[(0, 4, 12), (1, 10, 18)],
    lines: &[(0, &[]), (1, &[])],
};

#[test]
fn reads_of_two_ranks(rt: HostRuntime) -> Result<(), Fail> {
    check_ranks(&rt, rt.alloc(), &TWO_READS)
}

/// RL + 4 + RTRS - WL behind the read.
const READ_FIRST: RankCase = RankCase {
    turns: &[(0, &[Access::Write(0, 1, 0xff), Access::Read(262144)])],
    commands: &[
        (1, Step::Act(0, 0, 0, 0)),
        (1, Step::Rd(4, 0, 0, 0, 0)),
        (0, Step::Act(5, 0, 0, 0)),
        (0, Step::Wr(11, 0, 0, 0, 0)),
    ],
    end: 19,
    times: &[(1, 4, 12), (0, 11, 18)],
    lines: &[(1, &[])],
};

#[test]
fn read_passes_an_older_write_of_another_rank(rt: HostRuntime) -> Result<(), Fail> {
    check_ranks(&rt, rt.alloc(), &READ_FIRST)
}

const IDLE: RankCase = RankCase {
    turns: &[(202, &[])],
    commands: &[(0, Step::Refresh(200)), (1, Step::Refresh(201))],
    end: 202,
    times: &[],
    lines: &[],
};

#[test]
fn idle_ranks_are_refreshed_in_turn(rt: HostRuntime) -> Result<(), Fail> {
    check_ranks(&rt, rt.alloc(), &IDLE)
}

/// Each read waits for the write of its line, WL + 4 + WTR_L, and goes before the other write, which then waits
/// RL + 4 + RTRS - WL behind it.
const ONE_LINE_OF_EACH: RankCase = RankCase {
    turns: &[(
        0,
        &[
            Access::Write(0, u64::MAX, 0x11),
            Access::Write(262144, u64::MAX, 0x22),
            Access::Read(0),
            Access::Read(262144),
        ],
    )],
    commands: &[
        (0, Step::Act(0, 0, 0, 0)),
        (1, Step::Act(1, 0, 0, 0)),
        (0, Step::Wr(4, 0, 0, 0, 0)),
        (0, Step::Rd(15, 0, 0, 0, 0)),
        (1, Step::Wr(22, 0, 0, 0, 0)),
        (1, Step::Rd(33, 0, 0, 0, 0)),
    ],
    end: 42,
    times: &[(0, 4, 11), (2, 15, 23), (1, 22, 29), (3, 33, 41)],
    lines: &[(2, &[0x11; 64]), (3, &[0x22; 64])],
};

#[test]
fn each_rank_has_its_own_bytes(rt: HostRuntime) -> Result<(), Fail> {
    check_ranks(&rt, rt.alloc(), &ONE_LINE_OF_EACH)
}
