//! Refreshes among requests and without any. In profile S one falls due in each 200th cycle, and two of them wait
//! while requests are pending.
use super::*;

/// Makes cycles that issue no command, up to the one in which a refresh falls due, and that one.
pub fn make_first_refresh(rt: &impl Abort, channel: &mut Channel) -> Result<(), Fail> {
    for _nth in 0..200 {
        channel.cycle()?;
        check_eq(rt, "the commands before it", channel.trace().len(), 0);
    }
    channel.cycle()?;
    check_eq(rt, "whether it is empty", channel.is_empty(), true);
    Ok(())
}

const ONE_REFRESH: Outcome = Outcome {
    commands: &[Step::Refresh(200)],
    end: 201,
    times: &[],
    lines: &[],
};

#[test]
fn an_idle_channel_refreshes(rt: HostRuntime) -> Result<(), Fail> {
    play(&rt, rt.alloc(), &[], &Scene::FirstRefresh, &ONE_REFRESH)
}

/// RP, RFC, RCD; then RAS, RP and RCD.
const ROW_CLOSED: Case = Case {
    lines: &[],
    turns: &[
        (0, &[Access::Write(0, u64::MAX, 0x55)]),
        (205, &[Access::Read(8192), Access::Read(0)]),
    ],
    outcome: Outcome {
        commands: &[
            Step::Act(0, 0, 0, 0),
            Step::Wr(4, 0, 0, 0, 0),
            Step::PreAll(200),
            Step::Refresh(204),
            Step::Act(224, 0, 0, 1),
            Step::Rd(228, 0, 0, 1, 0),
            Step::Pre(234, 0, 0),
            Step::Act(238, 0, 0, 0),
            Step::Rd(242, 0, 0, 0, 0),
        ],
        end: 251,
        times: &[(0, 4, 11), (1, 228, 236), (2, 242, 250)],
        lines: &[(1, &[]), (2, &[0x55; 64])],
    },
};

/// The idle channel closes its row first, and what was written there is read again later.
#[test]
fn a_refresh_closes_the_rows(rt: HostRuntime) -> Result<(), Fail> {
    check(&rt, rt.alloc(), &ROW_CLOSED)
}

/// Compares what is done with a read of zeros that is due in this cycle.
fn check_read(rt: &impl Abort, done: &Done, cycle: u64) {
    check_eq(rt, "when it is due", done.due, cycle);
    check_eq(
        rt,
        "CL + 4 behind its command",
        done.issued.wrapping_add(8),
        cycle,
    );
    check_eq(rt, "the line", *done.line, ZEROS);
}

/// Takes what is done, which is due in the cycle that was just made.
fn take_read(rt: &impl Abort, channel: &mut Channel, cycle: u64) {
    if let Some(done) = channel.pop_done() {
        check_read(rt, &done, cycle);
    }
}

/// Makes so many cycles, and has a read pending before each.
fn make_cycles_with_reads(
    rt: &impl Abort,
    alloc: Global,
    channel: &mut Channel,
    count: u32,
) -> Result<(), Fail> {
    let mut pending = false;
    for _nth in 0..count {
        if !pending {
            admit_all(alloc, channel, 0, &[Access::Read(0)])?;
        }
        let cycle = channel.now();
        channel.cycle()?;
        take_read(rt, channel, cycle);
        let read = Step::Rd(cycle, 0, 0, 0, 0).entry();
        pending = channel.trace().last() != Some(&read);
    }
    Ok(())
}

/// Commands, and behind them reads CCD_L apart: the cycle of the first one, and how many there are. The third refresh
/// that falls due forces one: at 600 behind the read of 599, RTP before the PREA, and at 800 behind that of 795.
const POSTPONED: &[(&[Step], u64, u64)] = &[
    (&[Step::Act(0, 0, 0, 0)], 4, 120),
    (
        &[
            Step::PreAll(602),
            Step::Refresh(606),
            Step::Act(626, 0, 0, 0),
        ],
        630,
        34,
    ),
    (
        &[
            Step::PreAll(800),
            Step::Refresh(804),
            Step::Act(824, 0, 0, 0),
        ],
        828,
        1,
    ),
];

/// Appends reads CCD_L apart.
fn push_reads(entries: &mut Vec<Entry>, first: u64, count: u64) -> Result<(), AllocError> {
    for nth in 0..count {
        let cycle = first.wrapping_add(nth.wrapping_mul(5));
        push_step(entries, &Step::Rd(cycle, 0, 0, 0, 0))?;
    }
    Ok(())
}

/// Compares the commands with those of the table.
fn check_postponed(rt: &impl Abort, alloc: Global, channel: &Channel) -> Result<(), Fail> {
    let mut commands = Vec::new(alloc);
    for (steps, first, count) in POSTPONED {
        push_steps(&mut commands, steps)?;
        push_reads(&mut commands, *first, *count)?;
    }
    check_entries(rt, channel, &commands, 830);
    check_faultless(rt, channel);
    Ok(())
}

/// Two refreshes wait while reads come, and no more.
#[test]
fn reads_postpone_refreshes(rt: HostRuntime) -> Result<(), Fail> {
    let mut channel = open(rt.alloc(), &[])?;
    make_cycles_with_reads(&rt, rt.alloc(), &mut channel, 830)?;
    check_postponed(&rt, rt.alloc(), &channel)
}
