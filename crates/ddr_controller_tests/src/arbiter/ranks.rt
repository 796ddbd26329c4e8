//! The choices of cycles on two ranks with the timing of profile S, worked out by hand: which rank is refreshed, who waits
//! for it, and when a column command closes its row.
use super::*;
use ddr_samples::sample::with_lines;
use ddr_samples::steps::Step as Issue;
use ddr_timing::profile::PROFILE_S2;

/// A request: its kind, and the rank, group, bank, row and line that it is of.
#[derive(Clone, Copy)]
struct Wanted(Kind, u32, u32, u32, u32, u32);

/// What stands before a choice, and the choice.
#[derive(Drop)]
struct Case {
    closed: bool,
    /// The requests that were admitted in cycle 0.
    pending: &'static [Wanted],
    /// The commands that were issued, each behind its rank.
    issued: &'static [(u32, Issue)],
    /// How many refreshes of each rank were issued.
    refreshed: (u32, u32),
    cap: u32,
    cycle: u32,
    choice: Choice,
}

/// Profile S2, with open or closed rows.
fn config_of(alloc: Global, closed: bool) -> Result<Config, Fail> {
    let line = if closed {
        "closed = true"
    } else {
        "closed = false"
    };
    let text = with_lines(alloc, PROFILE_S2, &[("closed", line)])?;
    Ok(Config::read(alloc, text.as_str())?)
}

/// Pays what is owed, so many times at most.
fn pay(debt: &mut Debt, times: u32) {
    for _nth in 0..times {
        if debt.debt() >= 1 {
            debt.issued();
        }
    }
}

/// The debt of a rank in a cycle, where so many refreshes were issued.
pub fn debt_in(config: &Config, cycle: u32, issued: u32) -> Debt {
    let mut debt = Debt::open(config);
    tick_times(&mut debt, u64::from(cycle) + 1);
    pay(&mut debt, issued);
    debt
}

fn admit_all(scene: &mut Scene, alloc: Global, requests: &[Wanted]) -> Result<(), Fail> {
    for request in requests {
        let Wanted(kind, rank, group, bank, row, line) = *request;
        scene.admit(alloc, kind, place_of(rank, group, bank, row, line))?;
    }
    Ok(())
}

fn issue_all(scene: &mut Scene, commands: &[(u32, Issue)]) -> Result<(), Fail> {
    for (rank, step) in commands {
        scene.issue(step.cycle(), step.command_of(*rank))?;
    }
    Ok(())
}

/// The choice of a cycle, where so many refreshes of each rank were issued.
fn choice_of_two(scene: &mut Scene, cycle: u32, refreshed: (u32, u32)) -> Result<Choice, Fail> {
    scene.wait_until(u64::from(cycle));
    let first = debt_in(&scene.config, cycle, refreshed.0);
    let second = debt_in(&scene.config, cycle, refreshed.1);
    if !are_admitted(&scene.pending, scene.legality.now()) {
        return Err("admitted in a later cycle".into());
    }
    Ok(choose(
        &scene.pending,
        &scene.legality,
        &[first, second],
        &scene.policy,
        scene.drain,
        scene.room,
    ))
}

fn check(rt: &impl Abort, alloc: Global, case: &Case) -> Result<(), Fail> {
    let mut scene = Scene::of(alloc, config_of(alloc, case.closed)?)?;
    scene.policy.closed = case.closed;
    scene.policy.cap = case.cap;
    admit_all(&mut scene, alloc, case.pending)?;
    issue_all(&mut scene, case.issued)?;
    let found = choice_of_two(&mut scene, case.cycle, case.refreshed)?;
    check_choice(rt, case.cycle, found, case.choice);
    Ok(())
}

fn check_all(rt: &impl Abort, alloc: Global, cases: &[Case]) -> Result<(), Fail> {
    for case in cases {
        check(rt, alloc, case)?;
    }
    Ok(())
}

/// Nothing is pending, and nothing was issued.
const IDLE: Case = Case {
    closed: false,
    pending: &[],
    issued: &[],
    refreshed: (0, 0),
    cap: 1000,
    cycle: 200,
    choice: Choice::Nothing,
};

const IDLE_RANKS: &[Case] = &[
    Case { cycle: 199, ..IDLE },
    Case {
        choice: Choice::Refresh { rank: 0 },
        ..IDLE
    },
    Case {
        issued: &[(0, Issue::Refresh(200))],
        refreshed: (1, 0),
        cycle: 201,
        choice: Choice::Refresh { rank: 1 },
        ..IDLE
    },
    Case {
        issued: &[(0, Issue::Refresh(200)), (1, Issue::Refresh(201))],
        refreshed: (1, 1),
        cycle: 202,
        ..IDLE
    },
    // RAS holds the PREA of rank 0 up to cycle 205
    Case {
        issued: &[(0, Issue::Act(195, 0, 0, 0))],
        choice: Choice::Refresh { rank: 1 },
        ..IDLE
    },
    Case {
        issued: &[(0, Issue::Act(195, 0, 0, 0))],
        cycle: 205,
        choice: Choice::PreAll { rank: 0 },
        ..IDLE
    },
];

#[test]
fn idle_ranks_are_refreshed_from_the_first_on(rt: HostRuntime) -> Result<(), Fail> {
    check_all(&rt, rt.alloc(), IDLE_RANKS)
}

/// Three fell due by cycle 600, and two may be put off.
const OVERDUE_RANKS: &[Case] = &[
    Case {
        refreshed: (2, 0),
        cycle: 600,
        choice: Choice::Refresh { rank: 1 },
        ..IDLE
    },
    Case {
        refreshed: (2, 1),
        cycle: 600,
        choice: Choice::Refresh { rank: 0 },
        ..IDLE
    },
    Case {
        refreshed: (0, 0),
        cycle: 600,
        choice: Choice::Refresh { rank: 0 },
        ..IDLE
    },
    Case {
        refreshed: (3, 2),
        cycle: 600,
        choice: Choice::Refresh { rank: 1 },
        ..IDLE
    },
];

#[test]
fn rank_that_owes_too_much_is_refreshed_first(rt: HostRuntime) -> Result<(), Fail> {
    check_all(&rt, rt.alloc(), OVERDUE_RANKS)
}

/// A read of an open row in rank 0, and a younger one in rank 1. Rank 0 owes three refreshes, and RAS holds its PREA up to
/// cycle 605.
const FORCED: Case = Case {
    pending: &[
        Wanted(Kind::Read, 0, 0, 0, 0, 0),
        Wanted(Kind::Read, 1, 0, 0, 0, 0),
    ],
    issued: &[(0, Issue::Act(595, 0, 0, 0))],
    refreshed: (0, 3),
    cycle: 600,
    choice: Choice::Act { place: 1 },
    ..IDLE
};

const FORCED_RANK: &[Case] = &[
    FORCED,
    // rank 0 owes no more than may be put off
    Case {
        refreshed: (1, 3),
        choice: Choice::Column { place: 0 },
        ..FORCED
    },
    Case {
        cycle: 605,
        choice: Choice::PreAll { rank: 0 },
        ..FORCED
    },
    // nothing is pending for rank 1, which owes one
    Case {
        pending: &[Wanted(Kind::Read, 0, 0, 0, 0, 0)],
        refreshed: (1, 2),
        choice: Choice::Refresh { rank: 1 },
        ..FORCED
    },
];

#[test]
fn request_of_a_forced_rank_waits(rt: HostRuntime) -> Result<(), Fail> {
    check_all(&rt, rt.alloc(), FORCED_RANK)
}

const CAPPED_OLDEST: &[Case] = &[
    Case {
        cap: 600,
        choice: Choice::Nothing,
        ..FORCED
    },
    Case { cap: 601, ..FORCED },
    Case {
        cap: 600,
        refreshed: (1, 3),
        choice: Choice::Column { place: 0 },
        ..FORCED
    },
    // the oldest is of the other rank
    Case {
        pending: &[
            Wanted(Kind::Read, 1, 0, 0, 0, 0),
            Wanted(Kind::Read, 0, 0, 0, 0, 0),
        ],
        cap: 600,
        choice: Choice::Act { place: 0 },
        ..FORCED
    },
];

#[test]
fn oldest_at_the_cap_waits_for_its_forced_rank(rt: HostRuntime) -> Result<(), Fail> {
    check_all(&rt, rt.alloc(), CAPPED_OLDEST)
}

/// A read of a row that was opened in cycle 0, where rows are closed.
const CLOSED: Case = Case {
    closed: true,
    pending: &[Wanted(Kind::Read, 0, 0, 0, 0, 0)],
    issued: &[(0, Issue::Act(0, 0, 0, 0))],
    cycle: 4,
    choice: Choice::ColumnAuto { place: 0 },
    ..IDLE
};

const CLOSED_ROWS: &[Case] = &[
    CLOSED,
    Case {
        closed: false,
        choice: Choice::Column { place: 0 },
        ..CLOSED
    },
    // a younger write, and an older one
    Case {
        pending: &[
            Wanted(Kind::Read, 0, 0, 0, 0, 0),
            Wanted(Kind::Write, 0, 0, 0, 0, 1),
        ],
        choice: Choice::Column { place: 0 },
        ..CLOSED
    },
    Case {
        pending: &[
            Wanted(Kind::Write, 0, 0, 0, 0, 1),
            Wanted(Kind::Read, 0, 0, 0, 0, 0),
        ],
        choice: Choice::Column { place: 1 },
        ..CLOSED
    },
    // a write of the line itself, which waits
    Case {
        pending: &[
            Wanted(Kind::Read, 0, 0, 0, 0, 0),
            Wanted(Kind::Write, 0, 0, 0, 0, 0),
        ],
        choice: Choice::Column { place: 0 },
        ..CLOSED
    },
    Case {
        pending: &[Wanted(Kind::Write, 0, 0, 0, 0, 0)],
        ..CLOSED
    },
];

#[test]
fn last_that_wants_a_row_closes_it(rt: HostRuntime) -> Result<(), Fail> {
    check_all(&rt, rt.alloc(), CLOSED_ROWS)
}

/// The other request is of another row, bank, group or rank.
const READ_OF_ANOTHER: &[Case] = &[
    Case {
        pending: &[
            Wanted(Kind::Read, 0, 0, 0, 0, 0),
            Wanted(Kind::Read, 0, 0, 0, 1, 0),
        ],
        ..CLOSED
    },
    Case {
        pending: &[
            Wanted(Kind::Read, 0, 0, 0, 0, 0),
            Wanted(Kind::Read, 0, 0, 1, 0, 0),
        ],
        ..CLOSED
    },
    Case {
        pending: &[
            Wanted(Kind::Read, 0, 0, 0, 0, 0),
            Wanted(Kind::Read, 0, 1, 0, 0, 0),
        ],
        ..CLOSED
    },
    Case {
        pending: &[
            Wanted(Kind::Read, 0, 0, 0, 0, 0),
            Wanted(Kind::Read, 1, 0, 0, 0, 0),
        ],
        ..CLOSED
    },
];

#[test]
fn row_of_the_same_number_elsewhere_does_not_count(rt: HostRuntime) -> Result<(), Fail> {
    check_all(&rt, rt.alloc(), READ_OF_ANOTHER)
}
