//! Until when nothing is chosen, in states by chance: `quiet_until`, `still_until` and `rest_of` tell the numbers of the scheduler's
//! first form, and up to the cycle that they tell `choose` chooses nothing.
//!
//! A question adds to a mood how long ago the last refresh fell due; and its cap lies about the age of the oldest request, so
//! that each of what ends a quiet time is met on both of its sides.
ghost use Rattle.std.specs.Prelude.{◌≤◌, length};
ghost use Rattle.ddr_timing.specs.declared.units.TheConstants.{MOST_RANKS};

use super::*;
use ddr_arbiter::quiet::{Rest, must_refresh, quiet_until, rest_of, still_until};
use ddr_old_sleep::scheduler as first_form;

/// Runs of each case, and how often each asks.
const SEEDS: u64 = 6;

const QUIET_TURNS: u32 = 250;

/// REFI in both profiles.
const REFI: u32 = 200;

/// What is asked, beside the bus and the requests.
#[derive(Clone, Copy, Debug)]
struct Question {
    mood: Mood,
    /// Of each rank, how many cycles its debt has counted.
    ticks: [u32; 2],
}

/// What is told.
#[derive(Clone, Copy, Debug, PartialEq, Eq)]
struct Told {
    quiet: u64,
    still: u64,
    must_refresh: bool,
    rest: Rest,
}

/// How often a time was met in which nothing is chosen, one of no cycle, and the wait of an idle rank for its REF.
#[derive(Clone, Copy, Debug)]
struct Seen {
    asleep: u32,
    awake: u32,
    waits: u32,
    refreshes: u32,
}

impl Seen {
    /// Notes what was told in a cycle.
    fn note(&mut self, told: &Told, now: u64) {
        if told.quiet > now {
            self.asleep = self.asleep.saturating_add(1);
        } else if told.still > now {
            self.waits = self.waits.saturating_add(1);
        } else {
            self.awake = self.awake.saturating_add(1);
        }
    }
}

/// A run that is asked until when nothing is chosen.
#[derive(Drop)]
struct Asking {
    run: Run,
    seen: Seen,
}

impl Run {
    /// So many refreshes are owed; the last one fell due just now, some cycles ago, or the next one falls due soon.
    fn ticks(&mut self, owed: u32) -> u32 {
        let since = match self.chance.below(3) {
            0 => 0,
            1 => self.chance.pick(REFI),
            _ => REFI - 1 - self.chance.pick(8),
        };
        owed.wrapping_mul(REFI).wrapping_add(1).wrapping_add(since)
    }

    fn question(&mut self, closed: bool) -> Question {
        let mut mood = self.mood(closed);
        if self.chance.below(3) == 0 {
            mood.policy.cap = self.age().wrapping_add(self.chance.pick(30));
        }
        let ticks = [self.ticks(mood.owed[0]), self.ticks(mood.owed[1])];
        Question { mood, ticks }
    }

    /// The debt of a rank that has counted so many cycles, without a REF.
    fn debt_behind(&self, ticks: u32) -> Debt {
        let mut debt = Debt::open(&self.config);
        debt.pass(u64::from(ticks));
        debt
    }

    /// The debts of both ranks so many cycles behind a question.
    fn debts_of(&self, question: &Question, cycles: u32) -> [Debt; 2] {
        [
            self.debt_behind(question.ticks[0].wrapping_add(cycles)),
            self.debt_behind(question.ticks[1].wrapping_add(cycles)),
        ]
    }

    /// What the scheduler tells.
    fn told_with(&self, mood: &Mood, debts: &[Debt]) -> Result<Told, Fail>
        requires { length debts.now ≤ MOST_RANKS }
    {
        let Mood {
            owed: _,
            policy,
            drain,
            room,
        } = *mood;
        let (pending, bus) = (&self.pending, &self.bus);
        if !are_admitted(pending, bus.now()) {
            return Err("admitted in a later cycle".into());
        }
        Ok(Told {
            quiet: quiet_until(pending, bus, debts, &policy, drain, room),
            still: still_until(pending, bus, debts, &policy, drain, room),
            must_refresh: must_refresh(pending, debts),
            rest: rest_of(pending, bus, debts, &policy, drain, room),
        })
    }

    /// What its first form tells.
    fn first_told_with(&self, mood: &Mood, debts: &[Debt]) -> Told {
        let Mood {
            owed: _,
            policy,
            drain,
            room,
        } = *mood;
        let (pending, bus) = (&self.pending, &self.bus);
        let until = first_form::still_until(pending, bus, debts, &policy, drain, room);
        let must_refresh = first_form::must_refresh(pending, debts);
        Told {
            quiet: first_form::quiet_until(pending, bus, debts, &policy, drain, room),
            still: until,
            must_refresh,
            rest: Rest {
                until,
                must_refresh,
            },
        }
    }

    /// What both tell.
    fn both_told(&self, question: &Question) -> Result<(Told, Told), Fail> {
        let [first, second] = self.debts_of(question, 0);
        let mood = &question.mood;
        if self.config.geometry.ranks == 2 {
            let debts = [first, second];
            let found = self.told_with(mood, &debts)?;
            Ok((found, self.first_told_with(mood, &debts)))
        } else {
            let found = self.told_with(mood, &[first])?;
            Ok((found, self.first_told_with(mood, &[first])))
        }
    }

    /// What is chosen so many cycles behind a question, where the bus has gone on so far.
    fn chosen_behind(&self, question: &Question, cycles: u32) -> Result<Choice, Fail> {
        let [first, second] = self.debts_of(question, cycles);
        if self.config.geometry.ranks == 2 {
            self.chosen_with(&question.mood, &[first, second])
        } else {
            self.chosen_with(&question.mood, &[first])
        }
    }

    /// Whether the cycle is the first of a REF of this rank, which waits for it with all its banks idle. A PREA may come
    /// already, and needs not.
    fn is_refresh_of(&self, rank: u32, cycle: u64) -> bool {
        let now = self.bus.now();
        !first_form::is_rank_active(&self.bus, rank)
            && self.bus.allowed_at(Command::PreAll { rank }) == now
            && self.bus.allowed_at(Command::Refresh { rank }) == cycle
    }

    /// Whether the cycle is the first of a REF for which a rank that has to be refreshed waits.
    fn waits_for_refresh(&self, question: &Question, cycle: u64) -> bool {
        let debts = self.debts_of(question, 0);
        let ranks = self.config.geometry.ranks;
        for rank in 0..ranks {
            let forced = first_form::is_rank_forced(&self.pending, &debts, rank);
            if forced && self.is_refresh_of(rank, cycle) {
                return true;
            }
        }
        false
    }
}

impl Asking {
    /// Compares what is told.
    fn compare(&mut self, rt: &impl Abort, question: &Question) -> Result<Told, Fail> {
        let (found, expected) = self.run.both_told(question)?;
        let now = self.run.bus.now();
        assert_eq!(rt; found, expected, "at {now}: {question:?}");
        assert!(rt; found.still >= found.quiet);
        assert!(rt; found.must_refresh || found.still == found.quiet);
        self.seen.note(&found, now);
        Ok(found)
    }

    /// Goes on to the cycle that is told, in which nothing is chosen before. What is chosen in it.
    fn wait_out(
        &mut self,
        rt: &impl Abort,
        question: &Question,
        cycle: u64,
    ) -> Result<Choice, Fail> {
        let mut behind = 0u32;
        for _ in self.run.bus.now()..cycle.min(CLOCK_STOP) {
            let choice = self.run.chosen_behind(question, behind)?;
            assert_eq!(rt; choice, Choice::Nothing, "{behind}: {question:?}");
            self.run.tick();
            behind = behind.wrapping_add(1);
        }
        self.run.chosen_behind(question, behind)
    }

    /// Waits as long as was told. A REF that a rank waits for is chosen in the very cycle that was told.
    fn wait(&mut self, rt: &impl Abort, question: &Question, told: &Told) -> Result<Choice, Fail> {
        let is_wait = self.run.bus.now() < told.still;
        let is_refresh = self.run.waits_for_refresh(question, told.still);
        let choice = self.wait_out(rt, question, told.still)?;
        if is_wait && is_refresh {
            assert!(rt; choice != Choice::Nothing, "{question:?}");
            self.seen.refreshes = self.seen.refreshes.saturating_add(1);
        }
        Ok(choice)
    }

    /// Waits, and issues what is chosen then. Behind a PREA its rank waits for a REF.
    fn refresh(&mut self, rt: &impl Abort, question: &Question, told: &Told) -> Result<(), Fail> {
        let choice = self.wait(rt, question, told)?;
        self.run.follow(choice)?;
        if let Choice::PreAll { .. } = choice {
            self.run.tick();
            let told = self.compare(rt, question)?;
            let choice = self.wait(rt, question, &told)?;
            self.run.follow(choice)?;
        }
        Ok(())
    }

    /// Asks some questions, and issues what is chosen, or a command by chance. Each wait of a rank for its REF is waited out.
    fn turn(&mut self, rt: &impl Abort, closed: bool, admissions: u64) -> Result<(), Fail> {
        self.run.admit_some(admissions)?;
        for _ in 0..CHOICES {
            let question = self.run.question(closed);
            self.compare(rt, &question)?;
        }
        let question = self.run.question(closed);
        let told = self.compare(rt, &question)?;
        if told.must_refresh || self.run.chance.below(4) == 0 {
            return self.refresh(rt, &question, &told);
        }
        if self.run.chance.coin() {
            self.run.stray()?;
        } else {
            let choice = self.run.chosen_behind(&question, 0)?;
            self.run.follow(choice)?;
        }
        self.run.wait();
        Ok(())
    }

    /// Turns with many requests, with few and with none.
    fn turns(&mut self, rt: &impl Abort, closed: bool) -> Result<(), Fail> {
        let mut admissions = 2;
        for nth in 0..QUIET_TURNS {
            if nth % 20 == 19 {
                admissions = self.run.chance.below(4);
            }
            self.turn(rt, closed, admissions)?;
        }
        Ok(())
    }
}

/// A run of a case.
fn check_seed(
    rt: &impl Abort,
    alloc: Global,
    case: &Case,
    seed: u64,
    seen: &mut Seen,
) -> Result<(), Fail> {
    let mut run = Run::open(alloc, case)?;
    run.chance = Chance::new(seed);
    let mut asking = Asking { run, seen: *seen };
    asking.turns(rt, seed % 2 == 0)?;
    *seen = asking.seen;
    Ok(())
}

/// Runs of a case, in which each kind of time has to be met.
fn check_quiet(rt: &impl Abort, alloc: Global, case: &Case) -> Result<(), Fail> {
    let mut seen = Seen {
        asleep: 0,
        awake: 0,
        waits: 0,
        refreshes: 0,
    };
    for seed in 0..SEEDS {
        check_seed(rt, alloc, case, seed, &mut seen)?;
    }
    assert!(rt; seen.asleep >= 500 && seen.awake >= 500, "{seen:?}");
    assert!(rt; seen.waits >= 100 && seen.refreshes >= 5, "{seen:?}");
    Ok(())
}

#[test]
fn quiet_of_one_rank(rt: HostRuntime) -> Result<(), Fail> {
    check_quiet(&rt, rt.alloc(), &ONE_RANK)
}

#[test]
fn quiet_of_two_ranks(rt: HostRuntime) -> Result<(), Fail> {
    check_quiet(&rt, rt.alloc(), &TWO_RANKS)
}

#[test]
fn quiet_of_the_smallest_queues(rt: HostRuntime) -> Result<(), Fail> {
    let case = Case {
        reads: 1,
        writes: 1,
        ..TWO_RANKS
    };
    check_quiet(&rt, rt.alloc(), &case)
}

#[test]
fn quiet_of_the_largest_queues(rt: HostRuntime) -> Result<(), Fail> {
    let case = Case {
        reads: 32,
        writes: 32,
        ..TWO_RANKS
    };
    check_quiet(&rt, rt.alloc(), &case)
}

#[test]
fn quiet_of_two_groups(rt: HostRuntime) -> Result<(), Fail> {
    let case = Case {
        lines: &[("groups", "groups = 2")],
        ..ONE_RANK
    };
    check_quiet(&rt, rt.alloc(), &case)
}
