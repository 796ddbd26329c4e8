//! The choices of states by chance: in each, `choose` answers as a plain program of its definition does, which goes
//! through a list of its own.
//!
//! A state is what legal commands by chance and admissions leave of a bus and of the pending requests; the refreshes that
//! ranks owe, the marks of the age cap, the drain of writes and the room are by chance too. `quiet` asks in such states until
//! when nothing is chosen.
ghost use Rattle.std.specs.Prelude.{◌≤◌, length};
ghost use Rattle.ddr_timing.specs.declared.units.TheConstants.{MOST_RANKS};

use super::ranks::debt_in;
use super::reference::{Situation, Waiting, choice_of, column_of};
use super::*;
use ddr_samples::chance::Chance;
use ddr_samples::sample::with_lines;
use ddr_timing::profile::PROFILE_S2;

mod quiet;

/// How often a run admits requests, chooses and issues a command.
const TURNS: u32 = 300;

/// How many choices are compared in each turn.
const CHOICES: u32 = 4;

/// REFs that may be put off in both profiles.
const POSTPONE: u32 = 2;

/// A configuration and its queues.
#[derive(Drop)]
struct Case {
    profile: &'static str,
    lines: &'static [(&'static str, &'static str)],
    reads: u32,
    writes: u32,
}

const ONE_RANK: Case = Case {
    profile: PROFILE_S,
    lines: &[],
    reads: 8,
    writes: 8,
};

const TWO_RANKS: Case = Case {
    profile: PROFILE_S2,
    lines: &[],
    reads: 8,
    writes: 8,
};

/// How often each choice was met.
#[derive(Clone, Copy, Debug, PartialEq, Eq)]
struct Met {
    nothing: u32,
    refreshes: u32,
    precharges_of_all: u32,
    activations: u32,
    precharges: u32,
    columns: u32,
    columns_auto: u32,
}

impl Met {
    fn new() -> Met {
        Met {
            nothing: 0,
            refreshes: 0,
            precharges_of_all: 0,
            activations: 0,
            precharges: 0,
            columns: 0,
            columns_auto: 0,
        }
    }

    fn note(&mut self, choice: Choice) {
        let count = match choice {
            Choice::Nothing => &mut self.nothing,
            Choice::Refresh { .. } => &mut self.refreshes,
            Choice::PreAll { .. } => &mut self.precharges_of_all,
            Choice::Act { .. } => &mut self.activations,
            Choice::Pre { .. } => &mut self.precharges,
            Choice::Column { .. } => &mut self.columns,
            Choice::ColumnAuto { .. } => &mut self.columns_auto,
        };
        *count = count.saturating_add(1);
    }

    /// The least of the counts, but for that of auto-precharges, which open rows never have.
    fn least(&self) -> u32 {
        let mut least = self.nothing;
        for count in [
            self.refreshes,
            self.precharges_of_all,
            self.activations,
            self.precharges,
            self.columns,
        ] {
            if count < least {
                least = count;
            }
        }
        least
    }
}

/// The requests and the bus of a channel, and beside them the requests in a plain list.
#[derive(Drop)]
struct Run {
    alloc: Global,
    config: Config,
    chance: Chance,
    pending: Pending,
    waiting: Vec<Waiting>,
    bus: Legality,
    /// Of each rank, how many REFs it owes in most choices.
    owed: [u32; 2],
    met: Met,
}

/// A line of a few rows, for the channel's ranks and its groups.
fn place_by_chance(chance: &mut Chance, config: &Config) -> Place {
    let rank = if config.geometry.ranks == 2 {
        chance.pick(2)
    } else {
        0
    };
    let group = if config.geometry.groups == 4 {
        chance.pick(4)
    } else {
        chance.pick(2)
    };
    let bank = chance.pick(2);
    let row = chance.pick(3);
    let line = chance.pick(2);
    place_of(rank, group, bank, row, line)
}

fn kind_by_chance(chance: &mut Chance) -> Kind {
    if chance.coin() {
        Kind::Read
    } else {
        Kind::Write
    }
}

/// A command on one of the banks, or of a rank.
fn command_by_chance(chance: &mut Chance, config: &Config) -> Command {
    let place = place_by_chance(chance, config);
    let kind = kind_by_chance(chance);
    let admitted = 0;
    match chance.below(10) {
        0..=3 => Command::Act {
            rank: place.rank,
            group: place.group,
            bank: place.bank,
            row: place.row,
        },
        4 | 5 => column_of(Waiting {
            kind,
            place,
            admitted,
        }),
        6 => Command::RdAuto {
            rank: place.rank,
            group: place.group,
            bank: place.bank,
            row: place.row,
            line: place.line,
        },
        7 => Command::Pre {
            rank: place.rank,
            group: place.group,
            bank: place.bank,
        },
        8 => Command::PreAll { rank: place.rank },
        _ => Command::Refresh { rank: place.rank },
    }
}

/// What a choice looks at beside the bus and the requests.
#[derive(Clone, Copy, Debug)]
struct Mood {
    /// Of each rank, how many REFs it owes.
    owed: [u32; 2],
    policy: Policy,
    drain: bool,
    room: bool,
}

impl Run {
    fn open(alloc: Global, case: &Case) -> Result<Run, Fail> {
        let text = with_lines(alloc, case.profile, case.lines)?;
        let config = Config::read(alloc, text.as_str())?;
        let bus = Legality::open(alloc, &config, 0)?;
        if case.reads < 1 || case.reads > 32 || case.writes < 1 || case.writes > 32 {
            return Err("no such queue".into());
        }
        Ok(Run {
            alloc,
            config,
            chance: Chance::new(1),
            pending: Pending::open(case.reads, case.writes),
            waiting: Vec::new(alloc),
            bus,
            owed: [0, 0],
            met: Met::new(),
        })
    }

    /// Offers a request by chance, which is admitted where its queue isn't full.
    fn admit(&mut self) -> Result<(), Fail> {
        let place = place_by_chance(&mut self.chance, &self.config);
        let kind = kind_by_chance(&mut self.chance);
        let admitted = self.bus.now();
        let request = request_to(self.alloc, kind, place)?;
        if self.pending.admit(request, admitted).is_ok() {
            self.waiting.push(Waiting {
                kind,
                place,
                admitted,
            })?;
        }
        Ok(())
    }

    /// How old the oldest request is, up to 1000 clocks.
    fn age(&self) -> u32 {
        let age = match self.waiting.first() {
            Some(oldest) => self.bus.now().saturating_sub(oldest.admitted),
            None => 0,
        };
        if age < 1000 { age as u32 } else { 1000 }
    }

    /// The cap that the oldest request has just reached, the next one, or one far off.
    fn cap(&mut self) -> u32 {
        let age = self.age();
        match self.chance.below(6) {
            0 => age,
            1 => age.wrapping_add(1),
            _ => 100_000,
        }
    }

    fn mood(&mut self, closed: bool) -> Mood {
        let policy = Policy {
            cap: self.cap(),
            low: 2,
            high: 6,
            closed,
        };
        Mood {
            owed: self.owed(),
            policy,
            drain: self.chance.coin(),
            room: self.chance.below(8) != 0,
        }
    }

    /// Up to one more than may be put off, and none as often.
    fn owed_by_one(&mut self) -> u32 {
        if self.chance.coin() {
            self.chance.pick(POSTPONE + 2)
        } else {
            0
        }
    }

    /// Of each rank, how many REFs it owes: mostly as many as in the choice before.
    fn owed(&mut self) -> [u32; 2] {
        let other = [self.owed_by_one(), self.owed_by_one()];
        match self.chance.below(32) {
            0 => {
                self.owed = other;
                other
            }
            1..=8 => other,
            _ => self.owed,
        }
    }

    /// The debt of a rank that owes so many REFs.
    fn debt_of(&self, owed: u32) -> Debt {
        debt_in(&self.config, owed.wrapping_mul(self.config.timing.refi), 0)
    }

    /// What the scheduler chooses with these debts of the ranks.
    fn chosen_with(&self, mood: &Mood, debts: &[Debt]) -> Result<Choice, Fail>
        requires { length debts.now ≤ MOST_RANKS }
    {
        if !are_admitted(&self.pending, self.bus.now()) {
            return Err("admitted in a later cycle".into());
        }
        Ok(choose(
            &self.pending,
            &self.bus,
            debts,
            &mood.policy,
            mood.drain,
            mood.room,
        ))
    }

    /// What the scheduler chooses.
    fn chosen(&self, mood: &Mood) -> Result<Choice, Fail> {
        let first = self.debt_of(mood.owed[0]);
        let second = self.debt_of(mood.owed[1]);
        if self.config.geometry.ranks == 2 {
            self.chosen_with(mood, &[first, second])
        } else {
            self.chosen_with(mood, &[first])
        }
    }

    /// What the plain program chooses where the ranks owe so many REFs.
    fn expected_with(&self, mood: &Mood, owed: &[u64]) -> Result<Choice, Fail> {
        let situation = Situation {
            waiting: self.waiting.as_slice(),
            bus: &self.bus,
            owed,
            postpone: u64::from(POSTPONE),
            policy: mood.policy,
            drain: mood.drain,
            room: mood.room,
        };
        Ok(choice_of(self.alloc, &situation)?)
    }

    /// What the plain program chooses.
    fn expected(&self, mood: &Mood) -> Result<Choice, Fail> {
        let first = u64::from(mood.owed[0]);
        let second = u64::from(mood.owed[1]);
        if self.config.geometry.ranks == 2 {
            self.expected_with(mood, &[first, second])
        } else {
            self.expected_with(mood, &[first])
        }
    }

    /// Compares the two, and answers their choice.
    fn compare(&mut self, rt: &impl Abort, mood: &Mood) -> Result<Choice, Fail> {
        let found = self.chosen(mood)?;
        let expected = self.expected(mood)?;
        let cycle = self.bus.now();
        assert_eq!(rt; found, expected, "at {cycle}: {mood:?}");
        self.met.note(found);
        Ok(found)
    }

    /// Issues a command where it is legal.
    fn issue(&mut self, command: Command) -> Result<bool, Fail> {
        self.bus.reserve_entry()?;
        match self.bus.may(command) {
            Ok(()) => {
                self.bus.record(command);
                Ok(true)
            }
            Err(_) => Ok(false),
        }
    }

    /// Takes a request that was served from the list and from the queue.
    fn remove(&mut self, place: usize) -> Result<(), Fail> {
        if place >= self.waiting.len() || self.pending.remove(place).is_none() {
            return Err("no request is pending there".into());
        }
        self.waiting.remove(place);
        Ok(())
    }

    /// Issues the command of a choice.
    fn follow(&mut self, choice: Choice) -> Result<(), Fail> {
        if let Some(command) = command_of(&self.pending, choice) {
            if !self.issue(command)? {
                return Err("not legal".into());
            }
        }
        match choice {
            Choice::Column { place } | Choice::ColumnAuto { place } => self.remove(place),
            _ => Ok(()),
        }
    }

    /// Issues a command by chance, if one of some is legal.
    fn stray(&mut self) -> Result<(), Fail> {
        for _ in 0..6 {
            let command = command_by_chance(&mut self.chance, &self.config);
            if self.issue(command)? {
                return Ok(());
            }
        }
        Ok(())
    }

    /// Goes on some cycles, mostly one or two.
    fn wait(&mut self) {
        let clocks = match self.chance.below(16) {
            0 | 1 => 25,
            2 => 0,
            _ => self.chance.below(4),
        };
        for _ in 0..clocks {
            self.tick();
        }
    }

    fn tick(&mut self) {
        if self.bus.now() < CLOCK_STOP {
            self.bus.tick();
        }
    }

    /// Offers four requests at most, each with so many chances of four.
    fn admit_some(&mut self, admissions: u64) -> Result<(), Fail> {
        for _ in 0..4u32 {
            if self.chance.below(4) < admissions {
                self.admit()?;
            }
        }
        Ok(())
    }

    fn turn(&mut self, rt: &impl Abort, closed: bool, admissions: u64) -> Result<(), Fail> {
        self.admit_some(admissions)?;
        let mut choice = Choice::Nothing;
        for _ in 0..CHOICES {
            let mood = self.mood(closed);
            choice = self.compare(rt, &mood)?;
        }
        if self.chance.below(3) == 0 {
            self.stray()?;
        } else {
            self.follow(choice)?;
        }
        self.wait();
        Ok(())
    }

    /// Turns with many requests, with few and with none.
    fn turns(&mut self, rt: &impl Abort, closed: bool) -> Result<(), Fail> {
        let mut admissions = 2;
        for nth in 0..TURNS {
            if nth % 50 == 49 {
                admissions = self.chance.below(4);
            }
            self.turn(rt, closed, admissions)?;
        }
        Ok(())
    }
}

/// Compares the choices of a run, each of which has to be met so often.
fn check(rt: &impl Abort, alloc: Global, case: &Case) -> Result<(), Fail> {
    let mut run = Run::open(alloc, case)?;
    run.turns(rt, false)?;
    assert!(rt; run.met.least() >= 3, "{:?}", run.met);
    run.turns(rt, true)?;
    assert!(rt; run.met.columns_auto >= 20, "{:?}", run.met);
    Ok(())
}

#[test]
fn choices_of_one_rank(rt: HostRuntime) -> Result<(), Fail> {
    check(&rt, rt.alloc(), &ONE_RANK)
}

#[test]
fn choices_of_two_ranks(rt: HostRuntime) -> Result<(), Fail> {
    check(&rt, rt.alloc(), &TWO_RANKS)
}

/// Queues of one request of each kind.
#[test]
fn choices_of_the_smallest_queues(rt: HostRuntime) -> Result<(), Fail> {
    let case = Case {
        reads: 1,
        writes: 1,
        ..TWO_RANKS
    };
    check(&rt, rt.alloc(), &case)
}

#[test]
fn choices_of_the_largest_queues(rt: HostRuntime) -> Result<(), Fail> {
    let case = Case {
        reads: 32,
        writes: 32,
        ..TWO_RANKS
    };
    check(&rt, rt.alloc(), &case)
}

#[test]
fn choices_of_two_groups(rt: HostRuntime) -> Result<(), Fail> {
    let case = Case {
        lines: &[("groups", "groups = 2")],
        ..ONE_RANK
    };
    check(&rt, rt.alloc(), &case)
}
