//! The choices of cycles in profile S, worked out by hand. `drain` is off and there is room, and the marks and
//! the cap are the profile's, where a test says nothing else.
//!
//! `ranks` has those on two ranks. `chance` compares the choices of many states with `reference`, a plain program.
ghost use Rattle.std.specs.Prelude.{IfOk};
ghost use Rattle.ddr_hazards.specs.PendingList.{IsInRank};

use crate::refresh::tick_times;
use Step::{Act, Admit, Cap, Chooses, Drain, Pre, PreAll, Rd, Refresh, Remove, Room, Stands};
use ddr_address_map::place::Place;
use ddr_address_map::request::{Echo, Kind, Req};
use ddr_arbiter::choice::{Choice, choose};
use ddr_arbiter::commands::command_of;
use ddr_arbiter::policy::Policy;
use ddr_hazards::pending::Pending;
use ddr_legality::legality::Legality;
use ddr_old_sleep::admitted::are_admitted;
use ddr_refresh::debt::Debt;
use ddr_timing::config::Config;
use ddr_timing::profile::PROFILE_S;
use ddr_timing::units::CLOCK_STOP;
use ddr_trace::command::Command;
use std::alloc::Global;
use std::process::Abort;
use std::test::Fail;

mod chance;
mod ranks;
mod reference;

const PROFILE_POLICY: Policy = Policy {
    cap: 1000,
    low: 2,
    high: 6,
    closed: false,
};

/// A channel's state before a choice.
#[derive(Drop)]
struct Scene {
    config: Config,
    pending: Pending,
    legality: Legality,
    policy: Policy,
    drain: bool,
    room: bool,
    /// A REF was issued.
    refreshed: bool,
}

impl Scene {
    /// Profile S, with nothing pending.
    fn open(alloc: Global) -> Result<Scene, Fail> {
        Scene::of(alloc, Config::read(alloc, PROFILE_S)?)
    }

    /// A configuration, with nothing pending.
    fn of(alloc: Global, config: Config) -> Result<Scene, Fail> {
        let legality = Legality::open(alloc, &config, 0)?;
        Ok(Scene {
            config,
            pending: Pending::open(8, 8),
            legality,
            policy: PROFILE_POLICY,
            drain: false,
            room: true,
            refreshed: false,
        })
    }

    /// Admits a request to a line, in cycle 0.
    fn admit(&mut self, alloc: Global, kind: Kind, place: Place) -> Result<(), Fail> {
        let request = request_to(alloc, kind, place)?;
        match self.pending.admit(request, 0) {
            Ok(()) => Ok(()),
            Err(_) => Err("the queue is full".into()),
        }
    }

    /// Goes on to a cycle.
    fn wait_until(&mut self, cycle: u64) {
        for _ in self.legality.now()..cycle {
            if self.legality.now() < CLOCK_STOP {
                self.legality.tick();
            }
        }
    }

    /// Issues a command in a cycle.
    fn issue(&mut self, cycle: u64, command: Command) -> Result<(), Fail> {
        self.wait_until(cycle);
        self.legality.reserve_entry()?;
        match self.legality.may(command) {
            Ok(()) => {
                self.legality.record(command);
                self.refreshed |= command == Command::Refresh { rank: 0 };
                Ok(())
            }
            Err(rule) => Err(rule.name().into()),
        }
    }

    /// The choice of a cycle.
    fn choice(&mut self, cycle: u32) -> Result<Choice, Fail> {
        self.wait_until(u64::from(cycle));
        let mut debt = Debt::open(&self.config);
        tick_times(&mut debt, u64::from(cycle) + 1);
        if self.refreshed && debt.debt() >= 1 {
            debt.issued();
        }
        if !are_admitted(&self.pending, self.legality.now()) {
            return Err("admitted in a later cycle".into());
        }
        Ok(choose(
            &self.pending,
            &self.legality,
            &[debt],
            &self.policy,
            self.drain,
            self.room,
        ))
    }
}

/// A request to a line.
fn request_to(alloc: Global, kind: Kind, place: Place) -> Result<Req, Fail>
    ensures { IfOk result (λ r. IsInRank r.place) }
{
    if place.rank >= 2 || place.group >= 4 || place.bank >= 4 {
        return Err("no such bank".into());
    }
    Ok(Req {
        port: 0,
        number: 0,
        echo: Echo {
            kind,
            addr: 0,
            len: 1,
        },
        place,
        mask: 0,
        line: Box::new(alloc, [0; 64])?,
    })
}

/// The first byte of a line of a rank.
fn place_of(rank: u32, group: u32, bank: u32, row: u32, line: u32) -> Place {
    Place {
        channel: 0,
        rank,
        group,
        bank,
        row,
        line,
        offset: 0,
    }
}

fn activate(group: u32, bank: u32, row: u32) -> Command {
    Command::Act {
        rank: 0,
        group,
        bank,
        row,
    }
}

fn precharge(group: u32, bank: u32) -> Command {
    Command::Pre {
        rank: 0,
        group,
        bank,
    }
}

fn read(group: u32, bank: u32, row: u32, line: u32) -> Command {
    Command::Rd {
        rank: 0,
        group,
        bank,
        row,
        line,
    }
}

/// What happens to a scene, or is asked of it.
#[derive(Clone, Copy)]
enum Step {
    /// A request is admitted in cycle 0: its kind, and the group, bank, row and line that it is of.
    Admit(Kind, u32, u32, u32, u32),
    /// The scheduler's choice in a cycle.
    Chooses(u32, Choice),
    /// An ACT of a row: its cycle, group, bank and row.
    Act(u64, u32, u32, u32),
    /// A PRE of a bank: its cycle, group and bank.
    Pre(u64, u32, u32),
    /// An RD of a line: its cycle, group, bank, row and line.
    Rd(u64, u32, u32, u32, u32),
    PreAll(u64),
    Refresh(u64),
    /// The request at this place is removed.
    Remove(usize),
    /// Whether writes are drained from here on.
    Drain(bool),
    /// Whether there is room for a column command from here on.
    Room(bool),
    /// The age cap from here on.
    Cap(u32),
    /// The command that a choice stands for, if any.
    Stands(Choice, Option<Command>),
}

fn check_choice(rt: &impl Abort, cycle: u32, found: Choice, expected: Choice) {
    assert_eq!(rt; found, expected, "at {cycle}");
}

/// That a choice stands for this command.
fn check_command(rt: &impl Abort, pending: &Pending, choice: Choice, expected: Option<Command>) {
    assert_eq!(rt; command_of(pending, choice), expected, "{choice:?}");
}

impl Scene {
    /// Takes the steps, in order.
    fn take_all(&mut self, rt: &impl Abort, alloc: Global, steps: &[Step]) -> Result<(), Fail> {
        for step in steps {
            self.take(rt, alloc, *step)?;
        }
        Ok(())
    }

    fn take(&mut self, rt: &impl Abort, alloc: Global, step: Step) -> Result<(), Fail> {
        match step {
            Admit(kind, group, bank, row, line) => {
                self.admit(alloc, kind, place_of(0, group, bank, row, line))
            }
            Chooses(cycle, choice) => self.chooses(rt, cycle, choice),
            Act(cycle, group, bank, row) => self.issue(cycle, activate(group, bank, row)),
            Pre(cycle, group, bank) => self.issue(cycle, precharge(group, bank)),
            Rd(cycle, group, bank, row, line) => self.issue(cycle, read(group, bank, row, line)),
            PreAll(cycle) => self.issue(cycle, Command::PreAll { rank: 0 }),
            Refresh(cycle) => self.issue(cycle, Command::Refresh { rank: 0 }),
            Remove(place) => self.remove(place),
            Drain(drain) => {
                self.drain = drain;
                Ok(())
            }
            Room(room) => {
                self.room = room;
                Ok(())
            }
            Cap(cap) => {
                self.policy.cap = cap;
                Ok(())
            }
            Stands(choice, command) => {
                check_command(rt, &self.pending, choice, command);
                Ok(())
            }
        }
    }

    /// That the scheduler chooses so in a cycle.
    fn chooses(&mut self, rt: &impl Abort, cycle: u32, choice: Choice) -> Result<(), Fail> {
        let found = self.choice(cycle)?;
        check_choice(rt, cycle, found, choice);
        Ok(())
    }

    fn remove(&mut self, place: usize) -> Result<(), Fail> {
        match self.pending.remove(place) {
            Some(_) => Ok(()),
            None => Err("no request is pending there".into()),
        }
    }
}

/// Takes the steps with nothing pending before.
fn play(rt: &impl Abort, alloc: Global, steps: &[Step]) -> Result<(), Fail> {
    let mut scene = Scene::open(alloc)?;
    scene.take_all(rt, alloc, steps)
}

const ROW_HIT: &[Step] = &[
    Admit(Kind::Read, 0, 0, 1, 0),
    Admit(Kind::Read, 0, 0, 0, 1),
    Act(0, 0, 0, 0),
    Rd(4, 0, 0, 0, 0),
    // CCD_L holds the read up to cycle 9, and the row that it wants stays open
    Chooses(8, Choice::Nothing),
    Chooses(9, Choice::Column { place: 1 }),
    Rd(9, 0, 0, 0, 1),
    Remove(1),
    // RTP holds the PRE up to cycle 12
    Chooses(11, Choice::Nothing),
    Chooses(12, Choice::Pre { place: 0 }),
    Pre(12, 0, 0),
    // RP holds the ACT up to cycle 16, and RCD the read up to 20
    Chooses(15, Choice::Nothing),
    Chooses(16, Choice::Act { place: 0 }),
    Act(16, 0, 0, 1),
    Chooses(19, Choice::Nothing),
    Chooses(20, Choice::Column { place: 0 }),
];

#[test]
fn younger_row_hit_first(rt: HostRuntime) -> Result<(), Fail> {
    play(&rt, rt.alloc(), ROW_HIT)
}

const CAPPED: &[Step] = &[
    Admit(Kind::Read, 0, 0, 1, 0),
    Admit(Kind::Read, 0, 0, 0, 1),
    Act(0, 0, 0, 0),
    Cap(10),
    Chooses(9, Choice::Column { place: 1 }),
    // the age is the cap, and RAS is over
    Chooses(10, Choice::Pre { place: 0 }),
    Cap(11),
    Chooses(10, Choice::Column { place: 1 }),
];

#[test]
fn oldest_alone_from_the_cap_on(rt: HostRuntime) -> Result<(), Fail> {
    play(&rt, rt.alloc(), CAPPED)
}

const CAP_OF_ONE: &[Step] = &[
    Admit(Kind::Read, 0, 0, 0, 0),
    Admit(Kind::Read, 0, 0, 1, 0),
    Admit(Kind::Read, 0, 0, 0, 1),
    Cap(1),
    Chooses(0, Choice::Act { place: 0 }),
    Act(0, 0, 0, 0),
    Chooses(4, Choice::Column { place: 0 }),
    Rd(4, 0, 0, 0, 0),
    Remove(0),
    // the younger row hit waits, and RAS holds the PRE up to cycle 10
    Chooses(9, Choice::Nothing),
    Chooses(10, Choice::Pre { place: 0 }),
    Pre(10, 0, 0),
    // RP and RC hold the ACT up to cycle 14
    Chooses(13, Choice::Nothing),
    Chooses(14, Choice::Act { place: 0 }),
    Act(14, 0, 0, 1),
    Chooses(18, Choice::Column { place: 0 }),
    Rd(18, 0, 0, 1, 0),
    Remove(0),
    Chooses(23, Choice::Nothing),
    Chooses(24, Choice::Pre { place: 0 }),
    Pre(24, 0, 0),
    Chooses(28, Choice::Act { place: 0 }),
    Act(28, 0, 0, 0),
    Chooses(31, Choice::Nothing),
    Chooses(32, Choice::Column { place: 0 }),
];

#[test]
fn every_row_is_opened_anew_with_a_cap_of_one(rt: HostRuntime) -> Result<(), Fail> {
    play(&rt, rt.alloc(), CAP_OF_ONE)
}

const WRITE_BEHIND_READ: &[Step] = &[
    Admit(Kind::Read, 0, 0, 0, 0),
    Admit(Kind::Write, 0, 0, 0, 0),
    Drain(true),
    Chooses(0, Choice::Act { place: 0 }),
    Act(0, 0, 0, 0),
    Chooses(4, Choice::Column { place: 0 }),
    Rd(4, 0, 0, 0, 0),
    Remove(0),
    // RTW holds the write up to cycle 11
    Chooses(10, Choice::Nothing),
    Chooses(11, Choice::Column { place: 0 }),
];

#[test]
fn write_waits_for_an_older_read_of_its_line(rt: HostRuntime) -> Result<(), Fail> {
    play(&rt, rt.alloc(), WRITE_BEHIND_READ)
}

const READ_BEHIND_WRITE: &[Step] = &[
    Admit(Kind::Write, 0, 0, 0, 0),
    Admit(Kind::Read, 0, 0, 0, 0),
    Act(0, 0, 0, 0),
    Chooses(4, Choice::Column { place: 0 }),
];

#[test]
fn read_waits_for_an_older_write_of_its_line(rt: HostRuntime) -> Result<(), Fail> {
    play(&rt, rt.alloc(), READ_BEHIND_WRITE)
}

const IDLE: &[Step] = &[
    Chooses(199, Choice::Nothing),
    Chooses(200, Choice::Refresh { rank: 0 }),
];

#[test]
fn idle_rank_is_refreshed_when_one_is_due(rt: HostRuntime) -> Result<(), Fail> {
    play(&rt, rt.alloc(), IDLE)
}

const PUT_OFF: &[Step] = &[
    Admit(Kind::Read, 0, 0, 0, 0),
    Act(0, 0, 0, 0),
    Chooses(599, Choice::Column { place: 0 }),
    Rd(599, 0, 0, 0, 0),
    // RTP holds PREA up to cycle 602, and RP holds REF up to 606
    Chooses(601, Choice::Nothing),
    Chooses(602, Choice::PreAll { rank: 0 }),
    PreAll(602),
    Chooses(605, Choice::Nothing),
    Chooses(606, Choice::Refresh { rank: 0 }),
    Refresh(606),
    // two are owed, so the read goes on as soon as RFC is over
    Chooses(625, Choice::Nothing),
    Chooses(626, Choice::Act { place: 0 }),
    Act(626, 0, 0, 0),
    Chooses(630, Choice::Column { place: 0 }),
    Chooses(795, Choice::Column { place: 0 }),
    Rd(795, 0, 0, 0, 0),
    // the fourth falls due in cycle 800
    Chooses(799, Choice::Nothing),
    Chooses(800, Choice::PreAll { rank: 0 }),
    PreAll(800),
    Chooses(803, Choice::Nothing),
    Chooses(804, Choice::Refresh { rank: 0 }),
];

#[test]
fn refresh_is_put_off_twice_and_then_forced(rt: HostRuntime) -> Result<(), Fail> {
    play(&rt, rt.alloc(), PUT_OFF)
}

const READ_FIRST: &[Step] = &[
    Admit(Kind::Write, 0, 0, 0, 0),
    Admit(Kind::Read, 1, 0, 0, 0),
    Chooses(0, Choice::Act { place: 1 }),
    Drain(true),
    Chooses(0, Choice::Act { place: 0 }),
    Drain(false),
    Act(0, 1, 0, 0),
    Chooses(4, Choice::Column { place: 1 }),
    Rd(4, 1, 0, 0, 0),
    Remove(1),
    // no read is left, so the write may be served
    Chooses(5, Choice::Act { place: 0 }),
    Act(5, 0, 0, 0),
    // RTW holds it up to cycle 11
    Chooses(10, Choice::Nothing),
    Chooses(11, Choice::Column { place: 0 }),
];

#[test]
fn read_goes_before_an_older_write_until_writes_drain(rt: HostRuntime) -> Result<(), Fail> {
    play(&rt, rt.alloc(), READ_FIRST)
}

/// Whether writes are drained, how many are pending, and whether they are drained next.
const MODES: &[(bool, u32, bool)] = &[
    (false, 5, false),
    (false, 6, true),
    (true, 3, true),
    (true, 2, false),
];

#[test]
fn writes_drain_between_the_marks(rt: HostRuntime) {
    for (drain, writes, next) in MODES {
        assert!(rt;
            PROFILE_POLICY.next_mode(*drain, *writes) == *next,
            "{drain} {writes}"
        );
    }
}

const NO_ROOM: &[Step] = &[
    Admit(Kind::Read, 0, 0, 0, 0),
    Admit(Kind::Read, 0, 0, 1, 0),
    Admit(Kind::Read, 0, 0, 0, 1),
    Act(0, 0, 0, 0),
    // no PRE either, since a candidate wants the open row
    Room(false),
    Chooses(10, Choice::Nothing),
    Room(true),
    Chooses(10, Choice::Column { place: 0 }),
];

#[test]
fn no_column_command_without_room(rt: HostRuntime) -> Result<(), Fail> {
    play(&rt, rt.alloc(), NO_ROOM)
}

const ACTIVATION_FIRST: &[Step] = &[
    Admit(Kind::Read, 0, 0, 1, 0),
    Admit(Kind::Read, 0, 1, 0, 0),
    Act(0, 0, 0, 0),
    Chooses(2, Choice::Nothing),
    Chooses(3, Choice::Act { place: 1 }),
    Chooses(10, Choice::Pre { place: 0 }),
];

#[test]
fn activation_goes_before_an_older_precharge_that_waits(rt: HostRuntime) -> Result<(), Fail> {
    play(&rt, rt.alloc(), ACTIVATION_FIRST)
}

const UNWANTED_ROW: &[Step] = &[
    Admit(Kind::Read, 0, 0, 1, 0),
    Admit(Kind::Write, 0, 0, 0, 1),
    Act(0, 0, 0, 0),
    // a write wants the row, but reads are served
    Chooses(10, Choice::Pre { place: 0 }),
    Drain(true),
    Chooses(10, Choice::Column { place: 1 }),
];

#[test]
fn row_that_no_candidate_wants_is_closed(rt: HostRuntime) -> Result<(), Fail> {
    play(&rt, rt.alloc(), UNWANTED_ROW)
}

/// A read in bank 2 of group 1, and a younger write in bank 0 of group 3; each names its own DRAM row and line.
const COMMANDS: &[Step] = &[
    Admit(Kind::Read, 1, 2, 7, 5),
    Admit(Kind::Write, 3, 0, 9, 6),
    Stands(Choice::Nothing, None),
    Stands(
        Choice::Refresh { rank: 0 },
        Some(Command::Refresh { rank: 0 }),
    ),
    Stands(
        Choice::PreAll { rank: 0 },
        Some(Command::PreAll { rank: 0 }),
    ),
    Stands(
        Choice::Act { place: 0 },
        Some(Command::Act {
            rank: 0,
            group: 1,
            bank: 2,
            row: 7,
        }),
    ),
    Stands(
        Choice::Act { place: 1 },
        Some(Command::Act {
            rank: 0,
            group: 3,
            bank: 0,
            row: 9,
        }),
    ),
    Stands(
        Choice::Pre { place: 0 },
        Some(Command::Pre {
            rank: 0,
            group: 1,
            bank: 2,
        }),
    ),
    Stands(
        Choice::Pre { place: 1 },
        Some(Command::Pre {
            rank: 0,
            group: 3,
            bank: 0,
        }),
    ),
    Stands(
        Choice::Column { place: 0 },
        Some(Command::Rd {
            rank: 0,
            group: 1,
            bank: 2,
            row: 7,
            line: 5,
        }),
    ),
    Stands(
        Choice::Column { place: 1 },
        Some(Command::Wr {
            rank: 0,
            group: 3,
            bank: 0,
            row: 9,
            line: 6,
        }),
    ),
    // no request is pending there
    Stands(Choice::Act { place: 2 }, None),
    Stands(Choice::Pre { place: 2 }, None),
    Stands(Choice::Column { place: 2 }, None),
];

#[test]
fn command_of_each_choice(rt: HostRuntime) -> Result<(), Fail> {
    play(&rt, rt.alloc(), COMMANDS)
}
