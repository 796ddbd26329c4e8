//! The states of which the choice is asked for: profile S with queues of 32 and RAS 100, and requests that go round its 16 banks.
//!
//! The first 32 requests are reads and the others writes, since a queue has room for 32 of a kind; each wants a row and a line of its
//! own among those that the requests of its bank want.
ghost use Rattle.std.specs.Prelude.{◌<◌, ◌≤◌, All, IsTrue};
ghost use Rattle.ddr_hazards.specs.PendingList.{IsInRank};

use ddr_address_map::place::Place;
use ddr_address_map::request::{Echo, Kind, Req};
use ddr_arbiter::choice::{Choice, choose};
use ddr_arbiter::policy::Policy;
use ddr_hazards::pending::Pending;
use ddr_legality::legality::Legality;
use ddr_old_sleep::admitted::are_admitted;
use ddr_refresh::debt::Debt;
use ddr_samples::sample::changed;
use ddr_timing::config::Config;
use ddr_timing::units::CLOCK_STOP;
use ddr_trace::command::Command;
use std::alloc::Global;

/// How many requests of a kind may be pending.
const KIND_ROOM: u32 = 32;

/// How many banks a rank has.
const BANKS: u32 = 16;

/// How many banks a bank group has.
const GROUP_BANKS: u32 = 4;

/// How many clocks lie between two ACTs: more than RRD_L, and four of them more than FAW.
const ACTIVATE_CLOCKS: u64 = 4;

/// The cycle of the REF, in which one is due.
const REFRESH_CYCLE: u64 = 200;

/// What the banks do.
#[derive(Clone, Copy, PartialEq, Eq)]
pub enum Banks {
    /// They are idle in the cycle behind a REF, so that no ACT is legal.
    Idle,
    /// Each is active with a row that no request wants, and no PRE is legal yet.
    OnOtherRows,
    /// The same, but the bank of the youngest read has its row.
    OnRowOfYoungestRead,
}

/// A state before a choice.
#[derive(Drop)]
pub struct Scene {
    pending: Pending,
    legality: Legality,
    debt: Debt,
    policy: Policy,
}

impl Scene {
    /// So many pending requests, over such banks. None where that is no state, or for want of memory.
    pub fn open(alloc: Global, banks: Banks, pending: u32) -> Option<Scene> {
        let text = changed(
            alloc,
            &[
                ("reads", "reads = 32"),
                ("writes", "writes = 32"),
                ("ras", "ras = 100"),
            ],
        )
        .ok()?;
        let config = Config::read(alloc, text.as_str()).ok()?;
        let legality = Legality::open(alloc, &config, 0).ok()?;
        let mut scene = Scene {
            pending: Pending::open(KIND_ROOM, KIND_ROOM),
            legality,
            debt: Debt::open(&config),
            policy: Policy {
                cap: 1000,
                low: 2,
                high: 6,
                closed: false,
            },
        };
        for number in 0..pending {
            scene.admit(alloc, number)?;
        }
        match banks {
            Banks::Idle => scene.issue(REFRESH_CYCLE, Command::Refresh { rank: 0 })?,
            Banks::OnOtherRows => scene.activate_all(None)?,
            Banks::OnRowOfYoungestRead => {
                scene.activate_all(Some(pending.min(KIND_ROOM).checked_sub(1)?))?
            }
        }
        Some(scene)
    }

    /// Admits the request of this number, in cycle 0.
    fn admit(&mut self, alloc: Global, number: u32) -> Option<()> {
        let kind = if number < KIND_ROOM {
            Kind::Read
        } else {
            Kind::Write
        };
        let request = Req {
            port: 0,
            number: u64::from(number),
            echo: Echo {
                kind,
                addr: 0,
                len: 64,
            },
            place: place_of(number),
            mask: u64::MAX,
            line: Box::new(alloc, [0; 64]).ok()?,
        };
        self.pending.admit(request, 0).ok()
    }

    /// Activates every bank, with a row that no request wants; that of the request of this number with its row.
    fn activate_all(&mut self, wanted: Option<u32>) -> Option<()> {
        for bank in 0..BANKS {
            let row = match wanted {
                Some(number) if number % BANKS == bank => row_of(number),
                _ => 0,
            };
            let command = Command::Act {
                rank: 0,
                group: bank / GROUP_BANKS,
                bank: bank % GROUP_BANKS,
                row,
            };
            self.issue(u64::from(bank) * ACTIVATE_CLOCKS, command)?;
        }
        // RCD of the last ACT is over, and RAS of the first one is not.
        self.wait_until(u64::from(BANKS) * ACTIVATE_CLOCKS);
        Some(())
    }

    /// Issues a command in a cycle, and goes on to the next one.
    fn issue(&mut self, cycle: u64, command: Command) -> Option<()> {
        self.wait_until(cycle);
        self.legality.reserve_entry().ok()?;
        self.legality.may(command).ok()?;
        self.legality.record(command);
        if self.legality.now() < CLOCK_STOP {
            self.legality.tick();
        }
        Some(())
    }

    /// Goes on to a cycle.
    fn wait_until(&mut self, cycle: u64) {
        for _ in self.legality.now()..cycle {
            if self.legality.now() < CLOCK_STOP {
                self.legality.tick();
            }
        }
    }

    /// Whether every request was admitted by now, as it was in each scene.
    pub fn is_admitted(&self) -> bool
        ensures { IsTrue result → All (λ w. w.admitted ≤ self.now.legality.bus.now) self.now.pending.waiting }
    {
        are_admitted(&self.pending, self.legality.now())
    }

    /// The choice of the cycle that comes next, where there is room and writes aren't drained.
    pub fn choice(&self) -> Choice
        requires { All (λ w. w.admitted ≤ self.now.legality.bus.now) self.now.pending.waiting }
    {
        choose(
            &self.pending,
            &self.legality,
            &[self.debt],
            &self.policy,
            false,
            true,
        )
    }
}

/// The row that a request wants, from 1 on.
fn row_of(number: u32) -> u32
    ensures { result < 16 }
{
    1 + (number / BANKS * 5 + number % BANKS * 3) % 15
}

/// The line that a request is to: requests go round the banks, and each has a line of its own.
fn place_of(number: u32) -> Place
    ensures { IsInRank result }
{
    let bank = number % BANKS;
    Place {
        channel: 0,
        rank: 0,
        group: bank / GROUP_BANKS,
        bank: bank % GROUP_BANKS,
        row: row_of(number),
        line: (number / BANKS + bank) % 8,
        offset: 0,
    }
}
