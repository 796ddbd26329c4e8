//! How the threads of a run begin together, and how they stop one another.
//!
//! `ddr_workers` stands below, whose workers ask a gate before each turn; `threads` raises the flag; `hosting` and the
//! workers' gates look at it.
ghost use Rattle.std.specs.Prelude.{◌≡◌, IfErr, true};
ghost use Rattle.ddr_run.specs.declared.flag.Stop.TheVariants.{OutOfMemory};
ghost use Rattle.ddr_run.specs.Started.{comes_from_start};

use ddr_latency::clocks::leaves_time;
use ddr_text::fault::Fault;
use ddr_timing::config::Config;
use ddr_timing::units::STUCK_INTERVALS;
use ddr_workers::OpenError;
use ddr_workers::gate::{Gate, Turn};
use std::alloc::{AllocError, AllocFailed};
use std::sync::Wait;
use std::sync::atomic::{AtomicU64, Ordering};
use std::thread;

/// How many turns a worker makes before it lets other threads go on.
const TURNS_AT_A_TIME: u64 = 64;

/// How often a thread that has begun looks for the others before it lets other threads go on.
const LOOKS: u64 = 100_000;

/// How often it does so. Few, since each time takes long where the machine is busy.
const ROUNDS: u64 = 10_000;

/// Raised once a thread of a run has stopped before its end, or once a channel goes on no more, so that all of them stop.
#[derive(Drop)]
pub struct Flag {
    raised: AtomicU64,
    /// How many cycles a channel with requests makes before it counts as one that goes on no more, where it may be one.
    patience: Option<u64>,
    /// The cycle behind which a channel went on no more; 0 where none has.
    stuck_in: AtomicU64,
}

impl Flag {
    /// A flag that isn't raised, and isn't for want of progress.
    pub fn new() -> Flag {
        Flag {
            raised: AtomicU64::new(0),
            patience: None,
            stuck_in: AtomicU64::new(0),
        }
    }

    /// A flag that isn't raised, of a run on this configuration.
    pub fn of_run(config: &Config) -> Flag {
        Flag {
            raised: AtomicU64::new(0),
            patience: patience(config),
            stuck_in: AtomicU64::new(0),
        }
    }

    /// Raises the flag, since a channel has gone on no more up to this cycle, which isn't 0.
    fn raise_stuck(&self, cycle: u64) {
        self.stuck_in.store(cycle, Ordering::SeqCst);
        self.raise();
    }

    /// The cycle up to which a channel had gone on no more, if the flag was raised for one.
    pub fn stuck_in(&self) -> Option<u64> {
        match self.stuck_in.load(Ordering::SeqCst) {
            0 => None,
            cycle => Some(cycle),
        }
    }

    pub fn raise(&self) {
        self.raised.store(1, Ordering::SeqCst);
    }

    pub fn is_raised(&self) -> bool {
        self.raised.load(Ordering::SeqCst) != 0
    }
}

/// How many cycles in which none of its requests completes a channel makes before it counts as one that goes on no more: none, where
/// each refresh interval leaves time to serve a request.
fn patience(config: &Config) -> Option<u64> {
    if leaves_time(config) {
        return None;
    }
    Some(STUCK_INTERVALS * u64::from(config.timing.refi))
}

/// Where the threads of a run wait for one another before any of them serves its seat. Without it, where the system
/// gives too few threads, those that it gives would wait for the others for ever.
#[derive(Drop)]
pub struct Start {
    threads: u64,
    begun: AtomicU64,
}

impl Start {
    /// The start of so many threads, of which none has begun.
    pub fn new(threads: usize) -> Start {
        Start {
            threads: threads as u64,
            begun: AtomicU64::new(0),
        }
    }

    /// Notes that a thread has begun, and waits until all have.
    ///
    /// Fails as `Told` where the flag is raised first, and as `ThreadsRefused` where the others didn't come for long.
    pub fn wait(&self, flag: &Flag) -> Result<(), Stop>
        ensures { IfErr result (λ stop. comes_from_start stop ≡ true) }
    {
        self.begun.fetch_add(1, Ordering::SeqCst);
        for _ in 0..ROUNDS {
            if self.have_all_begun() {
                return Ok(());
            }
            if flag.is_raised() {
                return Err(Stop::Told);
            }
            thread::yield_now();
        }
        if self.have_all_begun() {
            return Ok(());
        }
        Err(Stop::ThreadsRefused)
    }

    /// Whether all threads have begun, or do while it looks.
    fn have_all_begun(&self) -> bool {
        for _ in 0..LOOKS {
            if self.begun.load(Ordering::SeqCst) >= self.threads {
                return true;
            }
        }
        false
    }
}

/// Why a thread of a run stopped before its end.
#[derive(Clone, Copy, Debug, PartialEq, Eq)]
pub enum Stop {
    /// The flag was raised.
    Told,
    /// Memory was refused to a reply's text or to a channel's cycle.
    OutOfMemory,
    /// A channel's clock has come to its last cycle.
    ClockSpent,
    /// A completion came that the port did not wait for.
    PortBroken,
    /// Not all threads of the run have begun: the system gave too few.
    ThreadsRefused,
}

impl From<Stop> for Fault {
    ghost use Rattle.ddr_run.specs.Started.{stop_fault};

    ghost from_gives = { λ stop fault. fault ≡ stop_fault stop };

    fn from(stop: Stop) -> Fault {
        match stop {
            Stop::OutOfMemory => Fault::OutOfMemory,
            Stop::ClockSpent => Fault::ClockSpent,
            Stop::Told | Stop::PortBroken => Fault::PortBroken,
            Stop::ThreadsRefused => Fault::ThreadsRefused,
        }
    }
}

impl From<OpenError> for Stop {
    ghost from_gives = { λ _ stop. stop ≡ OutOfMemory };

    fn from(_error: OpenError) -> Stop {
        Stop::OutOfMemory
    }
}

impl From<AllocError> for Stop {
    ghost from_gives = { λ _ stop. stop ≡ OutOfMemory };

    fn from(_error: AllocError) -> Stop {
        Stop::OutOfMemory
    }
}

impl<T: Drop> From<AllocFailed<T>> for Stop {
    ghost from_gives = { λ _ stop. stop ≡ OutOfMemory };

    fn from(_error: AllocFailed<T>) -> Stop {
        Stop::OutOfMemory
    }
}

/// The gate of one worker: it stops the worker where the flag is raised, and now and then lets other threads go on. Where a refresh
/// interval may leave no time to serve a request it raises the flag once the channel goes on no more.
#[derive(Drop)]
pub struct Watch<'a> {
    flag: &'a Flag,
    turns: AtomicU64,
    /// How many cycles the channel has made since a completion was done.
    waited: AtomicU64,
}

impl<'a> Watch<'a> {
    /// The gate of a worker before its first turn.
    pub fn new(flag: &'a Flag) -> Watch<'a> {
        Watch {
            flag,
            turns: AtomicU64::new(0),
            waited: AtomicU64::new(0),
        }
    }
}

impl Gate for Watch<'_> {
    ghost may_stop = { λ _. Unit {0} };

    ghost may_hold = { λ _. ⊥ };

    fn turn<R: Wait>(&self, _rt: &R, _channel: u32) -> Turn {
        if self.flag.is_raised() {
            return Turn::Stop;
        }
        if self.turns.fetch_add(1, Ordering::SeqCst) % TURNS_AT_A_TIME == 0 {
            thread::yield_now();
        }
        Turn::Go
    }

    fn made(&self, _channel: u32, next: u64, has_done: bool) {
        let Some(patience) = self.flag.patience else {
            return;
        };
        if has_done {
            self.waited.store(0, Ordering::SeqCst);
        } else if self.waited.fetch_add(1, Ordering::SeqCst) >= patience {
            self.flag.raise_stuck(next);
        }
    }
}
