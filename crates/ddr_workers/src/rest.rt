//! How a thread rests between turns that found nothing: a worker, or who polls a port.
use crossbeam_utils::Backoff;
use std::sync::Wait;
use std::thread::Parker;
use std::time::Duration;

/// After how many rests, one behind the other, it sleeps.
const PATIENCE: u32 = 1_000;

/// How long it sleeps then, in microseconds.
const SLEEP: u64 = 100;

/// The rests of a thread: short spins at first, then its processor is left to others, and then it sleeps.
#[derive(Drop)]
pub struct Rest {
    backoff: Backoff,
    // On which nobody wakes it.
    sleep: Parker,
    // How many rests came one behind the other.
    count: u32,
}

impl Rest {
    /// Before the first turn.
    pub fn new() -> Rest {
        Rest {
            backoff: Backoff::new(),
            sleep: Parker::new(),
            count: 0,
        }
    }

    /// Rests, unless the turn found something to do: then the next rest is a short one again.
    pub fn after<R: Wait>(&mut self, rt: &R, found: bool) {
        if found {
            self.backoff.reset();
            self.count = 0;
        } else if self.count < PATIENCE {
            self.backoff.snooze();
            self.count += 1;
        } else {
            self.sleep.park_timeout(rt, Duration::from_micros(SLEEP));
        }
    }
}
