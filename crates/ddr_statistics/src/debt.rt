//! The refreshes that a rank owes.
//!
//! One falls due each REFI from the trace's start on, and each REF of the rank pays for one. `ddr_timing` and `ddr_trace` stand
//! below, and `statistics` above.
ghost use Rattle.std.specs.Prelude.{◌≡◌, ◌-◌, max};
ghost use Rattle.ddr_statistics.specs.Debts.{due_in};
ghost use Rattle.ddr_statistics.specs.Noted.{debt_noted, debt_paid};

use ddr_timing::timing::Timing;
use ddr_trace::command::{Command, Entry};

/// What is kept of a rank's refreshes. Each number stops at the last one that a `u64` holds.
#[derive(Clone, Copy)]
pub struct Debt {
    /// How many REFs the rank had.
    pub paid: u64,
    /// The most refreshes that it owed just before one of them.
    pub most: u64,
}

impl Debt {
    /// Before the first command.
    pub const NONE: Debt = Debt { paid: 0, most: 0 };

    /// Follows a command of the rank, in a trace that begins in the cycle `start`.
    pub fn note(&mut self, timing: &Timing, start: u64, entry: &Entry)
        ensures { self.new ≡ debt_noted timing.now.refi start entry.now self.old }
    {
        match entry.command {
            Command::Refresh { .. } => self.pay(due_in(timing, start, entry.cycle)),
            _ => {}
        }
    }

    /// Pays for a refresh, where so many fell due.
    fn pay(&mut self, due: u64)
        ensures { self.new ≡ debt_paid due self.old }
    {
        self.most = self.most(due);
        self.paid = self.paid.saturating_add(1);
    }

    /// The most refreshes that the rank owed, where so many fell due.
    pub fn most(&self, due: u64) -> u64
        ensures { result ≡ max self.now.most (due - self.now.paid) }
    {
        self.most.max(due.saturating_sub(self.paid))
    }
}

/// How many refreshes of a rank fell due up to a cycle.
pub fn due_in(timing: &Timing, start: u64, cycle: u64) -> u64
    ensures { result ≡ due_in timing.now.refi start cycle }
{
    cycle.saturating_sub(start) / u64::from(timing.refi)
}
