//! How many refreshes of a rank are due and not issued.
ghost use Rattle.std.specs.Prelude.{◌≡◌, ℕ, ◌+◌, ◌<◌, ◌≤◌};
ghost use Rattle.ddr_timing.specs.declared.units.TheConstants.{CLOCK_STOP};
ghost use Rattle.ddr_refresh.specs.Refreshes.{opened, after_tick, after_ticks, after_issue, debt_of, next_due, is_forced, IsCounted};

use ddr_timing::config::Config;
use std::marker::Model;

/// The refreshes that a rank owes: one falls due per REFI, counted from the first cycle, in which none does.
///
/// All counts start with the first tick, which belongs to the first cycle. A tick costs the same in each
/// cycle: it counts the clocks down to the next refresh that falls due.
#[derive(Clone, Copy, Debug)]
pub struct Debt {
    refi: u32,
    postpone: u32,
    ticks: u64,
    // How many ticks are left up to the one in which the next refresh falls due, that one included.
    until_due: u32,
    due: u64,
    issued: u64,
}

impl Model for Debt {
    ghost use Rattle.ddr_refresh.specs.Refreshes.{Refreshes};

    ghost Value = { Refreshes };

    ghost use Rattle.ddr_refresh.specs.Fields.{fields, fields-refreshes};
    ghost use Rattle.ddr_refresh.specs.View.{refreshes, IsSound};

    ghost view = { refreshes };

    ghost invariant = { IsSound };

    ghost inverse = { fields };

    ghost inverse_ok = { fields-refreshes };
}

impl Debt {
    /// The debt of a rank before its first cycle: nothing is due.
    pub fn open(config: &Config) -> Debt
        ensures { result ≡ opened config.now.timing }
    {
        let timing = config.timing;
        Debt {
            refi: timing.refi,
            postpone: timing.postpone,
            ticks: 0,
            until_due: timing.refi + 1,
            due: 0,
            issued: 0,
        }
    }

    /// Counts a cycle.
    pub fn tick(&mut self)
        requires { self.old.ticks < CLOCK_STOP }
        ensures { self.new ≡ after_tick self.old }
    {
        self.ticks += 1;
        self.until_due -= 1;
        if self.until_due == 0 {
            self.due += 1;
            self.until_due = self.refi;
        }
    }

    /// Counts so many cycles at once.
    pub fn pass(&mut self, count: u64)
        requires { self.old.ticks + count ≤ CLOCK_STOP }
        ensures { self.new ≡ after_ticks count self.old }
    {
        self.ticks += count;
        let until_due = u64::from(self.until_due);
        if count < until_due {
            self.until_due -= count as u32;
            return;
        }
        let over = count - until_due;
        let refi = u64::from(self.refi);
        self.due += 1 + over / refi;
        self.until_due = self.refi - (over % refi) as u32;
    }

    /// For how many further cycles no refresh falls due.
    pub fn steady(&self) -> u64
        ensures exact { result + self.entry.now.ticks + 1 ≡ next_due self.entry.now }
        ensures steady { (count : ℕ) → count ≤ result → debt_of (after_ticks count self.entry.now) ≡ debt_of self.entry.now }
    {
        u64::from(self.until_due - 1)
    }

    /// How many refreshes are due and not issued.
    pub fn debt(&self) -> u64
        ensures exact { result ≡ debt_of self.now }
        ensures counted { IsCounted self.now }
    {
        self.due - self.issued
    }

    /// Whether the rank has to be refreshed before anything else: it owes more than may be put off while
    /// requests are pending, or it owes one and nothing is pending that would have to wait for it.
    ///
    /// How many may be put off, and that an idle rank is refreshed at once, is this project's choice.
    pub fn forced(&self, nothing_pending: bool) -> bool
        ensures { result ≡ is_forced nothing_pending self.now }
    {
        let debt = self.debt();
        debt > u64::from(self.postpone) || (nothing_pending && debt >= 1)
    }

    /// Counts a REF that was issued.
    pub fn issued(&mut self)
        requires { 1 ≤ debt_of self.old }
        ensures { self.new ≡ after_issue self.old }
    {
        self.issued += 1;
    }
}
