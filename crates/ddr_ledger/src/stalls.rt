//! In which clocks of a channel requests are pending and no command goes out, and what the next command waits for in them.
//!
//! `causes` and the checker of `ddr_legality`, which tells what a command would have broken earlier, stand below, and `ledger` above.
ghost use Rattle.std.specs.Prelude.{◌≡◌, IfOk};
ghost use Rattle.ddr_world.specs.Promise.{is_for_refresh};
ghost use Rattle.ddr_ledger.specs.Stalls.{and_stalls, at_cap, ended, held_by, idle_of, idled, issued, no_stalls, passed, stalls_together};

use crate::causes::Causes;
use ddr_legality::one_pass::Checker;
use ddr_past::past::Past;
use ddr_timing::config::Config;
use ddr_trace::command::{Command, Entry};
use ddr_trace::rule::Rule;
use std::alloc::{AllocError, Global};
use std::marker::Model;

/// The stalled clocks of a channel. Contracts see them as `Stalled`.
#[derive(Drop)]
pub struct Stalls {
    /// What its commands leave of the rules for the next one.
    checker: Checker,
    /// Its commands, for contracts alone.
    past: Past<Entry>,
    /// The age from which the oldest request is served alone.
    cap: u32,
    /// Whether a command went out in the cycle that is counted next.
    busy: bool,
    /// The clocks that no command has ended yet.
    waiting: u64,
    causes: Causes,
}

impl Model for Stalls {
    ghost use Rattle.ddr_ledger.specs.Stalls.{Stalled};

    ghost Value = { Stalled };

    ghost use Rattle.ddr_ledger.specs.StallsView.{stalled_of, IsSound};

    ghost view = { stalled_of };

    ghost invariant = { IsSound };
}

impl Stalls {
    /// Before the first cycle of a channel of this configuration.
    pub(crate) fn open(alloc: Global, config: &Config) -> Result<Stalls, AllocError>
        ensures { IfOk result (λ stalls. stalls ≡ no_stalls config.now) }
    {
        Ok(Stalls {
            checker: Checker::open(alloc, config, 0)?,
            past: Past::new(),
            cap: config.limits.cap,
            busy: false,
            waiting: 0,
            causes: Causes::NONE,
        })
    }

    /// A command goes out, in the cycle that is counted next.
    pub(crate) fn issue(&mut self, entry: &Entry)
        ensures { self.new ≡ issued entry.now self.old }
    {
        self.end(entry);
        self.pass(entry);
        self.busy = true;
    }

    /// Counts the clocks for what held the command until now, if it ends them.
    fn end(&mut self, entry: &Entry)
        ensures { self.new ≡ ended entry.now self.old }
    {
        if is_for_refresh(&entry.command) || self.waiting == 0 {
            return;
        }
        let held = self.held_by(entry);
        self.causes.charge(held, self.waiting);
        self.waiting = 0;
    }

    /// The lowest rule that the command would have broken one clock earlier.
    fn held_by(&self, entry: &Entry) -> Option<Rule>
        ensures { result ≡ held_by self.now.config self.now.past entry.now }
    {
        let earlier = Entry {
            cycle: entry.cycle.saturating_sub(1),
            command: entry.command,
        };
        self.checker.lowest(&earlier, entry.cycle)
    }

    /// Takes it for one of the channel's commands.
    fn pass(&mut self, entry: &Entry)
        ensures { self.new ≡ passed entry.now self.old }
    {
        if self.checker.can_pass(entry) {
            self.checker.pass(entry);
            self.past = self.past.and(entry);
        }
    }

    /// Counts so many cycles from `now` on, behind each of which the oldest pending request was admitted then, if one was pending.
    pub(crate) fn idle(&mut self, now: u32, cycles: u64, oldest: Option<u64>)
        ensures { self.new ≡ idled now cycles oldest self.old }
    {
        if let Some(admitted) = oldest {
            let idle = self.idle_of(cycles);
            let capped = self.at_cap(now, cycles, admitted);
            self.waiting = self.waiting.saturating_add(idle - capped);
            self.causes.cap(capped);
        }
        self.busy = false;
    }

    /// In how many of so many cycles no command went out.
    fn idle_of(&self, cycles: u64) -> u64
        ensures { result ≡ idle_of cycles self.now }
    {
        if self.busy {
            cycles.saturating_sub(1)
        } else {
            cycles
        }
    }

    /// In how many of these the oldest request had reached the cap.
    fn at_cap(&self, now: u32, cycles: u64, admitted: u64) -> u64
        ensures { result ≡ at_cap now cycles admitted self.now }
    {
        let end = u128::from(now) + u128::from(cycles);
        let first = u128::from(admitted) + u128::from(self.cap);
        let idle = self.idle_of(cycles);
        end.saturating_sub(first).min(u128::from(idle)) as u64
    }

    /// What the commands waited for.
    pub fn causes(&self) -> &Causes
        ensures { result.now ≡ self.now.causes }
    {
        &self.causes
    }
}

/// The stalled clocks of several channels together.
pub fn stalls_together(stalls: &[Stalls]) -> u64
    ensures { result ≡ stalls_together stalls.now }
{
    let mut all: u64 = 0;
    for one in stalls {
        all = and_stalls(all, one);
    }
    all
}

fn and_stalls(all: u64, stalls: &Stalls) -> u64
    ensures { result ≡ and_stalls all stalls.now }
{
    all.saturating_add(stalls.causes.clocks())
}

/// REF, and PREA before it: they serve no request.
fn is_for_refresh(command: &Command) -> bool
    ensures { result ≡ is_for_refresh command.now }
{
    matches!(command, Command::Refresh { .. } | Command::PreAll { .. })
}
