//! The judge of one channel's commands, to which they come one by one.
//!
//! `recent`, `find`, `told` and the checker of `ddr_legality` stand below, and what a host drives by calls above.
ghost use Rattle.std.specs.Prelude.{◌≡◌, ℕ, ◌+◌, ◌<◌, ◌≤◌, ◌^◌, List, [], IfOk};
ghost use Rattle.ddr_timing.specs.declared.config.Config.{Config};
ghost use Rattle.ddr_trace.specs.declared.command.Entry.{Entry};
ghost use Rattle.ddr_trace.specs.Rules.{ends_late};
ghost use Rattle.ddr_watch.specs.Told.{IsTold, counted_with};

use crate::find::find;
use crate::recent::Recent;
use crate::told::Told;
use ddr_legality::one_pass::Checker;
use ddr_timing::config::Config;
use ddr_trace::command::Entry;
use std::alloc::{AllocError, Global};

/// The commands of a channel so far, as much of them as tells what the next one breaks. Contracts speak of every list of commands
/// that it counted. It takes as much memory as at first, however many commands come.
#[derive(Drop)]
pub struct Watch {
    pub config: Config,
    pub start: u64,
    checker: Checker,
    recent: Recent,
}

impl Watch {
    ghost use Rattle.ddr_watch.specs.Kept.{HasCounted, count_of};

    /// Before the first command, in the cycle `start`. Fails where memory is refused; no later call asks for any.
    pub fn open(alloc: Global, config: &Config, start: u64) -> Result<Watch, AllocError>
        ensures none { IfOk result (λ w. count_of w ≡ 0) }
        ensures config { IfOk result (λ w. w.config ≡ config.now) }
        ensures start { IfOk result (λ w. w.start ≡ start) }
        ensures counted { IfOk result (λ w. HasCounted w config.now start []) }
    {
        Ok(Watch {
            config: *config,
            start,
            checker: Checker::open(alloc, config, start)?,
            recent: Recent::open(alloc)?,
        })
    }

    /// How many commands were counted.
    pub fn count(&self) -> u64
        requires { count_of self.now < 2 ^ 64 }
        ensures { result ≡ count_of self.now }
    {
        self.recent.count()
    }

    /// Judges the next command behind all that were counted, those at fault among them, and counts it too, unless it breaks PLACE or
    /// its cycle is not above that of the one before.
    pub fn judge(&mut self, entry: &Entry) -> Option<Told>
        requires early { entry.now.cycle + 1 < 2 ^ 64 }
        requires countable { count_of self.old + 1 < 2 ^ 63 }
        ensures count { count_of self.new ≤ count_of self.old + 1 }
        ensures config { self.new.config ≡ self.old.config }
        ensures start { self.new.start ≡ self.old.start }
        ensures told { (config : Config) (start : ℕ) (history : List Entry) → HasCounted self.old config start history
            → IsTold config start history entry.now result }
        ensures counted { (config : Config) (start : ℕ) (history : List Entry) → HasCounted self.old config start history
            → HasCounted self.new config start (counted_with config history entry.now) }
    {
        let told = self.told_of(entry);
        if self.checker.can_pass(entry) {
            self.checker.pass(entry);
            self.recent.push(entry);
        }
        told
    }

    /// What is told of a command behind those that were counted.
    fn told_of(&self, entry: &Entry) -> Option<Told>
        requires early { entry.now.cycle + 1 < 2 ^ 64 }
        requires countable { count_of self.now + 1 < 2 ^ 63 }
        ensures { (config : Config) (start : ℕ) (history : List Entry) → HasCounted self.now config start history
            → IsTold config start history entry.now result }
    {
        match self.checker.lowest(entry, entry.cycle + 1) {
            None => None,
            Some(rule) => Some(Told {
                place: self.recent.count(),
                rule,
                evidence: find(&self.recent, rule, entry, &self.config, self.start),
            }),
        }
    }

    /// Whether the trace, if it ends here, at `end`, ends after the deadline of the REF that some rank would need next.
    pub fn ends_late(&self, end: u64) -> bool
        ensures { (config : Config) (start : ℕ) (history : List Entry) → HasCounted self.now config start history
            → result ≡ ends_late config start end history }
    {
        self.checker.ends_late(end)
    }
}
