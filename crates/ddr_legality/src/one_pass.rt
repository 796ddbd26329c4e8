//! A trace's checker, to which the entries come one by one.
//!
//! It finds what `ddr_trace`'s checker finds, which compares each entry with all those before it, and what it keeps of
//! these doesn't grow with their number: `bus_readiness` tells the lowest rule on commands that the next entry breaks, and the
//! `refreshes` of its rank the two on refresh. `checker` stands above, and so do crates that read a trace as it comes.
ghost use Rattle.std.specs.Prelude.{◌≡◌, ℕ, ◌&&◌, List, [], ◌∷◌, ◌++◌, IfOk, IfNone, IsTrue, true};
ghost use Rattle.std.specs.Option.{is_none};
ghost use Rattle.ddr_trace.specs.declared.command.Entry.{Entry};
ghost use Rattle.ddr_trace.specs.Rules.{breaks, ends_late, is_in, last_cycle_below};
ghost use Rattle.ddr_trace.specs.Commands.{rank_of};
ghost use Rattle.ddr_trace.specs.Legality.{lowest_rule};

use crate::bus_readiness::BusReadiness;
use crate::refreshes::Refreshes;
use ddr_timing::config::Config;
use ddr_trace::command::{Command, Entry};
use ddr_trace::rule::Rule;
use std::alloc::{AllocError, Global};

/// What is kept of the entries that were passed. They are of the geometry, and their cycles rise. Contracts speak of every
/// list of entries that was passed so, and of any number of them.
#[derive(Drop)]
pub struct Checker {
    issued: BusReadiness,
    /// The REFs of rank 0.
    first: Refreshes,
    /// The REFs of rank 1.
    second: Refreshes,
}

impl Checker {
    ghost use Rattle.ddr_legality.specs.OnePass.{HasPassed, can_pass, config_of, refreshes_of, start_of};

    /// Before the first entry of a trace of this configuration, which begins in the cycle `start`. Fails where memory for
    /// what is kept is refused; no later call asks for any.
    pub fn open(alloc: Global, config: &Config, start: u64) -> Result<Checker, AllocError>
        ensures config { IfOk result (λ s. config_of s ≡ config.now) }
        ensures start { IfOk result (λ s. start_of s ≡ start) }
        ensures passed { IfOk result (λ s. HasPassed s []) }
    {
        Ok(Checker {
            issued: BusReadiness::open(alloc, config, start)?,
            first: Refreshes::NONE,
            second: Refreshes::NONE,
        })
    }

    /// The lowest rule that the entry breaks behind those that were passed, in a trace that ends at `end`, the first cycle
    /// behind it. An entry that breaks none can be passed.
    pub fn lowest(&self, entry: &Entry, end: u64) -> Option<Rule>
        ensures lowest { (history : List Entry) → HasPassed self.now history
            → result ≡ lowest_rule (λ r. breaks (config_of self.now) (start_of self.now) end r history entry.now) }
        ensures kept { IfNone result (IsTrue (can_pass self.now entry.now)) }
    {
        if let Some(rule) = self.issued.broken_by(entry, end) {
            return Some(rule);
        }
        let timing = &self.issued.config.timing;
        self.refreshes_of(&entry.command)
            .broken_by(entry, timing, self.issued.start)
    }

    /// The REFs of the command's rank.
    fn refreshes_of(&self, command: &Command) -> &Refreshes
        ensures { result.now ≡ refreshes_of self.now (rank_of command.now) }
    {
        match command.rank() {
            0 => &self.first,
            _ => &self.second,
        }
    }

    /// Whether the entry breaks no rule, in a trace that ends at `end`.
    pub(crate) fn is_kept_by(&self, entry: &Entry, end: u64) -> bool
        ensures { (history : List Entry) → HasPassed self.now history
            → result ≡ is_none (lowest_rule (λ r. breaks (config_of self.now) (start_of self.now) end r history entry.now)) }
    {
        self.lowest(entry, end).is_none()
    }

    /// Whether the entry is of the geometry and comes behind the last one that was passed.
    pub fn can_pass(&self, entry: &Entry) -> bool
        ensures value { result ≡ can_pass self.now entry.now }
        ensures told { (history : List Entry) → HasPassed self.now history
            → result ≡ (is_in (config_of self.now).geometry entry.now.command && last_cycle_below history entry.now.cycle) }
    {
        entry.command.is_in(&self.issued.config.geometry) && self.issued.is_after_last(entry.cycle)
    }

    /// Passes the entry where it can be passed; answers whether.
    pub(crate) fn follow(&mut self, entry: &Entry) -> bool
        ensures config { config_of self.new ≡ config_of self.old }
        ensures start { start_of self.new ≡ start_of self.old }
        ensures told { (history : List Entry) → HasPassed self.old history
            → result ≡ (is_in (config_of self.old).geometry entry.now.command && last_cycle_below history entry.now.cycle) }
        ensures passed { (history : List Entry) → HasPassed self.old history → result ≡ true
            → HasPassed self.new (history ++ entry.now ∷ []) }
    {
        let is_behind = self.can_pass(entry);
        if is_behind {
            self.pass(entry);
        }
        is_behind
    }

    /// Passes an entry, whether or not it breaks a rule, as long as it is of the geometry and comes behind the last one.
    pub fn pass(&mut self, entry: &Entry)
        requires { IsTrue (can_pass self.old entry.now) }
        ensures config { config_of self.new ≡ config_of self.old }
        ensures start { start_of self.new ≡ start_of self.old }
        ensures passed { (history : List Entry) → HasPassed self.old history
            → HasPassed self.new (history ++ entry.now ∷ []) }
    {
        self.issued.issue(entry);
        match entry.command.rank() {
            0 => self.first.note(entry),
            _ => self.second.note(entry),
        }
    }

    /// Whether the trace, if it ends here, at `end`, ends after the deadline of the REF that some rank would need next.
    pub fn ends_late(&self, end: u64) -> bool
        ensures { (history : List Entry) → HasPassed self.now history
            → result ≡ ends_late (config_of self.now) (start_of self.now) end history }
    {
        let config = &self.issued.config;
        let start = self.issued.start;
        self.first.ends_late(&config.timing, start, end)
            || (config.geometry.ranks == 2 && self.second.ends_late(&config.timing, start, end))
    }
}
