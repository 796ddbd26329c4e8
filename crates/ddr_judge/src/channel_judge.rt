//! What is kept of one channel: its checker up to the first fault, and then that.
//!
//! `fault` and `ddr_legality`'s checker stand below, and `judge` above.
ghost use Rattle.std.specs.Prelude.{◌≡◌, ℕ, ◌+◌, ◌-◌, ◌<◌, ◌^◌, List, [], ◌∷◌, ◌++◌, IfOk};
ghost use Rattle.ddr_timing.specs.declared.config.Config.{Config};
ghost use Rattle.ddr_judge.specs.Records.{AllBelow, Record, entries_of};
ghost use Rattle.ddr_judge.specs.Verdict.{IsVerdict};

use crate::fault::Fault;
use ddr_legality::one_pass::Checker;
use ddr_timing::config::Config;
use ddr_trace::command::Entry;
use ddr_trace::rule::Rule;
use std::alloc::{AllocError, Global};

/// One channel's commands so far. Contracts speak of every list of records that it heard.
#[derive(Drop)]
pub(crate) struct ChannelJudge {
    /// It has passed every command, as long as there is no fault.
    checker: Checker,
    /// How many commands there were.
    pub count: u64,
    /// The first fault of a command.
    fault: Option<Fault>,
}

impl ChannelJudge {
    ghost use Rattle.ddr_judge.specs.Heard.{HasHeard};

    /// Before the first command.
    pub fn open(alloc: Global, config: &Config, start: u64) -> Result<ChannelJudge, AllocError>
        ensures { IfOk result (λ l. HasHeard l config.now start []) }
    {
        Ok(ChannelJudge {
            checker: Checker::open(alloc, config, start)?,
            count: 0,
            fault: None,
        })
    }

    /// Judges the next command, and passes it where it breaks nothing. Behind a fault it is only counted.
    pub fn pass(&mut self, entry: &Entry, line: u64)
        requires early { entry.now.cycle < 2 ^ 64 - 1 }
        requires countable { self.old.count + 1 < 2 ^ 64 }
        ensures count { self.new.count ≡ self.old.count + 1 }
        ensures heard { (config : Config) (start : ℕ) (records : List Record) (channel : ℕ) → HasHeard self.old config start records
            → HasHeard self.new config start (records ++ record { channel = channel; entry = entry.now; line = line } ∷ []) }
    {
        let place = self.count;
        self.count = place + 1;
        if self.fault.is_some() {
            return;
        }
        match self.checker.lowest(entry, entry.cycle + 1) {
            None => self.checker.pass(entry),
            Some(rule) => {
                self.fault = Some(Fault {
                    place,
                    rule,
                    line: Some(line),
                });
            }
        }
    }

    /// The first fault, in a trace that ends at `end`.
    pub fn verdict(&self, end: u64) -> Option<Fault>
        ensures { (config : Config) (start : ℕ) (records : List Record) → HasHeard self.now config start records → AllBelow end (entries_of records)
            → IsVerdict config start end records result }
    {
        if self.fault.is_some() {
            return self.fault;
        }
        if self.checker.ends_late(end) {
            return Some(Fault {
                place: self.count,
                rule: Rule::RefLate,
                line: None,
            });
        }
        None
    }
}
