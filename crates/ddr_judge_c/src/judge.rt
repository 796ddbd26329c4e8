//! A judge of one channel that a host drives by calls: that of `ddr_watch`, with the rule that was broken last.
//!
//! `ddr_watch` stands below, and `lib` above, whose exports call this.
ghost use Rattle.std.specs.Prelude.{◌≡◌, ℕ, ◌<◌, ◌≤◌, List, [], IfOk, IfSome, None};
ghost use Rattle.std.specs.Option.{option_map};
ghost use Rattle.ddr_timing.specs.declared.config.Config.{Config};
ghost use Rattle.ddr_timing.specs.declared.units.TheConstants.{CLOCK_STOP};
ghost use Rattle.ddr_trace.specs.declared.command.Entry.{Entry};
ghost use Rattle.ddr_trace.specs.Rules.{ends_late};
ghost use Rattle.ddr_watch.specs.Kept.{HasCounted, count_of};
ghost use Rattle.ddr_watch.specs.Told.{IsTold, counted_with};

use ddr_timing::config::Config;
use ddr_trace::command::Entry;
use ddr_watch::told::Told;
use ddr_watch::watch::Watch;
use std::alloc::{AllocError, Global};

/// A judge with what it told last.
#[derive(Drop)]
pub(crate) struct Judge {
    pub(crate) watch: Watch,
    /// The last command, where it broke a rule.
    pub(crate) last: Option<Broken>,
    ghost few: { count_of watch ≤ CLOCK_STOP },
}

/// A command that broke a rule, in a cycle before a clock stops.
#[derive(Clone, Copy)]
pub(crate) struct Broken {
    pub(crate) entry: Entry,
    pub(crate) told: Told,
    ghost early: { entry.cycle < CLOCK_STOP },
}

impl Judge {
    /// A judge before its first command.
    pub(crate) fn open(alloc: Global, config: &Config, start: u64) -> Result<Judge, AllocError>
        ensures none { IfOk result (λ judge. judge.last ≡ None) }
        ensures config { IfOk result (λ judge. judge.watch.config ≡ config.now) }
        ensures start { IfOk result (λ judge. judge.watch.start ≡ start) }
        ensures counted { IfOk result (λ judge. HasCounted judge.watch config.now start []) }
    {
        Ok(Judge {
            watch: Watch::open(alloc, config, start)?,
            last: None,
        })
    }

    /// How many commands count.
    pub(crate) fn count(&self) -> u64
        ensures { result ≡ count_of self.now.watch }
    {
        self.watch.count()
    }

    /// Judges the next command.
    pub(crate) fn judge(&mut self, entry: &Entry) -> Option<Told>
        requires early { entry.now.cycle < CLOCK_STOP }
        requires countable { count_of self.old.watch < CLOCK_STOP }
        ensures config { self.new.watch.config ≡ self.old.watch.config }
        ensures start { self.new.watch.start ≡ self.old.watch.start }
        ensures told { (config : Config) (start : ℕ) (history : List Entry) → HasCounted self.old.watch config start history
            → IsTold config start history entry.now result }
        ensures counted { (config : Config) (start : ℕ) (history : List Entry) → HasCounted self.old.watch config start history
            → HasCounted self.new.watch config start (counted_with config history entry.now) }
        ensures last { option_map (λ broken. broken.told) self.new.last ≡ result }
        ensures entry { IfSome self.new.last (λ broken. broken.entry ≡ entry.now) }
    {
        let told = self.watch.judge(entry);
        self.last = broken_by(entry, told);
        told
    }

    /// Whether the trace, if it ends here, at `end`, ends after the deadline of the REF that some rank would need next.
    pub(crate) fn ends_late(&self, end: u64) -> bool
        ensures { (config : Config) (start : ℕ) (history : List Entry) → HasCounted self.now.watch config start history
            → result ≡ ends_late config start end history }
    {
        self.watch.ends_late(end)
    }
}

/// The command with what is told of it, where it broke a rule.
fn broken_by(entry: &Entry, told: Option<Told>) -> Option<Broken>
    requires { entry.now.cycle < CLOCK_STOP }
    ensures told { option_map (λ broken. broken.told) result ≡ told }
    ensures entry { IfSome result (λ broken. broken.entry ≡ entry.now) }
{
    match told {
        Some(told) => Some(Broken {
            entry: *entry,
            told,
        }),
        None => None,
    }
}
