//! A channel with a judge beside it, which is told each command as the channel issues it. So a trace that isn't kept is looked at.
//!
//! `ddr_channel`, `ddr_judge` and `ddr_past` stand below, and `worker` above.
ghost use Rattle.std.specs.Prelude.{◌≡◌, ◌≤◌, ◌↔◌, [], ◌∷◌, ◌++◌, false, List, IfOk, IfSome, IsErrOf, IsTrue, OnErr, OnOk, slice_get};
ghost use Rattle.std.specs.Option.{is_some};
ghost use Rattle.ddr_timing.specs.declared.units.TheConstants.{CLOCK_STOP};
ghost use Rattle.ddr_address_map.specs.declared.request.Kind.TheVariants.{Read, Write};
ghost use Rattle.ddr_arbiter.specs.declared.choice.Choice.TheVariants.{Nothing};
ghost use Rattle.ddr_channel.specs.declared.channel.CycleError.TheVariants.{ClockSpent, OutOfMemory};
ghost use Rattle.ddr_channel.specs.Choice.{choice_of};
ghost use Rattle.ddr_channel.specs.Cycle.{after_cycle, at_choice};
ghost use Rattle.ddr_channel.specs.History.{Call, Cycle, Pop, run};
ghost use Rattle.ddr_channel.specs.Kept.{state_of};
ghost use Rattle.ddr_channel.specs.Promise.{IsNextAnswer, StandsFor};
ghost use Rattle.ddr_channel.specs.Room.{KeepsRoom, wants_memory};
ghost use Rattle.ddr_channel.specs.State.{after_pop, is_queue_full, opened};
ghost use Rattle.ddr_trace.specs.Legality.{IsLegal};
ghost use Rattle.ddr_world.specs.Items.{MayTake, Takes};
ghost use Rattle.ddr_workers.specs.Judged.{IsJudged};

use ddr_address_map::request::Done;
use ddr_channel::channel::{Channel, CycleError};
use ddr_judge::judge::Judge;
use ddr_past::past::Past;
use ddr_timing::config::Config;
use ddr_trace::checker::Fault;
use ddr_trace::command::Entry;
use ddr_trace::trace::Trace;
use ddr_world::item::Item;
use std::alloc::{AllocError, Global};
use std::marker::Model;

/// The channel of the judge on which the worker's commands come. It has one for each channel of a configuration.
const CHANNEL: u32 = 0;

/// A channel, and a judge that was told each command that it issued. Contracts see the channel.
#[derive(Drop)]
pub(crate) struct JudgedChannel {
    channel: Channel,
    /// The cycle that the channel began with.
    first: u64,
    judge: Judge,
    commands: Past<Entry>,
}

impl Model for JudgedChannel {
    ghost use Rattle.ddr_channel.specs.Kept.{Kept};

    ghost Value = { Kept };

    ghost use Rattle.ddr_workers.specs.Judged.{IsWhole};

    ghost view = { λ a. a.channel };

    ghost invariant = { IsWhole };
}

/// What a channel leaves: its commands from its first cycle to the next one, kept or not, and their first fault. Contracts see the trace
/// in both cases.
#[derive(Drop)]
pub(crate) struct Commands {
    start: u64,
    end: u64,
    commands: Past<Entry>,
    trace: Option<Trace>,
    fault: Option<Fault>,
}

impl Model for Commands {
    ghost use Rattle.ddr_workers.specs.Judged.{JudgedTrace};

    ghost Value = { JudgedTrace };

    ghost view = { λ a. record { trace = record { start = a.start; end = a.end; entries = a.commands.items }; kept = a.trace; fault = a.fault } };
}

impl Commands {
    /// The trace, where it was kept, and its first fault.
    pub(crate) fn into_parts(self) -> (Option<Trace>, Option<Fault>)
        ensures kept { result.0 ≡ self.kept }
        ensures fault { result.1 ≡ self.fault }
    {
        let Commands {
            start: _,
            end: _,
            commands: _,
            trace,
            fault,
        } = self;
        (trace, fault)
    }
}

impl JudgedChannel {
    /// A channel that has made no cycle, and whose first one this is, with or without its trace.
    pub(crate) fn open(
        alloc: Global,
        config: &Config,
        first: u64,
        keeps: bool,
    ) -> Result<JudgedChannel, AllocError>
        requires { first ≤ CLOCK_STOP }
        ensures state { IfOk result (λ c. state_of c ≡ opened config.now first) }
        ensures config { IfOk result (λ c. c.config ≡ config.now) }
        ensures keeps { IfOk result (λ c. c.keeps ≡ keeps) }
        ensures stands { IfOk result (λ c. StandsFor c []) }
    {
        Ok(JudgedChannel {
            channel: open_channel(alloc, config, first, keeps)?,
            first,
            judge: Judge::open(alloc, config, first)?,
            commands: Past::new(),
        })
    }

    /// Whether each of the channel's two queues has a free place.
    pub(crate) fn room(&self) -> bool
        ensures { IsTrue result ↔ ((is_queue_full (state_of self.entry.now) Read ≡ false) × (is_queue_full (state_of self.entry.now) Write ≡ false)) }
    {
        self.channel.room()
    }

    /// Takes an item in, as the channel does.
    pub(crate) fn take_in(&mut self, item: Item, noted: &mut [bool])
        requires { MayTake item self.old noted.old }
        ensures { Takes item self.old self.new noted.old noted.new }
    {
        item.take_in(&mut self.channel, noted);
    }

    /// Makes a cycle, as the channel does, and tells the judge of the command that it issues, if it issues one.
    pub(crate) fn cycle(&mut self) -> Result<(), CycleError>
        ensures ok { OnOk result (state_of self.new ≡ after_cycle (state_of self.old)) }
        ensures spent { IsErrOf result ClockSpent ↔ (self.old.now ≡ CLOCK_STOP) }
        ensures err { OnErr result (state_of self.new ≡ state_of self.old) }
        ensures config { self.new.config ≡ self.old.config }
        ensures idle { choice_of (at_choice (state_of self.old)) ≡ Nothing → IsErrOf result OutOfMemory → ⊥ }
        ensures memory { IsErrOf result OutOfMemory → IsTrue (wants_memory self.old) }
        ensures room { KeepsRoom self.old self.new }
        ensures stands { OnOk result ((calls : List Call) → StandsFor self.old calls → StandsFor self.new (calls ++ Cycle ∷ [])) }
    {
        let cycle = self.channel.now();
        if let Some(issued) = self.channel.cycle_observed()? {
            self.judge.pass(CHANNEL, &issued.entry, cycle);
            self.commands = self.commands.and(&issued.entry);
        }
        Ok(())
    }

    /// Takes the completion that was done first.
    pub(crate) fn pop_done(&mut self) -> Option<Done>
        ensures first { result ≡ slice_get self.old.done 0 }
        ensures rest { state_of self.new ≡ after_pop (state_of self.old) }
        ensures room { KeepsRoom self.old self.new }
        ensures right { (calls : List Call) → StandsFor self.old calls
            → IfSome result (IsNextAnswer (run self.old.config self.old.start calls)) }
        ensures config { self.new.config ≡ self.old.config }
        ensures stands { (calls : List Call) → StandsFor self.old calls → StandsFor self.new (calls ++ Pop ∷ []) }
    {
        self.channel.pop_done()
    }

    /// Whether a completion is done and not taken yet.
    pub(crate) fn has_done(&self) -> bool {
        self.channel.next_done().is_some()
    }

    /// Whether nothing is pending, in flight or done.
    pub(crate) fn is_empty(&self) -> bool
        ensures { IsTrue result ↔ ((self.entry.now.pending ≡ []) × (self.entry.now.flight ≡ []) × (self.entry.now.done ≡ [])) }
    {
        self.channel.is_empty()
    }

    /// The configuration that the channel was opened with.
    pub(crate) fn config(&self) -> &Config
        ensures { result.now ≡ self.entry.now.config }
    {
        self.channel.config()
    }

    /// The next cycle to be made.
    pub(crate) fn now(&self) -> u64
        ensures { result ≡ self.entry.now.now }
    {
        self.channel.now()
    }

    /// The first fault of the channel's commands, as the judge has it.
    fn first_fault(&self) -> Option<Fault>
        ensures { IsJudged self.entry.now.config (record { start = self.entry.now.start; end = self.entry.now.now; entries = self.entry.now.trace }) result }
    {
        let fault = self.judge.verdict(CHANNEL, self.channel.now())?;
        Some(Fault {
            place: fault.place as usize,
            rule: fault.rule,
        })
    }

    /// What the channel leaves. It is given up.
    pub(crate) fn into_commands(self) -> Commands
        ensures trace { result.trace ≡ record { start = self.start; end = self.now; entries = self.trace } }
        ensures legal { IsLegal self.config result.trace.start result.trace.end result.trace.entries }
        ensures keeps { is_some result.kept ≡ self.keeps }
        ensures kept { IfSome result.kept (λ t. t ≡ result.trace) }
        ensures judged { IsJudged self.config result.trace result.fault }
    {
        let fault = self.first_fault();
        self.channel.commands_are_legal();
        let end = self.channel.now();
        let JudgedChannel {
            channel,
            first,
            judge: _,
            commands,
        } = self;
        Commands {
            start: first,
            end,
            commands,
            trace: kept_trace(channel),
            fault,
        }
    }
}

/// A channel that has made no cycle, with or without its trace.
fn open_channel(
    alloc: Global,
    config: &Config,
    first: u64,
    keeps: bool,
) -> Result<Channel, AllocError>
    requires { first ≤ CLOCK_STOP }
    ensures state { IfOk result (λ c. state_of c ≡ opened config.now first) }
    ensures config { IfOk result (λ c. c.config ≡ config.now) }
    ensures keeps { IfOk result (λ c. c.keeps ≡ keeps) }
    ensures stands { IfOk result (λ c. StandsFor c []) }
{
    if keeps {
        Channel::open(alloc, config, first)
    } else {
        Channel::open_without_trace(alloc, config, first)
    }
}

/// The commands of the channel, where it keeps them. It is given up.
fn kept_trace(channel: Channel) -> Option<Trace>
    ensures keeps { is_some result ≡ channel.keeps }
    ensures kept { IfSome result (λ t. t ≡ record { start = channel.start; end = channel.now; entries = channel.trace }) }
{
    if !channel.keeps_trace() {
        return None;
    }
    Some(channel.into_trace())
}
