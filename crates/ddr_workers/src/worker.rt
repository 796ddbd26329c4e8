//! A worker that drives one channel, in a thread of its own: it takes requests from the ports, lets the channel make its
//! cycles, and pushes the completions.
//!
//! Below stand `Channel` and the queues. A turn has five steps: the gate is asked; a completion is pushed; an item is
//! taken; the channel makes a cycle; and the worker ends where nothing is left to do.
ghost use Rattle.std.specs.Prelude.{◌≡◌, ℕ, ◌<◌, ◌≤◌, ◌↔◌, true, false, length, All, [], None, Some, IfErr, IfOk, IfSome, IsTrue, OnErr, OnOk, slice_get};
ghost use Rattle.ddr_timing.specs.declared.units.TheConstants.{CLOCK_STOP};
ghost use Rattle.ddr_channel.specs.Kept as kept;
ghost use Rattle.ddr_arbiter.specs.declared.choice.Choice.TheVariants.{Nothing};
ghost use Rattle.ddr_channel.specs.Choice.{choice_of};
ghost use Rattle.ddr_channel.specs.Cycle.{at_choice};
ghost use Rattle.ddr_workers.specs.declared.worker.Cause.TheVariants.{OutOfMemory, ClockSpent, Told};
ghost use Rattle.ddr_workers.specs.Completions.{IsFrom};
ghost use Rattle.ddr_address_map.specs.Requests.{Completion};
ghost use Rattle.ddr_workers.specs.declared.completions.Delivery.{Delivery};
ghost use Rattle.ddr_workers.specs.Ended.{IsWorkerEnded};
ghost use Rattle.ddr_workers.specs.Open.{IsNewDonePut, IsNewWorker};
ghost use Rattle.ddr_workers.specs.Sides.{PutSide, after_full, after_push, changed_at};
ghost use Rattle.ddr_workers.specs.WorkerView.{HasTried};
ghost use Rattle.ddr_workers.specs.Worker.{WorkerState, IsAtWork, IsEndOf, IsSameWorker, IsWorkDone, HasNothing, WantedMemory, cause_of};

use crate::completions::DonePut;
use crate::ends::Numbered;
use crate::error::OpenError;
use crate::gate::{Gate, Turn};
use crate::judged::{Commands, JudgedChannel};
use crate::requests::RequestTake;
use crate::rest::Rest;
use ddr_address_map::request::Done;
use ddr_channel::channel::CycleError;
use ddr_channel::promise::channel_promise;
use ddr_timing::config::Config;
use ddr_trace::checker::Fault;
use ddr_trace::trace::Trace;
use std::alloc::Global;
use std::marker::Model;
use std::sync::Wait;

/// The worker of a channel. Contracts see the channel's state, what was popped and what was pushed.
#[derive(Drop)]
pub struct Worker {
    id: u64,
    number: u32,
    channel: JudgedChannel,
    requests: RequestTake,
    // The side that leads to each port.
    completions: Vec<DonePut>,
    // A completion that the channel gave out, and that is not pushed yet.
    held: Option<Done>,
    // Of each port, whether its End came.
    noted: Vec<bool>,
}

impl Model for Worker {
    ghost use Rattle.ddr_workers.specs.Worker.{WorkerState};

    ghost Value = { WorkerState };

    ghost use Rattle.ddr_workers.specs.WorkerView.{state_of, IsWhole};

    ghost view = { state_of };

    ghost invariant = { λ a. IsWhole (state_of a) };
}

/// Why a worker stopped before its end.
#[derive(Clone, Copy, Debug, PartialEq, Eq)]
pub enum Cause {
    /// Memory was refused to a cycle.
    OutOfMemory,
    /// The channel's clock has come to 2^62.
    ClockSpent,
    /// The gate said so.
    Told,
}

impl From<CycleError> for Cause {
    ghost from_gives = { λ error cause. cause ≡ cause_of error };

    fn from(error: CycleError) -> Cause {
        match error {
            CycleError::ClockSpent => Cause::ClockSpent,
            CycleError::OutOfMemory => Cause::OutOfMemory,
        }
    }
}

/// A worker that stopped before its end. It has lost nothing, and can be run again.
#[derive(Drop)]
pub struct Stopped {
    pub worker: Worker,
    pub cause: Cause,
}

/// What a worker leaves at its end, for `close`.
#[derive(Drop)]
pub struct WorkerEnd {
    id: u64,
    number: u32,
    config: Config,
    requests: RequestTake,
    completions: Vec<DonePut>,
    commands: Commands,
}

impl Model for WorkerEnd {
    ghost use Rattle.ddr_workers.specs.Worker.{WorkerEnded};

    ghost Value = { WorkerEnded };

    ghost use Rattle.ddr_workers.specs.Ended.{IsWorkerEnded};
    ghost use Rattle.ddr_workers.specs.WorkerView.{ended_of};

    ghost view = { ended_of };

    ghost invariant = { λ a. IsWorkerEnded (ended_of a) };
}

impl Numbered for WorkerEnd {
    ghost use Rattle.std.specs.Prelude.{length};

    ghost id_of = { λ e. e.id };

    ghost number_of = { λ e. e.number };

    ghost reach_of = { λ e. length e.completions };

    fn id(&self) -> u64 {
        self.id
    }

    fn number(&self) -> u32 {
        self.number
    }

    fn reach(&self) -> usize {
        self.completions.len()
    }
}

impl WorkerEnd {
    /// Its put sides by port, its take side, its channel's trace where that was kept, and the first fault of the trace.
    pub(crate) fn into_parts(self) -> (Vec<DonePut>, RequestTake, Option<Trace>, Option<Fault>)
        ensures ended { IsWorkerEnded self }
        ensures completions { result.0.items ≡ self.completions }
        ensures requests { result.1 ≡ self.requests }
        ensures kept { result.2 ≡ self.kept }
        ensures fault { result.3 ≡ self.fault }
    {
        let WorkerEnd {
            id: _,
            number: _,
            config: _,
            requests,
            completions,
            commands,
        } = self;
        let (trace, fault) = commands.into_parts();
        (completions, requests, trace, fault)
    }
}

/// Pushes a completion on the side of its port. Where the queue is full it comes back.
fn push_to<R: Wait>(rt: &R, sides: &mut Vec<DonePut>, done: Done) -> Result<(), Done>
    requires there { done.port < length sides.old.items }
    requires from { IfSome (slice_get sides.old.items done.port) (λ side. IsFrom side.who.queue.purpose side.who.source done) }
    ensures pushed { OnOk result (sides.new.items ≡ changed_at done.port (λ side. after_push side done) sides.old.items) }
    ensures back { IfErr result (λ d. d ≡ done) }
    ensures same { OnErr result (sides.new.items ≡ changed_at done.port after_full sides.old.items) }
{
    let side = &mut sides[done.port as usize];
    match side.push(rt, done) {
        Ok(()) => Ok(()),
        Err(back) => Err(back),
    }
}

impl Worker {
    /// A worker before its first turn, over the sides of its queues. Its channel's clock begins with this cycle, and `traces` says
    /// whether its trace is kept.
    pub(crate) fn open(
        alloc: Global,
        config: &Config,
        first: u64,
        traces: bool,
        id: u64,
        number: u32,
        requests: RequestTake,
        completions: Vec<DonePut>,
    ) -> Result<Worker, OpenError>
        requires first { first ≤ CLOCK_STOP }
        requires route { requests.who.queue.purpose ≡ record { geometry = config.now.geometry; channel = number } }
        requires ports { requests.who.count ≡ length completions.items }
        requires took { requests.took ≡ [] }
        requires sides { (p : ℕ) (side : PutSide Delivery Completion) → slice_get completions.items p ≡ Some side → IsNewDonePut config.now.geometry number p side }
        ensures new { IfOk result (IsNewWorker config.now first id number completions.items requests) }
        ensures keeps { IfOk result (λ w. w.channel.keeps ≡ traces) }
    {
        let noted = vec![in alloc; false; completions.len()]?;
        Ok(Worker {
            id,
            number,
            channel: JudgedChannel::open(alloc, config, first, traces)?,
            requests,
            completions,
            held: None,
            noted,
        })
    }

    /// Holds the completion that was done first, where none is held and one is done.
    fn hold(&mut self)
        ensures same { IsSameWorker self.old self.new }
        ensures next { self.new.held ≡ None → self.new.channel.done ≡ [] }
    {
        if self.held.is_some() {
            return;
        }
        self.held = self.channel.pop_done();
    }

    /// Tries once to push the completion that is held on the queue of its port, and keeps it where that is full.
    fn send<R: Wait>(&mut self, rt: &R)
        requires { self.old.held ≡ None → self.old.channel.done ≡ [] }
        ensures same { IsSameWorker self.old self.new }
        ensures tried { HasTried self.new }
    {
        let Some(done) = self.held.take() else {
            return;
        };
        match push_to(rt, &mut self.completions, done) {
            Ok(()) => {}
            Err(back) => self.held = Some(back),
        }
    }

    /// Pops an item, where both queues of the channel have a free place: admits a request, notes an End.
    fn accept<R: Wait>(&mut self, rt: &R)
        requires { HasTried self.old }
        ensures same { IsSameWorker self.old self.new }
        ensures tried { HasTried self.new }
    {
        if !self.channel.room() {
            return;
        }
        if let Some(item) = self.requests.pop(rt) {
            self.channel.take_in(item, self.noted.as_mut_slice());
        }
    }

    /// Makes a cycle, unless the channel holds nothing.
    fn step(&mut self) -> Result<(), Cause>
        requires { HasTried self.old }
        ensures same { IsSameWorker self.old self.new }
        ensures spent { IfErr result (λ cause. cause ≡ ClockSpent → self.new.channel.now ≡ CLOCK_STOP) }
        ensures memory { IfErr result (λ cause. cause ≡ OutOfMemory → choice_of (at_choice (kept.state_of self.new.channel)) ≡ Nothing → ⊥) }
        ensures wanted { IfErr result (λ cause. cause ≡ OutOfMemory → WantedMemory self.new.channel) }
        ensures told { IfErr result (λ cause. cause ≡ Told → ⊥) }
    {
        if self.channel.is_empty() {
            return Ok(());
        }
        match self.channel.cycle() {
            Ok(()) => Ok(()),
            Err(error) => Err(Cause::from(error)),
        }
    }

    fn number(&self) -> u32
        ensures { result ≡ self.now.number }
    {
        self.number
    }

    /// Whether a completion is done and not pushed yet.
    fn has_done(&self) -> bool {
        self.held.is_some() || self.channel.has_done()
    }

    /// Whether every port's End came, and nothing is held or left in the channel.
    fn is_done(&self) -> bool
        ensures { IsTrue result → HasNothing self.now }
    {
        if self.held.is_some() {
            return false;
        }
        if !self.channel.is_empty() {
            return false;
        }
        all_set(&self.noted)
    }

    /// What the worker leaves at its end.
    fn into_end(self) -> WorkerEnd
        requires { HasNothing self }
        ensures done { IsWorkDone self.channel.config result }
        ensures end { IsEndOf self result }
    {
        channel_promise();
        let Worker {
            id,
            number,
            channel,
            requests,
            completions,
            held: _,
            noted: _,
        } = self;
        WorkerEnd {
            id,
            number,
            config: *channel.config(),
            requests,
            completions,
            commands: channel.into_commands(),
        }
    }

    /// The worker, stopped before its end.
    fn stopped(self, cause: Cause) -> Stopped
        ensures worker { result.worker ≡ self }
        ensures cause { result.cause ≡ cause }
        ensures at_work { IsAtWork self }
    {
        channel_promise();
        let _ = &self.channel;
        Stopped {
            worker: self,
            cause,
        }
    }

    /// Makes turns until every port's End came and nothing is left. In each the gate is asked, a completion is pushed
    /// where there is one, an item is taken where the channel has room, and the channel makes a cycle unless it holds
    /// nothing, of which the gate is told. After a turn without a cycle it rests. It may wait.
    pub fn run<G: Gate, R: Wait>(mut self, rt: &R, gate: &G) -> Result<WorkerEnd, Stopped>
        ensures done { IfOk result (IsWorkDone self.channel.config) }
        ensures end { IfOk result (IsEndOf self) }
        ensures at_work { IfErr result (λ s. IsAtWork s.worker) }
        ensures same { IfErr result (λ s. IsSameWorker self s.worker) }
        ensures told { IfErr result (λ s. s.cause ≡ Told → G.may_stop gate.now) }
        ensures spent { IfErr result (λ s. s.cause ≡ ClockSpent → s.worker.channel.now ≡ CLOCK_STOP) }
        ensures memory { IfErr result (λ s. s.cause ≡ OutOfMemory → choice_of (at_choice (kept.state_of s.worker.channel)) ≡ Nothing → ⊥) }
        ensures wanted { IfErr result (λ s. s.cause ≡ OutOfMemory → WantedMemory s.worker.channel) }
    {
        let mut rest = Rest::new();
        for _ in rt.forever() {
            match gate.turn(rt, self.number()) {
                Turn::Go => {}
                Turn::Hold => {
                    rest.after(rt, false);
                    continue;
                }
                Turn::Stop => return Err(self.stopped(Cause::Told)),
            }
            self.hold();
            self.send(rt);
            self.accept(rt);
            match self.step() {
                Ok(()) => {}
                Err(cause) => return Err(self.stopped(cause)),
            }
            if self.is_done() {
                return Ok(self.into_end());
            }
            let works = !self.channel.is_empty();
            if works {
                gate.made(self.number(), self.channel.now(), self.has_done());
            }
            rest.after(rt, works);
        }
        unreachable!()
    }
}

/// Whether all of them are set.
fn all_set(flags: &[bool]) -> bool
    ensures { IsTrue result ↔ All (λ flag. flag ≡ true) flags.now }
{
    flags.iter().all(|flag| *flag)
}
