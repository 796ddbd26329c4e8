//! A port with its completion queue.
ghost use Rattle.std.specs.Prelude.{◌≡◌, ◌+◌, ◌-◌, ◌<◌, ◌≤◌, ◌==◌, ◌↔◌, true, false, [], length, slice_get, unwrap_or, All, IfNone, IfOk, IfSome, IsTrue, OnErr, OnOk, OnSome, Some, None};
ghost use Rattle.std.specs.Option.{option_map};
ghost use Rattle.std.specs.Result.{result_err};
ghost use Rattle.ddr_address_map.specs.Map.{in_range};
ghost use Rattle.ddr_reorder.specs.Replies.{front_number, lent_service, nth_answer, nth_service, said, served_answer, served_service};
ghost use Rattle.ddr_reorder.specs.State.{IsRecallable};
ghost use Rattle.ddr_ports.specs.Asked.{Asked, asked_of};
ghost use Rattle.ddr_ports.specs.State.{refusal_of, request_at};
ghost use Rattle.ddr_world.specs.State.{PortSide, IsPortDrained, is_completion_queue_full, opened_port};
ghost use Rattle.ddr_world.specs.Step.{after_collect, after_deliver, after_end, after_release, after_submit};

use circular_buffer::HeapCircularBuffer;
use ddr_address_map::request::{Done, Req};
use ddr_ports::port::PortCore;
use ddr_ports::refusal::PortError;
use ddr_ports::request::Request;
use ddr_reorder::reply::Reply;
use ddr_timing::config::Config;
use ddr_timing::units::CLOCK_STOP;
use std::alloc::{AllocError, Global};
use std::marker::Model;

/// A port, the completions that were delivered to it, and what it has done so far.
#[derive(Drop)]
pub(crate) struct PortSide {
    core: PortCore,
    completions: HeapCircularBuffer<Done>,
    /// How many requests were accepted.
    accepted: u64,
    /// How many replies were given up.
    taken: u64,
    /// Of each channel, whether the End was pushed on its queue.
    pushed: Vec<bool>,
}

impl Model for PortSide {
    ghost use Rattle.ddr_world.specs.State as state;

    ghost Value = { state.PortSide };

    ghost use Rattle.ddr_world.specs.View.{port_of, IsPortWhole};

    ghost view = { port_of };

    ghost invariant = { IsPortWhole };
}

impl PortSide {
    /// A port with nothing outstanding, whose first request gets the number `first`.
    pub(crate) fn open(
        alloc: Global,
        config: &Config,
        port: u32,
        first: u64,
    ) -> Result<PortSide, AllocError>
        requires { first ≤ CLOCK_STOP }
        ensures { IfOk result (λ side. side ≡ opened_port config.now first port) }
    {
        Ok(PortSide {
            core: PortCore::open(alloc, config, port, first)?,
            completions: HeapCircularBuffer::with_capacity(alloc, config.limits.window as usize)?,
            accepted: 0,
            taken: 0,
            pushed: vec![in alloc; false; config.geometry.channels as usize]?,
        })
    }

    /// Prepares a request for its channel, or says why not.
    pub(crate) fn submit(&mut self, request: Request<'_>) -> Result<Req, PortError>
        ensures refused { result_err result ≡ refusal_of self.old.core (asked_of request.entry) }
        ensures prepared { IfOk result (λ made. request_at self.old.core (asked_of request.entry) ≡ Some made) }
        ensures placed { IfOk result (λ made. IsTrue (in_range self.old.core.geometry made.place)) }
        ensures ok { OnOk result (self.new ≡ after_submit (asked_of request.entry) self.old) }
        ensures newest { IfOk result (λ made. IsRecallable self.new.core.reorder made.number) }
        ensures err { OnErr result (self.new ≡ self.old) }
    {
        let made = self.core.prepare(request)?;
        self.accepted += 1;
        Ok(made)
    }

    /// Takes the request back that was prepared last.
    pub(crate) fn retract(&mut self, request: Req)
        requires { IsRecallable self.old.core.reorder request.number }
        ensures undone { (before : PortSide) (asked : Asked) → self.old ≡ after_submit asked before → self.new ≡ before }
    {
        self.core.retract(request);
        self.accepted -= 1;
    }

    /// Whether the completion queue holds as many completions as it may.
    pub(crate) fn is_full(&self) -> bool
        ensures { result ≡ is_completion_queue_full self.now }
    {
        self.completions.is_full()
    }

    /// Adds a completion to the queue, which has a free place.
    pub(crate) fn deliver(&mut self, done: Done)
        requires { is_completion_queue_full self.old ≡ false }
        ensures { self.new ≡ after_deliver done self.old }
    {
        let _ = self.completions.try_push_back(done);
    }

    /// Whether nothing is to be collected.
    pub(crate) fn is_collected(&self) -> bool
        ensures { IsTrue result ↔ (self.now.completions ≡ []) }
    {
        self.completions.is_empty()
    }

    /// Pops the oldest completion, if there is one, puts its line in its place, and tells its number.
    #[inline(always)]
    pub(crate) fn collect(&mut self) -> Option<u64>
        ensures number { result ≡ option_map (λ d. d.number) (slice_get self.old.completions 0) }
        ensures collected { IfSome (slice_get self.old.completions 0) (λ done. self.new ≡ after_collect done self.old) }
        ensures none { IfNone result (self.new ≡ self.old) }
    {
        let done = self.completions.pop_front()?;
        let number = done.number;
        // The port waits for it, whatever the events were, so nothing is dropped here.
        let _ = self.core.fill(done);
        Some(number)
    }

    /// The oldest reply, where it is ready.
    pub(crate) fn front(&self) -> Option<Reply<'_>>
        ensures answer { option_map said result ≡ nth_answer self.now.core.reorder 0 }
        ensures service { option_map lent_service result ≡ nth_service self.now.core.reorder 0 }
    {
        self.core.front()
    }

    /// The reply of an outstanding number once its line has come back, whether or not older ones are ready.
    pub(crate) fn served(&self, number: u64) -> Option<Reply<'_>>
        ensures answer { option_map said result ≡ served_answer self.now.core.reorder number }
        ensures service { option_map lent_service result ≡ served_service self.now.core.reorder number }
    {
        self.core.served(number)
    }

    /// Gives up the oldest reply, where it is ready, and tells its number.
    pub(crate) fn release(&mut self) -> Option<u64>
        ensures number { result ≡ front_number self.old.core.reorder }
        ensures some { OnSome result (self.new ≡ after_release self.old) }
        ensures none { IfNone result (self.new ≡ self.old) }
    {
        let number = self.core.release()?;
        self.taken += 1;
        Some(number)
    }

    /// Whether a number is outstanding.
    pub(crate) fn has_outstanding(&self) -> bool
        ensures { IsTrue result ↔ (length self.now.core.reorder.outstanding == 0 ≡ false) }
    {
        self.core.outstanding() != 0
    }

    /// Whether the End was pushed on the queue of the channel.
    pub(crate) fn has_ended(&self, channel: u32) -> bool
        ensures { result ≡ unwrap_or (slice_get self.now.pushed channel) false }
    {
        match self.pushed.get(channel as usize) {
            Some(ended) => *ended,
            None => false,
        }
    }

    /// Finishes the port, where nothing is outstanding, and notes that its End is on the queue of the channel.
    pub(crate) fn end(&mut self, channel: u32)
        requires empty { length self.old.core.reorder.outstanding ≡ 0 }
        requires there { channel < length self.old.pushed }
        ensures { self.new ≡ after_end channel self.old }
    {
        let _ = self.core.finish();
        self.pushed[channel as usize] = true;
    }

    /// Whether every End was pushed.
    fn has_pushed_all(&self) -> bool
        ensures { IsTrue result ↔ All (λ ended. ended ≡ true) self.now.pushed }
    {
        self.pushed.iter().all(|ended| *ended)
    }

    /// Whether nothing is outstanding or to be collected, and every End was pushed.
    pub(crate) fn is_drained(&self) -> bool
        ensures { IsTrue result ↔ IsPortDrained self.now }
    {
        !self.has_outstanding() && self.completions.is_empty() && self.has_pushed_all()
    }

    /// How many requests were accepted.
    pub(crate) fn accepted(&self) -> u64
        ensures { result ≡ self.now.accepted }
    {
        self.accepted
    }

    /// How many replies were given up.
    pub(crate) fn taken(&self) -> u64
        ensures { result ≡ self.now.taken }
    {
        self.taken
    }
}
