//! A port that runs in a thread of its own: it pushes requests on the queues of the channels, and pops completions
//! from its own queue.
//!
//! Below stand `PortCore`, which numbers the requests and gives the replies back in order, and the queues.
ghost use Rattle.std.specs.Prelude.{◌≡◌, ℕ, ◌+◌, ◌-◌, ◌≤◌, ◌<◌, true, false, length, [], Some, IfErr, IfNone, IfOk, IfSome, OnErr, OnOk, OnSome, slice_get};
ghost use Rattle.std.specs.Option.{option_map};
ghost use Rattle.ddr_reorder.specs.Replies.{front_number, lent_count, lent_service, nth_answer, nth_service, ready_count, said};
ghost use Rattle.ddr_reorder.specs.Sound.{IsSound};
ghost use Rattle.ddr_ports.specs.Asked.{asked_of};
ghost use Rattle.ddr_ports.specs.State.{opened};
ghost use Rattle.ddr_world.specs.declared.item.Item.{Item};
ghost use Rattle.ddr_workers.specs.declared.requests.Route.{Route};
ghost use Rattle.ddr_workers.specs.Ended.{IsEnded};
ghost use Rattle.ddr_workers.specs.Open.{IsNewPut, new_port};
ghost use Rattle.ddr_world.specs.declared.item.Item.TheVariants.{Request as Asking, End};
ghost use Rattle.ddr_workers.specs.Port.{PortState, IsEndOfPort, IsSamePort, IsSubmitted, IsNotSubmitted, IsPolled, IsNotPolled, IsFinished, IsNotFinished, IsHeldUp, IsOfFirst, IsServiceOfFirst, WasBusy, after_busy, after_end, after_ends, after_release, finished};
ghost use Rattle.ddr_workers.specs.Requests.{has_end, IsPlaced, WasFull};
ghost use Rattle.ddr_workers.specs.Sides.{PutSide, after_full, after_push, changed_at};

use crate::completions::DoneTake;
use crate::ends::Numbered;
use crate::refusal::{FinishError, PollError, SubmitError};
use crate::requests::{Full, RequestPut};
use ddr_address_map::request::Req;
use ddr_ports::port::PortCore;
use ddr_ports::request::Request;
use ddr_reorder::reply::Reply;
use ddr_timing::config::Config;
use std::marker::Model;
use std::sync::Wait;

/// A host port. Contracts see the state of its `PortCore`, and what it pushed and popped.
#[derive(Drop)]
pub struct Port {
    id: u64,
    number: u32,
    core: PortCore,
    // How many replies were given up.
    taken: u64,
    // The side that leads to each channel.
    requests: Vec<RequestPut>,
    completions: DoneTake,
    // The Ends are pushed on so many channels, from channel 0 on.
    ended: u32,
    // A completion came that the port did not wait for.
    broken: bool,
}

impl Model for Port {
    ghost use Rattle.std.specs.Prelude.{◌≡◌};
    ghost use Rattle.ddr_workers.specs.Port.{PortState};

    ghost Value = { PortState };

    ghost use Rattle.ddr_workers.specs.Counted.{IsCounted};
    ghost use Rattle.ddr_workers.specs.PortView.{state_of, IsWhole};

    ghost view = { state_of };

    ghost invariant = { λ a. record { whole : IsWhole (state_of a); number : a.number ≡ a.core.port; counted : IsCounted (state_of a) } };
}

/// What a `poll` did.
#[derive(Clone, Copy, Debug, PartialEq, Eq)]
pub enum PollAnswer {
    /// The line of this number was put in its place.
    Filled { number: u64 },
    /// The completion queue was empty at some moment of the call.
    Empty,
}

/// What a finished port leaves, for `close`.
#[derive(Drop)]
pub struct PortEnd {
    id: u64,
    port: u32,
    taken: u64,
    requests: Vec<RequestPut>,
    completions: DoneTake,
}

impl Model for PortEnd {
    ghost use Rattle.ddr_workers.specs.Port.{PortEnded};

    ghost Value = { PortEnded };

    ghost use Rattle.ddr_workers.specs.Ended.{IsEnded};
    ghost use Rattle.ddr_workers.specs.PortView.{ended_of};

    ghost view = { ended_of };

    ghost invariant = { λ a. IsEnded (ended_of a) };
}

impl Numbered for PortEnd {
    ghost use Rattle.std.specs.Prelude.{length};

    ghost id_of = { λ e. e.id };

    ghost number_of = { λ e. e.port };

    ghost reach_of = { λ e. length e.requests };

    fn id(&self) -> u64 {
        self.id
    }

    fn number(&self) -> u32 {
        self.port
    }

    fn reach(&self) -> usize {
        self.requests.len()
    }
}

impl PortEnd {
    /// Its put sides by channel, its take side, and how many replies it gave up.
    pub(crate) fn into_parts(self) -> (Vec<RequestPut>, DoneTake, u64)
        ensures ended { IsEnded self }
        ensures requests { result.0.items ≡ self.requests }
        ensures completions { result.1 ≡ self.completions }
        ensures taken { result.2 ≡ self.taken }
    {
        let PortEnd {
            id: _,
            port: _,
            taken,
            requests,
            completions,
        } = self;
        (requests, completions, taken)
    }
}

/// Pushes a request on the side of its channel. Where the queue is full the request comes back.
fn push_to<R: Wait>(
    rt: &R,
    sides: &mut Vec<RequestPut>,
    channel: u32,
    request: Req,
) -> Result<(), Req>
    requires there { channel < length sides.old.items }
    requires own { IfSome (slice_get sides.old.items channel) (λ side. request.port ≡ side.who.source) }
    requires placed { IfSome (slice_get sides.old.items channel) (λ side. IsPlaced side.who.queue.purpose request) }
    requires before_end { IfSome (slice_get sides.old.items channel) (λ side. has_end side.put ≡ false) }
    ensures pushed { OnOk result (sides.new.items ≡ changed_at channel (λ side. after_push side (Asking request)) sides.old.items) }
    ensures back { IfErr result (λ r. r ≡ request) }
    ensures same { OnErr result (sides.new.items ≡ changed_at channel after_full sides.old.items) }
    ensures full { OnErr result (IfSome (slice_get sides.old.items channel) WasFull) }
{
    let side = &mut sides[channel as usize];
    match side.push(rt, request) {
        Ok(()) => Ok(()),
        Err(back) => Err(back),
    }
}

/// Pushes the End of a side's port. Where the queue is full nothing changes.
fn end_on<R: Wait>(rt: &R, sides: &mut Vec<RequestPut>, channel: u32) -> Result<(), Full>
    requires there { channel < length sides.old.items }
    requires before_end { IfSome (slice_get sides.old.items channel) (λ side. has_end side.put ≡ false) }
    ensures pushed { OnOk result (sides.new.items ≡ changed_at channel (λ side. after_push side (End side.who.source)) sides.old.items) }
    ensures same { OnErr result (sides.new.items ≡ changed_at channel after_full sides.old.items) }
    ensures full { OnErr result (IfSome (slice_get sides.old.items channel) WasFull) }
{
    let side = &mut sides[channel as usize];
    match side.end(rt) {
        Ok(()) => Ok(()),
        Err(full) => Err(full),
    }
}

impl Port {
    /// A port before its first request, over the sides of its queues.
    pub(crate) fn new(
        config: &Config,
        id: u64,
        number: u32,
        core: PortCore,
        requests: Vec<RequestPut>,
        completions: DoneTake,
    ) -> Port
        requires core { core ≡ opened config.now number 0 }
        requires sound { IsSound core.reorder }
        requires channels { length requests.items ≡ config.now.geometry.channels }
        requires sides { (c : ℕ) (side : PutSide Route Item) → slice_get requests.items c ≡ Some side → IsNewPut config.now.geometry number c side }
        requires got { completions.took ≡ [] }
        ensures { result ≡ new_port config.now id number requests.items completions }
    {
        let _ = config.geometry;
        Port {
            id,
            number,
            core,
            taken: 0,
            requests,
            completions,
            ended: 0,
            broken: false,
        }
    }

    /// Makes a request of what the host asks for, with the port's next number, and pushes it on the queue of its
    /// channel. Where that is not done, nothing is pushed and the number stays the next one.
    pub fn submit<R: Wait>(&mut self, rt: &R, request: Request<'_>) -> Result<u64, SubmitError>
        ensures same { IsSamePort self.old self.new }
        ensures ok { IfOk result (IsSubmitted self.old self.new (asked_of request.entry)) }
        ensures err { IfErr result (IsNotSubmitted self.old self.new (asked_of request.entry)) }
    {
        if self.broken {
            return Err(SubmitError::Broken);
        }
        let made = self.core.prepare(request)?;
        let number = made.number;
        let channel = made.place.channel;
        match push_to(rt, &mut self.requests, channel, made) {
            Ok(()) => Ok(number),
            Err(back) => {
                self.core.retract(back);
                Err(SubmitError::Busy { channel })
            }
        }
    }

    /// Pops a completion, if there is one, and puts its line in its place. A completion that the port does not wait
    /// for is dropped, and the port is broken from then on.
    pub fn poll<R: Wait>(&mut self, rt: &R) -> Result<PollAnswer, PollError>
        ensures same { IsSamePort self.old self.new }
        ensures ok { IfOk result (IsPolled self.old self.new) }
        ensures err { IfErr result (IsNotPolled self.old self.new) }
    {
        if self.broken {
            return Err(PollError::Broken);
        }
        let Some(done) = self.completions.pop(rt) else {
            return Ok(PollAnswer::Empty);
        };
        let number = done.number;
        match self.core.fill(done) {
            Ok(()) => Ok(PollAnswer::Filled { number }),
            Err(_) => {
                self.broken = true;
                Err(PollError::Stray)
            }
        }
    }

    /// The oldest reply, where it is ready: that of the first completion with its number that the port got.
    pub fn front(&self) -> Option<Reply<'_>>
        ensures answer { option_map said result ≡ nth_answer self.now.core.reorder 0 }
        ensures service { option_map lent_service result ≡ nth_service self.now.core.reorder 0 }
        ensures first { IfSome result (λ reply. IsOfFirst self.now (said reply)) }
        ensures served { IfSome result (λ reply. IsServiceOfFirst self.now reply.number (lent_service reply)) }
        ensures oldest { IfSome result (λ reply. reply.number ≡ self.now.taken) }
        ensures count { IfSome result (λ reply. length reply.bytes.now ≡ lent_count reply.echo) }
    {
        self.core.front()
    }

    /// The reply with so many older ones. It is there exactly where it and all older ones are ready.
    pub fn nth(&self, k: usize) -> Option<Reply<'_>>
        ensures answer { option_map said result ≡ nth_answer self.now.core.reorder k }
        ensures service { option_map lent_service result ≡ nth_service self.now.core.reorder k }
        ensures first { IfSome result (λ reply. IsOfFirst self.now (said reply)) }
        ensures served { IfSome result (λ reply. IsServiceOfFirst self.now reply.number (lent_service reply)) }
        ensures place { IfSome result (λ reply. reply.number ≡ self.now.taken + k) }
        ensures count { IfSome result (λ reply. length reply.bytes.now ≡ lent_count reply.echo) }
    {
        self.core.nth(k)
    }

    /// How many replies are ready: the oldest numbers, up to the first whose line has not come back.
    pub fn ready(&self) -> usize
        ensures { result ≡ ready_count self.now.core.reorder }
    {
        self.core.ready()
    }

    /// Gives up the oldest reply, where it is ready, and tells its number: 0 at first, and then one more each time.
    pub fn release(&mut self) -> Option<u64>
        ensures same { IsSamePort self.old self.new }
        ensures number { result ≡ front_number self.old.core.reorder }
        ensures next { IfSome result (λ number. number ≡ self.old.taken) }
        ensures some { OnSome result (self.new ≡ after_release self.old) }
        ensures none { IfNone result (self.new ≡ self.old) }
    {
        let number = self.core.release()?;
        self.taken += 1;
        Some(number)
    }

    /// How many numbers are outstanding.
    pub fn outstanding(&self) -> usize
        ensures { result ≡ length self.now.core.reorder.outstanding }
    {
        self.core.outstanding()
    }

    /// Pushes the End on the first channel that has none.
    fn end<R: Wait>(&mut self, rt: &R) -> Result<(), Full>
        requires finished { self.old.core.finished ≡ true }
        requires missing { self.old.ended < length self.old.requests }
        ensures ok { OnOk result (self.new ≡ after_end self.old) }
        ensures full { OnErr result (WasBusy self.old self.old.ended) }
        ensures err { OnErr result (self.new ≡ after_busy self.old.ended self.old) }
    {
        match end_on(rt, &mut self.requests, self.ended) {
            Ok(()) => {
                self.ended += 1;
                Ok(())
            }
            Err(full) => Err(full),
        }
    }

    /// How many channels there are.
    fn channels(&self) -> u32
        ensures { result ≡ length self.now.requests }
    {
        self.requests.len() as u32
    }

    /// How many channels have the port's End.
    fn ended(&self) -> u32
        ensures count { result ≡ self.now.ended }
        ensures within { result ≤ length self.now.requests }
    {
        self.ended
    }

    /// Pushes the Ends that are missing, from the lowest channel up, and names the channel whose queue was full.
    fn end_all<R: Wait>(&mut self, rt: &R) -> Result<(), u32>
        requires { self.old.core.finished ≡ true }
        ensures ok { OnOk result (self.new ≡ after_ends (length self.old.requests - self.old.ended) self.old) }
        ensures err { IfErr result (IsHeldUp self.old self.new) }
    {
        for channel in self.ended()..self.channels() {
            match self.end(rt) {
                Ok(()) => {}
                Err(_) => return Err(channel),
            }
        }
        Ok(())
    }

    /// Ends the port where nothing is outstanding: pushes its End on every channel that has none, from the lowest
    /// channel up. Where that is not done the port comes back, and `finish` may be called again.
    pub fn finish<R: Wait>(mut self, rt: &R) -> Result<PortEnd, (Port, FinishError)>
        ensures ok { IfOk result (IsFinished self) }
        ensures err { IfErr result (λ back. IsNotFinished self back.0 back.1) }
        ensures end { IfOk result (IsEndOfPort self) }
        ensures same { IfErr result (λ back. IsSamePort self back.0) }
    {
        if self.broken {
            return Err((self, FinishError::Broken));
        }
        match self.core.finish() {
            Ok(()) => {}
            Err(_) => return Err((self, FinishError::NotEmpty)),
        }
        if let Err(channel) = self.end_all(rt) {
            return Err((self, FinishError::Busy { channel }));
        }
        let Port {
            id,
            number,
            core: _,
            taken,
            requests,
            completions,
            ended: _,
            broken: _,
        } = self;
        Ok(PortEnd {
            id,
            port: number,
            taken,
            requests,
            completions,
        })
    }
}
