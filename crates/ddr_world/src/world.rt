//! The core: its ports and channels, and one event after another.
ghost use Rattle.std.specs.Prelude.{◌≡◌, ◌+◌, ◌<◌, ◌≤◌, ◌↔◌, true, false, length, map, replicate, List, [], ◌∷◌, ◌++◌, slice_get, All, IfErr, IfOk, IfSome, IsOk, IsTrue, Some};
ghost use Rattle.std.specs.List.{range_with_len};
ghost use Rattle.std.specs.Option.{option_copied, option_map};
ghost use Rattle.ddr_timing.specs.declared.units.TheConstants.{CLOCK_STOP, MOST_CHANNELS, MOST_PORTS};
ghost use Rattle.ddr_reorder.specs.Replies.{lent_service, said};
ghost use Rattle.ddr_ports.specs.Asked.{asked_of};
ghost use Rattle.ddr_channel.specs.Kept as channel_kept;
ghost use Rattle.ddr_channel.specs.Quiet as quiet;
ghost use Rattle.ddr_world.specs.Answer.{IsAnswered};
ghost use Rattle.ddr_world.specs.Close.{GaveAll, IsLeftOf, kept_trace};
ghost use Rattle.ddr_world.specs.Events as events;
ghost use Rattle.ddr_world.specs.Events.{event_of};
ghost use Rattle.ddr_world.specs.History.{Answered, Opening, front_of, served_of};
ghost use Rattle.ddr_world.specs.Kept.{opened_with, side_of, state_of};
ghost use Rattle.ddr_world.specs.Quiet.{IsQuiet, IsQuietSide, cycles_made, passed, side_passed};
ghost use Rattle.ddr_world.specs.Record.{IsNext, IsRightAt, RunsTo, StandsFor};
ghost use Rattle.ddr_world.specs.Served.{TellsService, front_service, served_service_of};
ghost use Rattle.ddr_world.specs.State.{IsChannelDrained, IsDrained, IsPortDrained, opened, opened_channel, opened_port};
ghost use Rattle.ddr_world.specs.Told.{TellsOf, counts_of, cycle_answer};

use crate::channel_side::ChannelSide;
use crate::event::{Event, Outcome, Refusal};
use crate::item::Item;
use crate::port_side::PortSide;
use arrayvec::ArrayVec;
use ddr_channel::channel::Channel;
use ddr_channel::issued::Issued;
use ddr_ports::request::Request;
use ddr_reorder::reply::Reply;
use ddr_timing::config::Config;
use ddr_timing::units::{CLOCK_STOP, MOST_CHANNELS, MOST_PORTS};
use ddr_trace::trace::Trace;
use std::alloc::{AllocError, Global};
use std::marker::Model;

/// The core of the controller. Contracts see the state that it is in.
#[derive(Drop)]
pub struct World {
    config: Config,
    // Whether each channel keeps its trace.
    keeps: bool,
    ports: Vec<PortSide>,
    channels: Vec<ChannelSide>,
}

impl Model for World {
    ghost use Rattle.ddr_world.specs.Kept.{Kept};

    ghost Value = { Kept };

    ghost use Rattle.ddr_world.specs.View.{kept_of, IsWhole};

    ghost view = { kept_of };

    ghost invariant = { IsWhole };
}

/// How many events of a list were made, and how many were refused.
#[derive(Clone, Copy, Debug, PartialEq, Eq)]
pub struct RunReport {
    pub made: usize,
    pub refused: usize,
}

/// What a port has done so far.
#[derive(Clone, Copy, Debug, PartialEq, Eq)]
pub struct Counts {
    /// How many requests it accepted.
    pub accepted: u64,
    /// How many replies it gave up. The others that it accepted are outstanding.
    pub taken: u64,
}

/// Some port or channel still has something to do, so the core is not closed.
#[derive(Clone, Copy, Debug, PartialEq, Eq)]
pub struct NotDrained;

/// What is left of a core that was closed. Contracts see three lists, as a `Left` of `specs/`.
#[derive(Drop)]
pub struct Closed {
    /// How many requests each port had accepted.
    pub accepted: ArrayVec<u64, MOST_PORTS>,
    /// How many replies each port gave up.
    pub taken: ArrayVec<u64, MOST_PORTS>,
    /// The commands of each channel. Each is there where the core was opened with traces, and none where it was opened without.
    pub traces: ArrayVec<Option<Trace>, MOST_CHANNELS>,
}

impl Model for Closed {
    ghost use Rattle.ddr_world.specs.Kept.{Left};

    ghost Value = { Left };

    ghost view = { λ c. record { accepted = c.accepted.items; taken = c.taken.items; traces = c.traces.items } };
}

impl World {
    /// A core before its first event, whose clocks and numbers begin at 0.
    pub fn open(alloc: Global, config: &Config) -> Result<World, AllocError>
        ensures state { IfOk result (λ w. state_of w ≡ opened config.now 0 0) }
        ensures stands { IfOk result (λ w. StandsFor w (record { config = config.now; keeps = true; cycle = 0; number = 0 }) []) }
    {
        World::open_at(alloc, config, 0, 0)
    }

    /// As `open`, but no channel keeps its trace, so that a run of any length takes no more memory than the rows that it writes. All
    /// that is promised of a core is promised of this one; `close` has no traces to give then.
    pub fn open_without_traces(alloc: Global, config: &Config) -> Result<World, AllocError>
        ensures state { IfOk result (λ w. state_of w ≡ opened config.now 0 0) }
        ensures stands { IfOk result (λ w. StandsFor w (record { config = config.now; keeps = false; cycle = 0; number = 0 }) []) }
    {
        World::open_as(alloc, config, 0, 0, false)
    }

    /// A core before its first event. Each channel's first cycle is `first_cycle`, and the first number of
    /// each port `first_number`. All that its queues hold has room from here on.
    pub fn open_at(
        alloc: Global,
        config: &Config,
        first_cycle: u64,
        first_number: u64,
    ) -> Result<World, AllocError>
        requires cycle { first_cycle ≤ CLOCK_STOP }
        requires number { first_number ≤ CLOCK_STOP }
        ensures state { IfOk result (λ w. state_of w ≡ opened config.now first_cycle first_number) }
        ensures stands { IfOk result (λ w. StandsFor w (record { config = config.now; keeps = true; cycle = first_cycle; number = first_number }) []) }
    {
        World::open_as(alloc, config, first_cycle, first_number, true)
    }

    /// As `open_at`, with the traces of the channels or, as `open_without_traces`, without them.
    pub fn open_as(
        alloc: Global,
        config: &Config,
        first_cycle: u64,
        first_number: u64,
        keeps: bool,
    ) -> Result<World, AllocError>
        requires cycle { first_cycle ≤ CLOCK_STOP }
        requires number { first_number ≤ CLOCK_STOP }
        ensures state { IfOk result (λ w. state_of w ≡ opened config.now first_cycle first_number) }
        ensures stands { IfOk result (λ w. StandsFor w (record { config = config.now; keeps = keeps; cycle = first_cycle; number = first_number }) []) }
    {
        Ok(World {
            config: *config,
            keeps,
            ports: open_ports(alloc, config, first_number)?,
            channels: open_channels(alloc, config, first_cycle, keeps)?,
        })
    }

    /// Makes an event, or says why not. Memory is asked for in `Cycle` alone, and there only where the channel issues a
    /// command for which there is no room.
    #[inline(always)]
    pub fn step(&mut self, event: Event<'_>) -> Result<Outcome, Refusal>
        ensures answer { IsAnswered self.old self.new (event_of event.entry) result }
        ensures stands { (opening : Opening) (earlier : List Answered) → StandsFor self.old opening earlier
            → StandsFor self.new opening (earlier ++ record { event = event_of event.entry; answer = result } ∷ []) }
    {
        match event {
            Event::Submit(port, request) => self.submit(port, request),
            Event::Take(channel) => self.take(channel),
            Event::Cycle(channel) => {
                self.cycle(channel)?;
                Ok(Outcome::Cycled)
            }
            Event::Deliver(channel) => self.deliver(channel),
            Event::Collect(port) => self.collect(port),
            Event::Release(port) => self.release(port),
            Event::End(port, channel) => self.end(port, channel),
        }
    }

    /// Makes every event in turn, and goes on after a refusal.
    pub fn run(&mut self, events: &[Event<'_>]) -> RunReport
        ensures count { result.made + result.refused ≡ length events.now }
        ensures runs { RunsTo self.old self.new (map event_of events.now) result.made result.refused }
    {
        let mut report = RunReport {
            made: 0,
            refused: 0,
        };
        for event in events {
            match self.step(*event) {
                Ok(_) => report.made += 1,
                Err(_) => report.refused += 1,
            }
        }
        report
    }

    /// Makes a cycle of the channel, or says why not, as `step` does by `Event::Cycle`, and tells what the channel issued:
    /// nothing, or its trace's new entry, with the request that it serves where it is a column command.
    #[inline(always)]
    pub fn cycle(&mut self, channel: u32) -> Result<Option<Issued>, Refusal>
        ensures answer { IsAnswered self.old self.new (events.Cycle channel) (cycle_answer result) }
        ensures told { IfOk result (TellsOf channel self.old self.new) }
        ensures stands { (opening : Opening) (earlier : List Answered) → StandsFor self.old opening earlier
            → StandsFor self.new opening (earlier ++ record { event = events.Cycle channel; answer = cycle_answer result } ∷ []) }
    {
        if !self.has_channel(channel) {
            return Err(Refusal::NoSuch);
        }
        let issued = self.channels[channel as usize].cycle()?;
        Ok(issued)
    }

    #[inline(always)]
    fn has_port(&self, port: u32) -> bool
        ensures { IsTrue result ↔ (port < length self.now.ports) }
    {
        (port as usize) < self.ports.len()
    }

    #[inline(always)]
    fn has_channel(&self, channel: u32) -> bool
        ensures { IsTrue result ↔ (channel < length self.now.channels) }
    {
        (channel as usize) < self.channels.len()
    }

    /// The port prepares the request and pushes it on the queue of its channel.
    fn submit(&mut self, port: u32, request: Request<'_>) -> Result<Outcome, Refusal>
        ensures { IsAnswered self.old self.new (events.Submit port (asked_of request.entry)) result }
    {
        if !self.has_port(port) {
            return Err(Refusal::NoSuch);
        }
        let side = &mut self.ports[port as usize];
        let made = side.submit(request)?;
        let number = made.number;
        let channel = made.place.channel;
        if self.channels[channel as usize].is_busy() {
            side.retract(made);
            return Err(Refusal::Busy { channel });
        }
        self.channels[channel as usize].push(Item::Request(made));
        Ok(Outcome::Accepted { number })
    }

    /// The channel pops an item of its queue.
    #[inline(always)]
    fn take(&mut self, channel: u32) -> Result<Outcome, Refusal>
        ensures { IsAnswered self.old self.new (events.Take channel) result }
    {
        if !self.has_channel(channel) {
            return Err(Refusal::NoSuch);
        }
        self.channels[channel as usize].take()?;
        Ok(Outcome::Taken)
    }

    /// The channel pushes its oldest completion on the queue of the port that it is for.
    #[inline(always)]
    fn deliver(&mut self, channel: u32) -> Result<Outcome, Refusal>
        ensures { IsAnswered self.old self.new (events.Deliver channel) result }
    {
        if !self.has_channel(channel) {
            return Err(Refusal::NoSuch);
        }
        let Some(port) = self.channels[channel as usize].next_port() else {
            return Err(Refusal::Nothing);
        };
        if !self.has_port(port) || self.ports[port as usize].is_full() {
            return Err(Refusal::QueueFull);
        }
        let done = self.channels[channel as usize].pop_done().unwrap();
        self.ports[port as usize].deliver(done);
        Ok(Outcome::Delivered)
    }

    /// The port pops a completion and puts its line in its place.
    #[inline(always)]
    fn collect(&mut self, port: u32) -> Result<Outcome, Refusal>
        ensures { IsAnswered self.old self.new (events.Collect port) result }
    {
        if !self.has_port(port) {
            return Err(Refusal::NoSuch);
        }
        let Some(number) = self.ports[port as usize].collect() else {
            return Err(Refusal::Nothing);
        };
        Ok(Outcome::Collected { number })
    }

    /// The port gives up its oldest reply.
    #[inline(always)]
    fn release(&mut self, port: u32) -> Result<Outcome, Refusal>
        ensures { IsAnswered self.old self.new (events.Release port) result }
    {
        if !self.has_port(port) {
            return Err(Refusal::NoSuch);
        }
        let Some(number) = self.ports[port as usize].release() else {
            return Err(Refusal::Nothing);
        };
        Ok(Outcome::Released { number })
    }

    /// The port pushes its End on the queue of the channel, and is finished.
    fn end(&mut self, port: u32, channel: u32) -> Result<Outcome, Refusal>
        ensures { IsAnswered self.old self.new (events.End port channel) result }
    {
        if !self.has_port(port) || !self.has_channel(channel) {
            return Err(Refusal::NoSuch);
        }
        if self.ports[port as usize].has_outstanding() {
            return Err(Refusal::NotEmpty);
        }
        if self.ports[port as usize].has_ended(channel) {
            return Err(Refusal::Finished);
        }
        if self.channels[channel as usize].is_busy() {
            return Err(Refusal::Busy { channel });
        }
        self.ports[port as usize].end(channel);
        self.channels[channel as usize].push(Item::End(port));
        Ok(Outcome::Ended)
    }

    /// For how many cycles of each channel nothing is to be done in the core: nothing to take, to complete, to issue, to
    /// deliver or to collect, as long as no other event comes between. 0 where something waits. There may be more: none is told while
    /// a rank has to be refreshed, where `still` tells more.
    pub fn quiet(&self) -> u64
        ensures quiet { IsQuiet result (state_of self.now) }
        ensures channels { length self.now.channels ≡ self.now.config.geometry.channels }
    {
        let cycles = self.still();
        if cycles > 0 && self.rests() {
            cycles
        } else {
            0
        }
    }

    /// Whether each channel is known to have a quiet cycle next, with no rank that has to be refreshed.
    fn rests(&self) -> bool {
        self.channels.iter().all(|side| side.channel().quiet() > 0)
    }

    /// For how many cycles of each channel nothing is to be done in the core, as `quiet` tells them, also while ranks whose banks are
    /// idle wait for their REFs. There may be more.
    pub fn still(&self) -> u64
        ensures quiet { IsQuiet result (state_of self.now) }
        ensures channels { length self.now.channels ≡ self.now.config.geometry.channels }
    {
        let channels = &self.channels;
        if !self.are_ports_collected() {
            return 0;
        }
        still_of(channels)
    }

    /// Whether no port has anything to collect.
    fn are_ports_collected(&self) -> bool
        ensures { IsTrue result ↔ All (λ side. side.completions ≡ []) self.now.ports }
    {
        self.ports.iter().all(|side| side.is_collected())
    }

    /// Makes so many cycles of each channel at once, where nothing is to be done in them. They are so many events of each
    /// channel, one channel after another.
    pub fn pass(&mut self, count: u64)
        requires { IsQuiet count (state_of self.old) }
        ensures state { state_of self.new ≡ passed count (state_of self.old) }
        ensures config { self.new.config ≡ self.old.config }
        ensures keeps { self.new.keeps ≡ self.old.keeps }
        ensures stands { (opening : Opening) (earlier : List Answered) → StandsFor self.old opening earlier
            → StandsFor self.new opening (earlier ++ cycles_made count (length self.old.channels)) }
    {
        pass_all(self.channels.as_mut_slice(), count);
    }

    /// The oldest reply of the port, where it is ready. `None` also where there is no such port.
    pub fn front(&self, port: u32) -> Option<Reply<'_>>
        ensures front { option_map said result ≡ front_of (state_of self.now) port }
        ensures next { IfSome result (λ reply. IsNext self.now port (said reply)) }
        ensures service { option_map lent_service result ≡ front_service (state_of self.now) port }
        ensures served { IfSome result (λ reply. TellsService self.now (said reply) (lent_service reply)) }
    {
        if !self.has_port(port) {
            return None;
        }
        self.ports[port as usize].front()
    }

    /// The reply to the port's request of this number, once the port has collected its line, whether or not those before it are ready.
    /// It stays the port's, which gives it up in its turn. It is `None` also where the number isn't outstanding, and where there is no
    /// such port.
    pub fn served(&self, port: u32, number: u64) -> Option<Reply<'_>>
        ensures answer { option_map said result ≡ served_of (state_of self.now) port number }
        ensures right { IfSome result (λ reply. IsRightAt self.now port number (said reply)) }
        ensures service { option_map lent_service result ≡ served_service_of (state_of self.now) port number }
        ensures served { IfSome result (λ reply. TellsService self.now (said reply) (lent_service reply)) }
    {
        if !self.has_port(port) {
            return None;
        }
        self.ports[port as usize].served(number)
    }

    /// What the port has done so far, if there is one of that number.
    pub fn counts(&self, port: u32) -> Option<Counts>
        ensures { result ≡ option_map counts_of (slice_get self.now.ports port) }
    {
        if !self.has_port(port) {
            return None;
        }
        let side = &self.ports[port as usize];
        Some(Counts {
            accepted: side.accepted(),
            taken: side.taken(),
        })
    }

    /// Whether each channel keeps its trace.
    pub fn keeps_traces(&self) -> bool
        ensures { result ≡ self.now.keeps }
    {
        self.keeps
    }

    /// The channel of that number, if there is one.
    pub fn channel(&self, channel: u32) -> Option<&Channel>
        ensures value { option_copied result ≡ option_map (λ side. side.channel) (slice_get self.now.channels channel) }
        ensures within { IfSome result (λ there. channel < self.now.config.geometry.channels) }
        ensures config { IfSome result (λ there. there.now.config ≡ self.now.config) }
        ensures keeps { IfSome result (λ there. there.now.keeps ≡ self.now.keeps) }
    {
        if !self.has_channel(channel) {
            return None;
        }
        Some(self.channels[channel as usize].channel())
    }

    /// How many items were pushed on the request queue of that channel, if there is one, and not taken: requests, and Ends.
    pub fn waiting(&self, channel: u32) -> Option<usize>
        ensures { result ≡ option_map (λ side. length side.requests) (slice_get self.now.channels channel) }
    {
        if !self.has_channel(channel) {
            return None;
        }
        Some(self.channels[channel as usize].waiting())
    }

    /// Whether nothing is outstanding and nothing is left in a queue or in a channel, and every End was pushed
    /// and taken.
    fn is_drained(&self) -> bool
        ensures { IsTrue result ↔ IsDrained (state_of self.now) }
    {
        self.are_ports_drained() && self.are_channels_drained()
    }

    fn are_ports_drained(&self) -> bool
        ensures { IsTrue result ↔ All IsPortDrained self.now.ports }
    {
        self.ports.iter().all(|side| side.is_drained())
    }

    fn are_channels_drained(&self) -> bool
        ensures { IsTrue result ↔ All (λ side. IsChannelDrained (side_of side)) self.now.channels }
    {
        self.channels.iter().all(|side| side.is_drained())
    }

    /// Gives up the core where it is drained, and tells what each port did and the commands of each channel, where they were kept. Nothing
    /// more could come of it: each further event would be refused, but for a cycle, which adds a refresh, a precharge of
    /// all banks or nothing to its channel's trace.
    pub fn close(self) -> Result<Closed, (World, NotDrained)>
        ensures drained { IsOk result ↔ IsDrained (state_of self) }
        ensures ok { IfOk result (IsLeftOf self) }
        ensures whole { IfOk result (GaveAll self) }
        ensures err { IfErr result (λ back. back.0 ≡ self) }
    {
        if !self.is_drained() {
            return Err((self, NotDrained));
        }
        let World {
            config: _,
            keeps: _,
            ports,
            channels,
        } = self;
        Ok(Closed {
            accepted: accepted_by(&ports),
            taken: taken_by(&ports),
            traces: traces_of(channels),
        })
    }
}

/// The ports of a core, in order.
fn open_ports(alloc: Global, config: &Config, first: u64) -> Result<Vec<PortSide>, AllocError>
    requires { first ≤ CLOCK_STOP }
    ensures { IfOk result (λ v. v.items ≡ map (opened_port config.now first) (range_with_len 0 config.now.limits.ports)) }
{
    let mut ports = Vec::new(alloc);
    for port in 0..config.limits.ports {
        ports.push(PortSide::open(alloc, config, port, first)?)?;
    }
    Ok(ports)
}

/// The channels of a core, in order.
fn open_channels(
    alloc: Global,
    config: &Config,
    first: u64,
    keeps: bool,
) -> Result<Vec<ChannelSide>, AllocError>
    requires { first ≤ CLOCK_STOP }
    ensures state { IfOk result (λ v. map side_of v.items ≡ replicate config.now.geometry.channels (opened_channel config.now first)) }
    ensures opened { IfOk result (λ v. All (λ side. opened_with side ≡ (config.now, keeps)) v.items) }
{
    let mut channels = Vec::new(alloc);
    for _ in 0..config.geometry.channels {
        channels.push(ChannelSide::open(alloc, config, first, keeps)?)?;
    }
    Ok(channels)
}

/// The least number of cycles for which the channels are still.
fn still_of(channels: &[ChannelSide]) -> u64
    ensures { 0 < result → All (λ side. IsQuietSide result (side_of side)) channels.now }
{
    let mut least = u64::MAX;
    for side in channels {
        least = least.min(side.still());
        if least == 0 {
            return 0;
        }
    }
    least
}

/// Makes so many quiet cycles of each channel at once.
fn pass_all(channels: &mut [ChannelSide], count: u64)
    requires { All (λ side. quiet.IsQuiet count (channel_kept.state_of side.channel)) channels.old }
    ensures state { map side_of channels.new ≡ map (side_passed count) (map side_of channels.old) }
    ensures opened { map opened_with channels.new ≡ map opened_with channels.old }
{
    for side in channels.iter_mut() {
        side.pass(count);
    }
}

/// How many requests each port had accepted.
fn accepted_by(ports: &[PortSide]) -> ArrayVec<u64, MOST_PORTS>
    requires { length ports.now ≤ MOST_PORTS }
    ensures { result.items ≡ map (λ side. side.accepted) ports.now }
{
    let mut counts = ArrayVec::new();
    for side in ports {
        counts.push(side.accepted());
    }
    counts
}

/// How many replies each port gave up.
fn taken_by(ports: &[PortSide]) -> ArrayVec<u64, MOST_PORTS>
    requires { length ports.now ≤ MOST_PORTS }
    ensures { result.items ≡ map (λ side. side.taken) ports.now }
{
    let mut counts = ArrayVec::new();
    for side in ports {
        counts.push(side.taken());
    }
    counts
}

/// The commands of each channel, where it keeps them. The channels are given up.
fn traces_of(channels: Vec<ChannelSide>) -> ArrayVec<Option<Trace>, MOST_CHANNELS>
    requires { length channels.items ≤ MOST_CHANNELS }
    ensures { result.items ≡ map kept_trace channels.items }
{
    let mut traces = ArrayVec::new();
    for side in channels {
        traces.push(side.into_trace());
    }
    traces
}
