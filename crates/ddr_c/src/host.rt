//! A core that a host drives by calls: that of `ddr_world`, with rounds, and with when its requests were accepted.
//!
//! `ddr_world` and `stamps` stand below, and `lib` above, whose exports call this.
ghost use Rattle.std.proofs.Props.{props};
ghost use Rattle.std.specs.Prelude.{◌≡◌, ◌+◌, ◌<◌, ◌≤◌, [], ◌∷◌, ◌++◌, List, true, false, IfNone, IfOk, IfSome, None, Ok, Some, length, replicate, slice_get};
ghost use Rattle.std.specs.Option.{option_copied, option_map};
ghost use Rattle.ddr_counting.specs.Noting.{AreNoted};
ghost use Rattle.ddr_ports.specs.Asked.{asked_of};
ghost use Rattle.ddr_world.specs.Answer.{IsAnswered};
ghost use Rattle.ddr_world.specs.Events.{Submit};
ghost use Rattle.ddr_world.specs.History.{front_of, served_of};
ghost use Rattle.ddr_world.specs.Kept.{state_of};
ghost use Rattle.ddr_world.specs.Quiet.{IsQuiet};
ghost use Rattle.ddr_world.specs.Record.{IsNext, IsRightAt, StandsFor};
ghost use Rattle.ddr_world.specs.Served.{served_service_of};
ghost use Rattle.ddr_world.specs.State.{opened};
ghost use Rattle.ddr_world.specs.Told.{counts_of};
ghost use Rattle.ddr_rounds.specs.Continues.{Continues};
ghost use Rattle.ddr_rounds.specs.Drains.{AreRaised, drained};
ghost use Rattle.ddr_rounds.specs.Rounds.{IsRefusedBehind, IsStopped, rounds};
ghost use Rattle.ddr_c.specs.Front.{IsNextOf, IsSeen, front_at};
ghost use Rattle.ddr_c.specs.Numbers.{drains_at, numbers_told};
ghost use Rattle.ddr_c.specs.Stamps.{clock_of, stamped};
ghost use Rattle.ddr_c.specs.Traffic.{no_traffic, port_numbers_of, traffic_at, with_answer, with_next};

use crate::numbers::{ChannelNumbers, PortNumbers, numbers_of, port_numbers};
use crate::stamps::Stamps;
use crate::traffic::{Traffic, no_traffic, refuse, take};
use ddr_address_map::request::Echo;
use ddr_counting::noting::{Noting, all_are_counted};
use ddr_ports::request::Request;
use ddr_reorder::reply::{Reply, Service};
use ddr_rounds::ports::{release, submit};
use ddr_rounds::rounds::{Rounds, make_rounds};
use ddr_timing::config::Config;
use ddr_timing::units::CLOCK_STOP;
use ddr_trace::command::Entry;
use ddr_world::event::{Outcome, Refusal};
use ddr_world::world::{Counts, World};
use std::alloc::{AllocError, Global};

/// A core with what its host is told of it: when its outstanding requests were accepted, what its channels did and what came of the
/// requests of its ports.
#[derive(Drop)]
pub(crate) struct Core {
    pub(crate) world: World,
    config: Config,
    ports: u32,
    channels: u32,
    pub(crate) stamps: Stamps,
    /// Of each channel what its commands come to.
    noting: Noting,
    /// Of each channel in how many cycles writes were drained.
    pub(crate) drains: Vec<u64>,
    /// Of each port.
    pub(crate) traffic: Vec<Traffic>,
    ghost follows: { AreNoted world.config (state_of world) noting } by { Prim.hlevel props },
    ghost config_is: { config ≡ world.config },
    ghost ports_are: { ports ≡ world.config.limits.ports },
    ghost channels_are: { channels ≡ world.config.geometry.channels },
}

/// The oldest reply of a port, without its bytes.
#[derive(Clone, Copy)]
pub(crate) struct Front {
    pub(crate) number: u64,
    pub(crate) echo: Echo,
    /// How many bytes it has.
    pub(crate) length: usize,
    /// The clock when its port accepted the request.
    pub(crate) accepted: u64,
    /// When its request was served.
    pub(crate) service: Service,
}

/// What a reply that was asked for came to.
#[derive(Clone, Copy)]
pub(crate) enum Next {
    /// There is no such port, or no such reply is ready.
    Nothing,
    /// The buffer is shorter than the reply's bytes. The reply stays.
    TooShort(Front),
    /// The bytes were copied, and the oldest reply was given up.
    Given(Front),
}

impl Core {
    /// A core before its first event, whose channels keep their traces, where `traces` says so.
    pub(crate) fn open(alloc: Global, config: &Config, traces: bool) -> Result<Core, AllocError>
        ensures config { IfOk result (λ core. core.world.config ≡ config.now) }
        ensures state { IfOk result (λ core. state_of core.world ≡ opened config.now 0 0) }
        ensures stands { IfOk result (λ core. StandsFor core.world (record { config = config.now; keeps = traces; cycle = 0; number = 0 }) []) }
        ensures drains { IfOk result (λ core. core.drains.items ≡ replicate config.now.geometry.channels 0) }
        ensures traffic { IfOk result (λ core. core.traffic.items ≡ replicate config.now.limits.ports no_traffic) }
    {
        Ok(Core {
            world: World::open_as(alloc, config, 0, 0, traces)?,
            config: *config,
            ports: config.limits.ports,
            channels: config.geometry.channels,
            stamps: Stamps::open(alloc, config.limits.ports)?,
            noting: Noting::open(alloc, config)?,
            drains: vec![in alloc; 0; config.geometry.channels as usize]?,
            traffic: no_traffic(alloc, config.limits.ports)?,
        })
    }

    /// Makes a request at a port, and tells its number there.
    pub(crate) fn submit(&mut self, port: u32, request: Request<'_>) -> Result<Outcome, Refusal>
        ensures answer { IsAnswered self.old.world self.new.world (Submit port (asked_of request.entry)) result }
        ensures stamps { self.new.stamps.accepted.items ≡ stamped port result (clock_of (state_of self.old.world)) self.old.stamps.accepted.items }
        ensures drains { self.new.drains ≡ self.old.drains }
        ensures traffic { self.new.traffic.items ≡ with_answer port result self.old.traffic.items }
        ensures continues { Continues self.old.world self.new.world }
    {
        let clock = self.clock();
        let answer = submit(&mut self.world, port, request, &mut self.noting);
        match answer {
            Ok(Outcome::Accepted { number }) => self.stamps.accept(port, number, clock),
            Ok(_) => {}
            Err(cause) => refuse(self.traffic.as_mut_slice(), port, cause),
        }
        answer
    }

    /// Its configuration.
    pub(crate) fn config(&self) -> &Config
        ensures { result.now ≡ self.now.world.config }
    {
        &self.config
    }

    /// The next cycle of the first channel. All channels are at it, unless memory was refused in the midst of a round.
    pub(crate) fn clock(&self) -> u64
        ensures { result ≡ clock_of (state_of self.now.world) }
    {
        self.cycle_of(0).unwrap_or(0)
    }

    /// What a port has done so far, if there is one of that number.
    pub(crate) fn counts(&self, port: u32) -> Option<Counts>
        ensures { result ≡ option_map counts_of (slice_get self.now.world.ports port) }
    {
        self.world.counts(port)
    }

    /// For how many rounds nothing is to be done.
    pub(crate) fn quiet(&self) -> u64
        ensures { IsQuiet result (state_of self.now.world) }
    {
        self.world.quiet()
    }

    /// Makes rounds, until so many are made or one is refused. Quiet ones are made at once.
    pub(crate) fn rounds(&mut self, count: u64) -> Rounds
        ensures made { IfNone result.stopped ((result.made ≡ count) × (rounds self.old.world.config count (state_of self.old.world) ≡ Some (state_of self.new.world))) }
        ensures stopped { IfSome result.stopped (λ cause. (result.made < count) × IsStopped cause (rounds self.old.world.config (result.made + 1) (state_of self.old.world))) }
        ensures refused { IfSome result.stopped (λ cause. IsRefusedBehind cause self.old.world.config result.made (state_of self.old.world) (state_of self.new.world)) }
        ensures config { self.new.world.config ≡ self.old.world.config }
        ensures drains { AreRaised self.old.world.config.geometry.channels (drained self.old.world.config result.made (state_of self.old.world)) self.old.drains.items self.new.drains.items }
        ensures stamps { self.new.stamps ≡ self.old.stamps }
        ensures traffic { self.new.traffic ≡ self.old.traffic }
        ensures continues { Continues self.old.world self.new.world }
    {
        let drains = self.drains.as_mut_slice();
        let (ports, channels) = (self.ports, self.channels);
        let noting = &mut self.noting;
        make_rounds(&mut self.world, ports, channels, count, noting, drains)
    }

    /// Copies the bytes of the port's oldest reply, where it is ready and the buffer has room, and gives it up.
    pub(crate) fn next(&mut self, port: u32, buffer: &mut [u8]) -> Next
        ensures front { IsNextOf (front_of (state_of self.old.world) port) port self.old.stamps.accepted.items self.old.world self.new.world buffer.old buffer.new result }
        ensures right { IfSome (front_of (state_of self.old.world) port) (IsNext self.old.world port) }
        ensures drains { self.new.drains ≡ self.old.drains }
        ensures stamps { self.new.stamps ≡ self.old.stamps }
        ensures traffic { self.new.traffic.items ≡ with_next port result (clock_of (state_of self.old.world)) self.old.traffic.items }
        ensures continues { Continues self.old.world self.new.world }
    {
        let clock = self.clock();
        let Some(reply) = self.world.front(port) else {
            return Next::Nothing;
        };
        let length = reply.bytes.len();
        let front = front_of(&self.stamps, port, &reply);
        if buffer.len() < length {
            return Next::TooShort(front);
        }
        buffer[..length].copy_from_slice(reply.bytes);
        let _ = release(&mut self.world, port, &mut self.noting);
        take(self.traffic.as_mut_slice(), port, &front, clock);
        Next::Given(front)
    }

    /// Copies the bytes of the reply to a port's request of this number, where its line has come back and the buffer has room, whether
    /// or not the replies before it are ready. The reply stays.
    pub(crate) fn served(&self, port: u32, number: u64, buffer: &mut [u8]) -> Next
        ensures seen { IsSeen (served_of (state_of self.now.world) port number) (served_service_of (state_of self.now.world) port number) port self.now.stamps.accepted.items self.now.world buffer.old buffer.new result }
        ensures right { IfSome (served_of (state_of self.now.world) port number) (IsRightAt self.now.world port number) }
    {
        let Some(reply) = self.world.served(port, number) else {
            return Next::Nothing;
        };
        let front = front_of(&self.stamps, port, &reply);
        let bytes = reply.bytes;
        if bytes.len() > buffer.len() {
            return Next::TooShort(front);
        }
        buffer[..bytes.len()].copy_from_slice(bytes);
        Next::Given(front)
    }

    /// The next cycle of a channel, if there is such a channel.
    pub(crate) fn cycle_of(&self, channel: u32) -> Option<u64>
        ensures { result ≡ option_map (λ side. side.channel.now) (slice_get self.now.world.channels channel) }
    {
        let channel = self.world.channel(channel)?;
        Some(channel.now())
    }

    /// The numbers of a channel's commands so far. Fails as `NoSuch` where there is no such channel, and as `ClockSpent` where its clock
    /// has come to its end.
    pub(crate) fn channel_numbers(&self, channel: u32) -> Result<ChannelNumbers, Refusal>
        ensures { result ≡ numbers_told (option_map (λ side. side.channel) (slice_get self.now.world.channels channel)) (drains_at self.now.drains.items channel) }
    {
        let Some(side) = self.world.channel(channel) else {
            return Err(Refusal::NoSuch);
        };
        let end = side.now();
        if end == CLOCK_STOP {
            return Err(Refusal::ClockSpent);
        }
        let statistics = self.noting.at(channel);
        all_are_counted(side, statistics);
        Ok(numbers_of(statistics, end, drains_at(&self.drains, channel)))
    }

    /// The numbers of a port's requests so far, if there is such a port.
    pub(crate) fn port_numbers(&self, port: u32) -> Option<PortNumbers>
        ensures { result ≡ port_numbers_of (slice_get self.now.world.ports port) (traffic_at self.now.traffic.items port) }
    {
        let counts = self.world.counts(port)?;
        if (port as usize) < self.traffic.len() {
            return Some(port_numbers(counts, &self.traffic[port as usize]));
        }
        Some(port_numbers(counts, &Traffic::NONE))
    }

    /// Whether the channels keep their traces.
    pub(crate) fn keeps_traces(&self) -> bool
        ensures { result ≡ self.now.world.keeps }
    {
        self.world.keeps_traces()
    }

    /// The commands of a channel so far, if there is such a channel. The traces are kept.
    pub(crate) fn commands(&self, channel: u32) -> Option<&[Entry]>
        requires { self.now.world.keeps ≡ true }
        ensures { option_copied result ≡ option_map (λ side. side.channel.trace) (slice_get self.now.world.channels channel) }
    {
        let channel = self.world.channel(channel)?;
        Some(channel.trace())
    }
}

/// In how many cycles of a channel writes were drained; 0 where there is no number of it.
fn drains_at(drains: &[u64], channel: u32) -> u64
    ensures { result ≡ drains_at drains.now channel }
{
    match drains.get(channel as usize) {
        Some(cycles) => *cycles,
        None => 0,
    }
}

/// A reply of a port without its bytes.
fn front_of(stamps: &Stamps, port: u32, reply: &Reply<'_>) -> Front
    ensures { result ≡ front_at stamps.now.accepted.items port reply.now }
{
    Front {
        number: reply.number,
        echo: reply.echo,
        length: reply.bytes.len(),
        accepted: stamps.at(port, reply.number),
        service: Service {
            issued: reply.issued,
            due: reply.due,
        },
    }
}
