//! A channel with its request queue.
ghost use Rattle.std.specs.Prelude.{◌≡◌, ◌<◌, ◌≤◌, ◌↔◌, true, false, length, slice_get, IfErr, IfOk, IsTrue, OnErr, OnOk, Some, Ok, Err};
ghost use Rattle.std.specs.Option.{option_map};
ghost use Rattle.ddr_timing.specs.declared.units.TheConstants.{CLOCK_STOP};
ghost use Rattle.ddr_channel.specs.Kept as kept;
ghost use Rattle.ddr_channel.specs.Quiet.{IsQuiet};
ghost use Rattle.ddr_channel.specs.Room.{wants_memory};
ghost use Rattle.ddr_channel.specs.State as channel_state;
ghost use Rattle.ddr_world.specs.declared.event.Refusal.TheVariants.{OutOfMemory};
ghost use Rattle.ddr_world.specs.Close.{kept_trace};
ghost use Rattle.ddr_world.specs.Kept.{opened_with, side_of};
ghost use Rattle.ddr_world.specs.Quiet.{IsQuietSide, side_passed};
ghost use Rattle.ddr_world.specs.State.{IsChannelDrained, is_busy, opened_channel};
ghost use Rattle.ddr_world.specs.Step.{IsRefusedFor, cycled, queued, sent, taken};
ghost use Rattle.ddr_world.specs.Told.{Tells};
ghost use Rattle.ddr_world.specs.View.{IsServedItem};

use crate::event::Refusal;
use crate::item::Item;
use circular_buffer::HeapCircularBuffer;
use ddr_address_map::request::Done;
use ddr_channel::channel::Channel;
use ddr_channel::issued::Issued;
use ddr_timing::config::Config;
use ddr_timing::units::CLOCK_STOP;
use ddr_trace::trace::Trace;
use std::alloc::{AllocError, Global};
use std::marker::Model;

/// A channel, and what was pushed on its request queue and not taken.
#[derive(Drop)]
pub(crate) struct ChannelSide {
    channel: Channel,
    requests: HeapCircularBuffer<Item>,
    /// Of each port, whether its End was taken.
    noted: Vec<bool>,
}

impl Model for ChannelSide {
    ghost use Rattle.ddr_world.specs.Kept.{KeptSide};

    ghost Value = { KeptSide };

    ghost use Rattle.ddr_world.specs.View.{channel_of, IsChannelWhole};

    ghost view = { channel_of };

    ghost invariant = { IsChannelWhole };
}

impl ChannelSide {
    /// A channel that has made no cycle, with an empty queue. Its trace is kept, where `keeps` says so.
    pub(crate) fn open(
        alloc: Global,
        config: &Config,
        first_cycle: u64,
        keeps: bool,
    ) -> Result<ChannelSide, AllocError>
        requires { first_cycle ≤ CLOCK_STOP }
        ensures state { IfOk result (λ side. side_of side ≡ opened_channel config.now first_cycle) }
        ensures opened { IfOk result (λ side. opened_with side ≡ (config.now, keeps)) }
    {
        Ok(ChannelSide {
            channel: open_channel(alloc, config, first_cycle, keeps)?,
            requests: HeapCircularBuffer::with_capacity(alloc, config.limits.intake as usize)?,
            noted: vec![in alloc; false; config.limits.ports as usize]?,
        })
    }

    /// How many items wait in the request queue.
    pub(crate) fn waiting(&self) -> usize
        ensures { result ≡ length self.now.requests }
    {
        self.requests.len()
    }

    /// Whether the request queue holds as many items as it may.
    pub(crate) fn is_busy(&self) -> bool
        ensures { result ≡ is_busy (side_of self.now) }
    {
        self.requests.is_full()
    }

    /// Adds an item to the request queue, which has a free place.
    pub(crate) fn push(&mut self, item: Item)
        requires free { is_busy (side_of self.old) ≡ false }
        requires served { IsServedItem self.old.channel.config item }
        ensures state { side_of self.new ≡ queued item (side_of self.old) }
        ensures opened { opened_with self.new ≡ opened_with self.old }
    {
        let _ = self.requests.try_push_back(item);
    }

    /// Pops an item, where both queues of the channel have a free place: admits a request, notes an End.
    #[inline(always)]
    pub(crate) fn take(&mut self) -> Result<(), Refusal>
        ensures ok { OnOk result (taken (side_of self.old) ≡ Ok (side_of self.new)) }
        ensures refused { IfErr result (λ cause. taken (side_of self.old) ≡ Err cause) }
        ensures err { OnErr result (self.new ≡ self.old) }
        ensures opened { opened_with self.new ≡ opened_with self.old }
    {
        if self.requests.is_empty() {
            return Err(Refusal::Nothing);
        }
        if !self.channel.room() {
            return Err(Refusal::QueueFull);
        }
        let item = self.requests.pop_front().unwrap();
        item.take_in(&mut self.channel, self.noted.as_mut_slice());
        Ok(())
    }

    /// Makes a cycle, and tells what it issued. A refusal leaves the side in the state that it was in. Memory is asked for
    /// only where a command is issued for which there is no room.
    #[inline(always)]
    pub(crate) fn cycle(&mut self) -> Result<Option<Issued>, Refusal>
        ensures ok { OnOk result (cycled (side_of self.old) ≡ Ok (side_of self.new)) }
        ensures refused { IfErr result (λ cause. IsRefusedFor cause (cycled (side_of self.old))) }
        ensures memory { IfErr result (λ cause. cause ≡ OutOfMemory → IsTrue (wants_memory self.old.channel)) }
        ensures err { OnErr result (side_of self.new ≡ side_of self.old) }
        ensures opened { opened_with self.new ≡ opened_with self.old }
        ensures told { IfOk result (Tells self.old.channel self.new.channel) }
    {
        let issued = self.channel.cycle_observed()?;
        Ok(issued)
    }

    /// For how many cycles from now on nothing is to be taken, completed, issued or delivered, as long as no other call comes
    /// between: 0 where something waits in the queue or to be delivered. There may be more.
    pub(crate) fn still(&self) -> u64
        ensures { 0 < result → IsQuietSide result (side_of self.now) }
    {
        if !self.requests.is_empty() || self.channel.next_done().is_some() {
            return 0;
        }
        self.channel.still()
    }

    /// Makes so many quiet cycles of the channel at once.
    pub(crate) fn pass(&mut self, count: u64)
        requires { IsQuiet count (kept.state_of self.old.channel) }
        ensures state { side_of self.new ≡ side_passed count (side_of self.old) }
        ensures opened { opened_with self.new ≡ opened_with self.old }
    {
        self.channel.pass(count);
    }

    /// The port that the oldest completion is for, if one is done.
    #[inline(always)]
    pub(crate) fn next_port(&self) -> Option<u32>
        ensures { result ≡ option_map (λ d. d.port) (slice_get self.now.channel.done 0) }
    {
        let done = self.channel.next_done()?;
        Some(done.port)
    }

    /// Takes the completion that was done first.
    pub(crate) fn pop_done(&mut self) -> Option<Done>
        ensures first { result ≡ slice_get self.old.channel.done 0 }
        ensures rest { side_of self.new ≡ sent (side_of self.old) }
        ensures opened { opened_with self.new ≡ opened_with self.old }
    {
        self.channel.pop_done()
    }

    /// Whether nothing is left in the queue or in the channel, and every End was taken.
    pub(crate) fn is_drained(&self) -> bool
        ensures { IsTrue result ↔ IsChannelDrained (side_of self.now) }
    {
        self.requests.is_empty() && self.channel.is_empty() && self.noted.iter().all(|ended| *ended)
    }

    /// The channel itself.
    pub(crate) fn channel(&self) -> &Channel
        ensures { result.now ≡ self.now.channel }
    {
        &self.channel
    }

    /// The commands of the channel, where it keeps them. The side is given up.
    pub(crate) fn into_trace(self) -> Option<Trace>
        ensures { result ≡ kept_trace self }
    {
        let ChannelSide {
            channel,
            requests: _,
            noted: _,
        } = self;
        if !channel.keeps_trace() {
            return None;
        }
        Some(channel.into_trace())
    }
}

/// A channel that has made no cycle, with or without its trace.
fn open_channel(
    alloc: Global,
    config: &Config,
    first_cycle: u64,
    keeps: bool,
) -> Result<Channel, AllocError>
    requires { first_cycle ≤ CLOCK_STOP }
    ensures state { IfOk result (λ c. kept.state_of c ≡ channel_state.opened config.now first_cycle) }
    ensures config { IfOk result (λ c. c.config ≡ config.now) }
    ensures keeps { IfOk result (λ c. c.keeps ≡ keeps) }
{
    if keeps {
        Channel::open(alloc, config, first_cycle)
    } else {
        Channel::open_without_trace(alloc, config, first_cycle)
    }
}
