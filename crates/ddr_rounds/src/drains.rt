//! In how many cycles of each channel writes were drained.
//!
//! `ddr_world` stands below, and `rounds` above.
ghost use Rattle.std.specs.Prelude.{◌≡◌, ◌<◌, slice_index_or, slice_set};
ghost use Rattle.ddr_world.specs.Kept.{state_of};
ghost use Rattle.ddr_rounds.specs.Drains.{AreRaised, counted_in, is_draining, raised};

use ddr_world::world::World;

/// Counts so many cycles more of each of the first so many channels in which writes were drained in the last cycle, and so in all of them.
#[inline]
pub(crate) fn count_drains(world: &World, channels: u32, cycles: u64, drains: &mut [u64])
    requires { 0 < cycles }
    ensures { AreRaised channels (counted_in cycles (state_of world.now)) drains.old drains.new }
{
    for channel in 0..channels {
        if is_draining(world, channel) {
            raise(drains, channel, cycles);
        }
    }
}

/// Whether writes were drained in the last cycle of the channel of that number, if there is one.
#[inline]
fn is_draining(world: &World, channel: u32) -> bool
    ensures { result ≡ is_draining (state_of world.now) channel }
{
    match world.channel(channel) {
        Some(channel) => channel.is_draining(),
        None => false,
    }
}

/// Counts so many cycles more of a channel, if there is a number of it.
#[inline]
fn raise(drains: &mut [u64], channel: u32, cycles: u64)
    requires { 0 < cycles }
    ensures { drains.new ≡ slice_set drains.old channel (raised cycles (slice_index_or drains.old channel 0)) }
{
    if (channel as usize) < drains.len() {
        let before = drains[channel as usize];
        drains[channel as usize] = before.saturating_add(cycles);
    }
}
