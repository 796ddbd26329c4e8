//! The channels' part of a round.
//!
//! `events`, `watcher` and `ddr_world` stand below, and `rounds` and the crates above this one above.
ghost use Rattle.std.specs.Prelude.{◌≡◌, ◌++◌, ℕ, IfErr, OnOk, Some, fold};
ghost use Rattle.ddr_world.specs.Kept.{state_of};
ghost use Rattle.ddr_world.specs.Promise.{trace_at};
ghost use Rattle.ddr_rounds.specs.Continues.{Continues};
ghost use Rattle.ddr_rounds.specs.Rounds.{IsCycleRefused, IsPartRefused, IsStopped, channel_served, channels_served, outstanding};
ghost use Rattle.ddr_rounds.specs.Telling.{IsHeard, channel_told, channels_told, entries_told, issue_told};

use crate::events::repeat;
use crate::told::Told;
use crate::watcher::Watcher;
use ddr_channel::issued::Issued;
use ddr_world::event::{Event, Refusal};
use ddr_world::world::World;

/// The parts of the first so many channels, in order. The watcher is told each command that is issued.
///
/// Fails as `OutOfMemory`, as `ClockSpent`, and as `NoSuch` where there are fewer channels.
#[inline(always)]
pub fn serve_channels<W: Watcher>(
    world: &mut World,
    channels: u32,
    watcher: &mut W,
) -> Result<(), Refusal>
    ensures served { OnOk result (channels_served channels (state_of world.old) ≡ Some (state_of world.new)) }
    ensures stopped { IfErr result (λ cause. IsStopped cause (channels_served channels (state_of world.old))) }
    ensures refused { IfErr result (λ cause. IsPartRefused cause channels (state_of world.old) (state_of world.new)) }
    ensures told { OnOk result (watcher.new ≡ fold W.hears watcher.old (channels_told channels (state_of world.old))) }
    ensures trace { OnOk result ((c : ℕ) → trace_at (state_of world.new) c ≡ trace_at (state_of world.old) c ++ entries_told c (channels_told channels (state_of world.old))) }
    ensures heard { IsHeard W.hears watcher.old watcher.new (state_of world.old) (state_of world.new) }
    ensures outstanding { outstanding (state_of world.new) ≡ outstanding (state_of world.old) }
    ensures config { world.new.config ≡ world.old.config }
    ensures keeps { world.new.keeps ≡ world.old.keeps }
    ensures continues { Continues world.old world.new }
{
    for channel in 0..channels {
        serve_channel(world, channel, watcher)?;
    }
    Ok(())
}

/// A channel's part of a round: it takes what there is room for, makes a cycle, and delivers what is done.
#[inline(always)]
fn serve_channel<W: Watcher>(
    world: &mut World,
    channel: u32,
    watcher: &mut W,
) -> Result<(), Refusal>
    ensures served { OnOk result (channel_served channel (state_of world.old) ≡ Some (state_of world.new)) }
    ensures stopped { IfErr result (λ cause. IsStopped cause (channel_served channel (state_of world.old))) }
    ensures refused { IfErr result (λ cause. IsCycleRefused cause channel (state_of world.old) (state_of world.new)) }
    ensures told { OnOk result (watcher.new ≡ fold W.hears watcher.old (channel_told channel (state_of world.old))) }
    ensures heard { IsHeard W.hears watcher.old watcher.new (state_of world.old) (state_of world.new) }
    ensures outstanding { outstanding (state_of world.new) ≡ outstanding (state_of world.old) }
    ensures config { world.new.config ≡ world.old.config }
    ensures keeps { world.new.keeps ≡ world.old.keeps }
    ensures continues { Continues world.old world.new }
{
    let _ = repeat(world, Event::Take(channel));
    let issued = world.cycle(channel)?;
    tell(watcher, channel, issued);
    let _ = repeat(world, Event::Deliver(channel));
    Ok(())
}

/// Tells the watcher what a channel issued, if it issued something.
#[inline(always)]
fn tell<W: Watcher>(watcher: &mut W, channel: u32, issued: Option<Issued>)
    ensures { watcher.new ≡ fold W.hears watcher.old (issue_told channel issued) }
{
    if let Some(issued) = issued {
        watcher.hear(Told::Issued { channel, issued });
    }
}
