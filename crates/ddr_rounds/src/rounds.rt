//! Rounds of the core, one after another, in which its ports collect and give up nothing, and quiet ones at once.
//!
//! `channels`, `ports` and `ddr_world` stand below, and the crates above this one above.
ghost use Rattle.std.specs.Prelude.{◌≡◌, ◌+◌, ◌<◌, ◌≤◌, ℕ, IfErr, IfNone, IfOk, IfSome, OnOk, Some};
ghost use Rattle.ddr_world.specs.Kept.{state_of};
ghost use Rattle.ddr_world.specs.Quiet.{IsQuiet, passed};
ghost use Rattle.ddr_rounds.specs.Continues.{Continues};
ghost use Rattle.ddr_rounds.specs.Drains.{AreRaised, counted_in, drained};
ghost use Rattle.ddr_rounds.specs.Rounds.{IsRefusedBehind, IsRoundRefused, IsStopped, round, rounds};
ghost use Rattle.ddr_rounds.specs.Telling.{IsHeard};

use crate::channels::serve_channels;
use crate::drains::count_drains;
use crate::ports::collect_ports;
use crate::told::Told;
use crate::watcher::Watcher;
use ddr_world::event::Refusal;
use ddr_world::world::World;

/// How many rounds were made, and why no more.
#[derive(Clone, Copy, Debug, PartialEq, Eq)]
pub struct Rounds {
    pub made: u64,
    pub stopped: Option<Refusal>,
}

/// Makes rounds until so many are made or one is refused. Quiet ones are made at once. `ports` and `channels` are how many
/// the core has. Of each channel, `drains` counts the cycles of these rounds in which writes were drained.
///
/// A round is refused as `OutOfMemory` or as `ClockSpent`.
pub fn make_rounds<W: Watcher>(
    world: &mut World,
    ports: u32,
    channels: u32,
    count: u64,
    watcher: &mut W,
    drains: &mut [u64],
) -> Rounds
    requires ports { ports ≡ world.old.config.limits.ports }
    requires channels { channels ≡ world.old.config.geometry.channels }
    ensures made { IfNone result.stopped ((result.made ≡ count) × (rounds world.old.config count (state_of world.old) ≡ Some (state_of world.new))) }
    ensures stopped { IfSome result.stopped (λ cause. (result.made < count) × IsStopped cause (rounds world.old.config (result.made + 1) (state_of world.old))) }
    ensures refused { IfSome result.stopped (λ cause. IsRefusedBehind cause world.old.config result.made (state_of world.old) (state_of world.new)) }
    ensures heard { IsHeard W.hears watcher.old watcher.new (state_of world.old) (state_of world.new) }
    ensures drains { AreRaised channels (drained world.old.config result.made (state_of world.old)) drains.old drains.new }
    ensures config { world.new.config ≡ world.old.config }
    ensures keeps { world.new.keeps ≡ world.old.keeps }
    ensures continues { Continues world.old world.new }
{
    let mut made = 0u64;
    'rounds: while made < count {
        match advance(world, ports, channels, count - made, watcher) {
            Ok(more) => {
                count_drains(world, channels, more, drains);
                made += more;
            }
            Err(cause) => {
                return Rounds {
                    made,
                    stopped: Some(cause),
                };
            }
        }
    }
    Rounds {
        made,
        stopped: None,
    }
}

/// Makes one round, or as many quiet ones as there are, but no more than `most`. Tells how many.
fn advance<W: Watcher>(
    world: &mut World,
    ports: u32,
    channels: u32,
    most: u64,
    watcher: &mut W,
) -> Result<u64, Refusal>
    requires most { 0 < most }
    requires ports { ports ≡ world.old.config.limits.ports }
    requires channels { channels ≡ world.old.config.geometry.channels }
    ensures some { IfOk result (λ made. (0 < made) × (made ≤ most)) }
    ensures made { IfOk result (λ made. rounds world.old.config made (state_of world.old) ≡ Some (state_of world.new)) }
    ensures steady { IfOk result (λ made. (c : ℕ) → drained world.old.config made (state_of world.old) c ≡ counted_in made (state_of world.new) c) }
    ensures stopped { IfErr result (λ cause. IsStopped cause (round world.old.config (state_of world.old))) }
    ensures refused { IfErr result (λ cause. IsRoundRefused cause world.old.config (state_of world.old) (state_of world.new)) }
    ensures heard { IsHeard W.hears watcher.old watcher.new (state_of world.old) (state_of world.new) }
    ensures config { world.new.config ≡ world.old.config }
    ensures keeps { world.new.keeps ≡ world.old.keeps }
    ensures continues { Continues world.old world.new }
{
    let quiet = world.still().min(most);
    if quiet == 0 {
        make_round(world, ports, channels, watcher)?;
        return Ok(1);
    }
    pass(world, quiet, watcher);
    Ok(quiet)
}

/// Makes a round: each channel's part in order, then each port's. `ports` and `channels` are how many the core has.
pub fn make_round<W: Watcher>(
    world: &mut World,
    ports: u32,
    channels: u32,
    watcher: &mut W,
) -> Result<(), Refusal>
    requires ports { ports ≡ world.old.config.limits.ports }
    requires channels { channels ≡ world.old.config.geometry.channels }
    ensures made { OnOk result (round world.old.config (state_of world.old) ≡ Some (state_of world.new)) }
    ensures stopped { IfErr result (λ cause. IsStopped cause (round world.old.config (state_of world.old))) }
    ensures refused { IfErr result (λ cause. IsRoundRefused cause world.old.config (state_of world.old) (state_of world.new)) }
    ensures heard { IsHeard W.hears watcher.old watcher.new (state_of world.old) (state_of world.new) }
    ensures config { world.new.config ≡ world.old.config }
    ensures keeps { world.new.keeps ≡ world.old.keeps }
    ensures continues { Continues world.old world.new }
{
    serve_channels(world, channels, watcher)?;
    collect_ports(world, ports);
    Ok(())
}

/// Makes so many quiet rounds at once. The watcher is told how many.
#[inline]
pub fn pass<W: Watcher>(world: &mut World, count: u64, watcher: &mut W)
    requires { IsQuiet count (state_of world.old) }
    ensures state { state_of world.new ≡ passed count (state_of world.old) }
    ensures told { watcher.new ≡ W.hears watcher.old (Told.Passed count) }
    ensures heard { IsHeard W.hears watcher.old watcher.new (state_of world.old) (state_of world.new) }
    ensures config { world.new.config ≡ world.old.config }
    ensures keeps { world.new.keeps ≡ world.old.keeps }
    ensures continues { Continues world.old world.new }
{
    world.pass(count);
    watcher.hear(Told::Passed { rounds: count });
}
