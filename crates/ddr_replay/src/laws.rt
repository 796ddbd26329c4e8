//! What holds of the core's commands, for the proofs of those who note them.
//!
//! `ddr_world` stands below, and `replaying` above. Each function here is a law, and does nothing.
ghost use Rattle.std.specs.Prelude.{◌<◌, ℕ};
ghost use Rattle.ddr_replay.specs.Laws.{IsLegalAt};

use ddr_world::world::World;

/// The commands of each of so many channels are legal.
#[inline]
pub(crate) fn all_are_legal(world: &World, channels: u32)
    ensures { (c : ℕ) → c < channels → IsLegalAt world.now c }
{
    for channel in 0..channels {
        is_legal_at(world, channel);
    }
}

/// Those of the channel of that number are, if it is there.
#[inline]
fn is_legal_at(world: &World, number: u32)
    ensures { IsLegalAt world.now number }
{
    if let Some(channel) = world.channel(number) {
        channel.commands_are_legal();
        let _ = channel.now();
    }
}
