//! Events that are made until they are refused.
//!
//! `ddr_world` stands below, and `channels` and `ports` above.
ghost use Rattle.std.specs.Prelude.{◌≡◌, IsTrue, is_ok};
ghost use Rattle.ddr_world.specs.Events.{event_of};
ghost use Rattle.ddr_world.specs.Kept.{state_of};
ghost use Rattle.ddr_world.specs.Step.{step};
ghost use Rattle.ddr_rounds.specs.Continues.{Continues};
ghost use Rattle.ddr_rounds.specs.Rounds.{is_popping, outstanding, until_refused};

use ddr_world::event::Event;
use ddr_world::world::World;

/// Makes an event that pops something until it is refused, and tells whether it was made at all.
#[inline(always)]
pub(crate) fn repeat(world: &mut World, event: Event<'_>) -> bool
    requires { IsTrue (is_popping (event_of event)) }
    ensures state { state_of world.new ≡ until_refused (event_of event.entry) (state_of world.old) }
    ensures some { result ≡ is_ok (step (state_of world.old) (event_of event.entry)) }
    ensures outstanding { outstanding (state_of world.new) ≡ outstanding (state_of world.old) }
    ensures config { world.new.config ≡ world.old.config }
    ensures keeps { world.new.keeps ≡ world.old.keeps }
    ensures continues { Continues world.old world.new }
{
    let mut some = false;
    'items: while world.step(event).is_ok() {
        some = true;
    }
    some
}
