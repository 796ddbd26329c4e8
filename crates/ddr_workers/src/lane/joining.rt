//! How a queue ends: the put sides give their passes back, and what is left is popped.
ghost use Rattle.std.specs.Prelude.{◌≡◌, ℕ, [], map, slice_get, Some, vec_capacity};
ghost use Rattle.crossbeam_queue.specs.Passes.{view, IsPassOf, ruled_capacity};
ghost use Rattle.ddr_workers.specs.Law.{with_all_back, IsAtWork, HasAllBack, TellsTake};
ghost use Rattle.ddr_workers.specs.Sides.{PutSide};

use super::LanePut;
use super::steps::{Carries, GivesBack, LanePass, LaneQueue, Takes};
use std::sync::Wait;

/// Gives the passes of all put sides to the take side.
pub fn give_back<S: Copy + Drop, T: Drop, K: Carries<S, T>>(
    queue: &LaneQueue<S, T, K>,
    pass: &mut LanePass<S, T>,
    puts: Vec<LanePut<S, T, K>>,
)
    requires queue { IsPassOf queue.now pass.old }
    requires at_work { IsAtWork (view pass.old) }
    requires puts { (p : ℕ) (s : PutSide S T) → slice_get puts.items p ≡ Some s → (s.who.queue.table ≡ pass.old.table_id) × (s.who.source ≡ p) }
    ensures queue { IsPassOf queue.now pass.new }
    ensures back { view pass.new ≡ with_all_back (view pass.old) (map (λ s. s.put) puts.items) }
{
    for put in puts {
        let LanePut {
            lane: _,
            pass: other,
            source: _,
        } = put;
        queue.absorb::<GivesBack>(pass, other);
    }
}

/// Pops what is left, once no other side can push.
pub fn take_left<S: Copy + Drop, T: Drop, K: Carries<S, T>, R: Wait>(
    rt: &R,
    queue: &LaneQueue<S, T, K>,
    pass: &mut LanePass<S, T>,
    mut spare: Vec<T>,
) -> Vec<T>
    requires queue { IsPassOf queue.now pass.old }
    requires whole { HasAllBack (view pass.old) }
    requires spare { spare.items ≡ [] }
    requires room { vec_capacity spare ≡ ruled_capacity queue.now }
    ensures { TellsTake K.source K.proper (view pass.old) result.items }
{
    queue.len_as::<Takes<K>, R>(rt, pass);
    while let Some(item) = queue.pop_as::<Takes<K>, R>(rt, pass) {
        spare.push_reserved(item);
    }
    spare
}
