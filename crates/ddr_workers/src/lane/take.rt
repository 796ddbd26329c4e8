//! The take side of a queue.
ghost use Rattle.std.specs.Prelude.{◌≡◌, IfSome, IfNone};
ghost use Rattle.ddr_workers.specs.Sides.{after_pop, after_empty, IsNext, WasEmpty};

use super::steps::{Carries, Lane, LanePass, Takes};
use crate::law::View;
use crossbeam_queue::protocol::Split;
use std::alloc::Global;
use std::marker::Model;
use std::sync::{Arc, Wait};

/// The take side of a queue.
#[derive(Drop)]
pub struct LaneTake<S, T, K: Carries<S, T>> {
    pub(super) lane: Arc<Lane<S, T, K>, Global>,
    pub(super) pass: LanePass<S, T>,
    // Room for all that the queue may hold at its end.
    pub(super) spare: Vec<T>,
}

impl<S, T, K: Carries<S, T>> Model for LaneTake<S, T, K> {
    // `view` is the word of a pass too.
    ghost use Rattle.std.specs.Prelude.{◌≡◌, [], vec_capacity};
    ghost use Rattle.std.specs.Arc.{arc_value};
    ghost use Rattle.crossbeam_queue.specs.Passes.{view as known, IsPassOf, ruled_capacity};
    ghost use Rattle.ddr_workers.specs.Sides.{TakeSide, take_side, take_view};

    ghost Value = { TakeSide S T };

    ghost view = { λ s. take_side s.pass.table_id (ruled_capacity (arc_value s.lane).queue) (arc_value s.lane).purpose (known s.pass) };

    ghost invariant = { λ s. record {
      pass : IsPassOf (arc_value s.lane).queue s.pass;
      knows : known s.pass ≡ take_view (take_side s.pass.table_id (ruled_capacity (arc_value s.lane).queue) (arc_value s.lane).purpose (known s.pass));
      spare : s.spare.items ≡ [];
      room : vec_capacity s.spare ≡ ruled_capacity (arc_value s.lane).queue;
    } };
}

// A pop that found the queue empty. One function takes this step.
struct FoundEmpty;

impl<S, T> Split<View<S, T>> for FoundEmpty {
    ghost use Rattle.ddr_workers.specs.declared.law.View.TheVariants.{Gone};
    ghost use Rattle.ddr_workers.specs.Law.{with_empty};

    ghost left = { with_empty };

    ghost right = { λ v. Gone };
}

impl<S: Copy + Drop, T: Drop, K: Carries<S, T>> LaneTake<S, T, K> {
    /// Pops the oldest item that the queue holds.
    pub(crate) fn take<R: Wait>(&mut self, rt: &R) -> Option<T>
        ensures popped { IfSome result (λ x. self.new ≡ after_pop self.old x) }
        ensures next { IfSome result (IsNext K.source K.proper self.old) }
        ensures same { IfNone result (self.new ≡ after_empty self.old) }
        ensures empty { IfNone result (WasEmpty K.source K.proper self.old) }
        ensures who { self.new.who ≡ self.old.who }
    {
        match self.lane.queue.pop_as::<Takes<K>, R>(rt, &mut self.pass) {
            Some(item) => Some(item),
            None => {
                let _spent = self.lane.queue.another::<FoundEmpty>(&mut self.pass);
                None
            }
        }
    }
}
