//! A put side of a queue.
ghost use Rattle.std.specs.Prelude.{◌≡◌, [], ◌∷◌, ◌++◌, OnOk, OnErr, IfErr};
ghost use Rattle.ddr_workers.specs.Sides.{after_push, after_full, WasFull};

use super::steps::{Carries, Lane, LanePass, Puts};
use crate::law::View;
use crossbeam_queue::protocol::Split;
use std::alloc::Global;
use std::marker::Model;
use std::sync::{Arc, Wait};

/// One of the put sides of a queue.
#[derive(Drop)]
pub struct LanePut<S, T, K: Carries<S, T>> {
    pub(super) lane: Arc<Lane<S, T, K>, Global>,
    pub(super) pass: LanePass<S, T>,
    pub(super) source: u32,
}

impl<S, T, K: Carries<S, T>> Model for LanePut<S, T, K> {
    // `view` is the word of a pass too.
    ghost use Rattle.std.specs.Prelude.{◌≡◌};
    ghost use Rattle.std.specs.Arc.{arc_value};
    ghost use Rattle.crossbeam_queue.specs.Passes.{view as known, IsPassOf, ruled_capacity};
    ghost use Rattle.ddr_workers.specs.Sides.{PutSide, put_side, put_view};

    ghost Value = { PutSide S T };

    ghost view = { λ s. put_side s.pass.table_id (ruled_capacity (arc_value s.lane).queue) (arc_value s.lane).purpose s.source (known s.pass) };

    ghost invariant = { λ s. let side = put_side s.pass.table_id (ruled_capacity (arc_value s.lane).queue) (arc_value s.lane).purpose s.source (known s.pass) in
        IsPassOf (arc_value s.lane).queue s.pass × (known s.pass ≡ put_view side) };
}

// A push that found the queue full. One function takes this step.
struct FoundFull;

impl<S, T> Split<View<S, T>> for FoundFull {
    ghost use Rattle.ddr_workers.specs.declared.law.View.TheVariants.{Gone};
    ghost use Rattle.ddr_workers.specs.Law.{with_full};

    ghost left = { with_full };

    ghost right = { λ v. Gone };
}

impl<S: Copy + Drop, T: Drop, K: Carries<S, T>> LanePut<S, T, K> {
    /// Which of the put sides it is, counted from 0.
    pub(crate) fn source(&self) -> u32
        ensures { result ≡ self.now.who.source }
    {
        self.source
    }

    /// Pushes an item of this side. Where the queue is full the item comes back.
    pub(crate) fn put<R: Wait>(&mut self, rt: &R, item: T) -> Result<(), T>
        requires own { K.source self.old.who.queue.purpose item ≡ self.old.who.source }
        requires proper { K.proper self.old.who.queue.purpose self.old.put → K.proper self.old.who.queue.purpose (self.old.put ++ item ∷ []) }
        ensures pushed { OnOk result (self.new ≡ after_push self.old item) }
        ensures back { IfErr result (λ x. x ≡ item) }
        ensures same { OnErr result (self.new ≡ after_full self.old) }
        ensures full { OnErr result (WasFull K.source K.proper self.old) }
        ensures who { self.new.who ≡ self.old.who }
    {
        match self
            .lane
            .queue
            .push_as::<Puts<K>, R>(rt, &mut self.pass, item)
        {
            Ok(()) => Ok(()),
            Err(item) => {
                let _spent = self.lane.queue.another::<FoundFull>(&mut self.pass);
                Err(item)
            }
        }
    }
}
