//! The rule of a queue, and its kinds of step. Nothing here runs.
ghost use Rattle.std.specs.Prelude.{◌≡◌, [], Some};
ghost use Rattle.crossbeam_queue.specs.Passes.{view, IsPassOf};
ghost use Rattle.ddr_workers.specs.declared.law.View.TheVariants.{Unset, Take};
ghost use Rattle.ddr_workers.specs.Law.{new_taking};

use crate::law::View;
use crossbeam_queue::protocol::{Join, Lesson, Outcome, Protocol, Split};
use crossbeam_queue::{Pass, RuledArrayQueue};
use std::marker::{Brand, PhantomData};

/// What goes through a queue of items `T` that is opened for a purpose `S`.
pub trait Carries<S, T> {
    ghost use Rattle.std.specs.Prelude.{ℕ, List};

    /// The number of the put side that an item comes from.
    ghost source: { S → T → ℕ };

    /// What each put side keeps of the list that it pushes.
    ghost proper: { S → List T → Type 0 };
}

pub type LaneQueue<S, T, K> = RuledArrayQueue<T, View<S, T>, LaneLaw<K>>;

pub type LanePass<S, T> = Pass<T, View<S, T>>;

/// A queue and what it was opened for, which all its sides share.
#[derive(Drop)]
pub struct Lane<S, T, K: Carries<S, T>> {
    pub queue: LaneQueue<S, T, K>,
    pub purpose: S,
}

pub struct LaneLaw<K> {
    of: PhantomData<K>,
}

impl<S, T, K: Carries<S, T>> Protocol<T, View<S, T>> for LaneLaw<K> {
    ghost use Rattle.ddr_workers.specs.declared.law.View.TheVariants.{Unset};
    ghost use Rattle.ddr_workers.specs.Law.{Ruled};

    ghost holds = { Ruled K.source K.proper };

    ghost first = { Unset };
}

/// A queue's purpose and how many put sides it has, which the proof of a call picks.
pub trait Told<S> {
    ghost use Rattle.std.specs.Prelude.{ℕ, Option};

    ghost purpose: { Option S };

    ghost sides: { ℕ };
}

impl<S> Told<S> for Brand {
    ghost use Rattle.std.specs.Prelude.{None};

    ghost purpose = { None };

    ghost sides = { 0 };
}

/// The queue is told its purpose and its sides: its first pass is the take side's from then on.
pub struct Sets<P> {
    of: PhantomData<P>,
}

impl<S, T, P: Told<S>> Split<View<S, T>> for Sets<P> {
    ghost use Rattle.ddr_workers.specs.declared.law.View.TheVariants.{Gone};
    ghost use Rattle.ddr_workers.specs.Law.{first_view};

    ghost left = { λ v. first_view P.purpose P.sides };

    ghost right = { λ v. Gone };
}

/// The take side makes the next put side.
pub struct NextSide;

impl<S, T> Split<View<S, T>> for NextSide {
    ghost use Rattle.ddr_workers.specs.Law.{with_another, another};

    ghost left = { with_another };

    ghost right = { another };
}

/// A push.
pub struct Puts<K> {
    of: PhantomData<K>,
}

impl<S, T, K: Carries<S, T>> Outcome<T, View<S, T>> for Puts<K> {
    ghost use Rattle.std.specs.Prelude.{◌≡◌};
    ghost use Rattle.ddr_workers.specs.Law.{with_put};

    ghost then = { λ v x w. w ≡ with_put v x };
}

impl<S, T, K: Carries<S, T>> Lesson<T, View<S, T>> for Puts<K> {
    ghost use Rattle.ddr_workers.specs.Law.{TellsPut};

    ghost fact = { TellsPut K.source K.proper };
}

/// A pop.
pub struct Takes<K> {
    of: PhantomData<K>,
}

impl<S, T, K: Carries<S, T>> Outcome<T, View<S, T>> for Takes<K> {
    ghost use Rattle.std.specs.Prelude.{◌≡◌, List, ◌∷◌};
    ghost use Rattle.ddr_workers.specs.Law.{with_taken, TellsTake};

    ghost then = { λ v x w. (w ≡ with_taken v x) × ((rest : List T) × TellsTake K.source K.proper v (x ∷ rest)) };
}

impl<S, T, K: Carries<S, T>> Lesson<T, View<S, T>> for Takes<K> {
    ghost use Rattle.ddr_workers.specs.Law.{TellsTake};

    ghost fact = { TellsTake K.source K.proper };
}

/// A put side gives its pass back to the take side.
pub struct GivesBack;

impl<S, T> Join<View<S, T>> for GivesBack {
    ghost use Rattle.ddr_workers.specs.declared.law.View.TheVariants.{Gone};
    ghost use Rattle.ddr_workers.specs.Law.{with_back};

    ghost both = { with_back };

    ghost spent = { Gone };
}

/// Tells a new queue its purpose, and how many put sides it has. Its first pass becomes the take side's.
pub fn set_purpose<S: Copy + Drop, T: Drop, K: Carries<S, T>, P: Told<S>>(
    queue: &LaneQueue<S, T, K>,
    mut pass: LanePass<S, T>,
    purpose: S,
    sides: u32,
) -> LanePass<S, T>
    requires queue { IsPassOf queue.now pass }
    requires fresh { view pass ≡ Unset }
    requires nothing { K.proper purpose [] }
    requires purpose { P.purpose ≡ Some purpose }
    requires sides { P.sides ≡ sides }
    ensures queue { IsPassOf queue.now result }
    ensures told { view result ≡ Take (new_taking purpose sides) }
{
    let _ = purpose;
    let _ = sides;
    let _spent = queue.another::<Sets<P>>(&mut pass);
    pass
}
