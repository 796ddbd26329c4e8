//! Who is told what comes of rounds.
//!
//! `told` stands below, and the calls of this crate above, each of which says what it told. A watcher is told and asked for nothing,
//! so the core does the same whoever watches it.
ghost use Rattle.std.specs.Prelude.{◌≡◌};

use crate::told::Told;

/// A watcher of rounds.
pub trait Watcher {
    ghost use Rattle.ddr_rounds.specs.declared.told.Told.{Told};

    /// What a watcher becomes by what it is told.
    ghost hears: { Self → Told → Self };

    /// Is told this.
    fn hear(&mut self, told: Told)
        ensures { self.new ≡ hears self.old told };
}

/// Nobody watches.
impl Watcher for () {
    ghost hears = { λ nobody told. nobody };

    #[inline(always)]
    fn hear(&mut self, _told: Told) {}
}
