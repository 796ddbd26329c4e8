//! The numbers of requests that are noted one after another, in memory that doesn't grow.
//!
//! `usage`, `spread` and `ddr_past` stand below, and `text` above.
ghost use Rattle.std.specs.Prelude.{◌≡◌, [], ◌∷◌, ◌++◌, IfOk};
ghost use Rattle.ddr_measure.specs.Spreads.{spreads_of};
ghost use Rattle.ddr_measure.specs.Usages.{usage_of};

use crate::group::Group;
use crate::spread::{Spread, no_spreads, note_all};
use crate::timed::Timed;
use crate::usage::Usage;
use ddr_past::past::Past;
use std::alloc::{AllocError, Global};
use std::marker::Model;

/// The numbers of the requests that were noted, none of which is kept. Contracts see these requests, first to last.
#[derive(Drop)]
pub struct Measured {
    past: Past<Timed>,
    usage: Usage,
    spreads: Vec<Spread>,
}

impl Model for Measured {
    ghost use Rattle.std.specs.Prelude.{List};
    ghost use Rattle.ddr_measure.specs.declared.timed.Timed.{Timed};

    ghost Value = { List Timed };

    ghost use Rattle.ddr_measure.specs.Measured.{IsMeasured};

    ghost view = { λ a. a.past.items };

    ghost invariant = { IsMeasured };
}

impl Measured {
    /// Of no request. All memory that it ever takes is taken here.
    pub fn new(alloc: Global) -> Result<Measured, AllocError>
        ensures { IfOk result (λ requests. requests ≡ []) }
    {
        Ok(Measured {
            past: Past::new(),
            usage: Usage::NONE,
            spreads: no_spreads(alloc, Group::ALL.as_slice())?,
        })
    }

    /// Notes a request behind the others.
    pub fn note(&mut self, request: &Timed)
        ensures { self.new ≡ self.old ++ request.now ∷ [] }
    {
        self.past = self.past.and(request);
        self.usage.note(request);
        note_all(self.spreads.as_mut_slice(), request);
    }

    /// What they used.
    pub(crate) fn usage(&self) -> &Usage
        ensures { result.now ≡ usage_of self.now }
    {
        &self.usage
    }

    /// How long they took, of each group and span.
    pub(crate) fn spreads(&self) -> &[Spread]
        ensures { result.now ≡ spreads_of self.now }
    {
        self.spreads.as_slice()
    }
}
