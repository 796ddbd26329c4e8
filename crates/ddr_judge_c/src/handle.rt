//! A box that C can hold as a pointer, or nothing. Contracts see the judge that it holds.
//!
//! `ddr_loose` stands below, whose `proofs/Handles.antt` has the proofs of the three functions, and `slot` above. The pointer that C sees
//! has no type, since no pointer to a vector may cross; and the struct has no type parameter, since none such may cross either.
ghost use Rattle.std.specs.Prelude.{◌≡◌, true, IsSome, None, Option, Some};
ghost use Rattle.std.specs.Coded.{coded_option};
ghost use Rattle.ddr_loose.specs.Held.{held};
ghost use Rattle.ddr_judge_c.specs.contracts.judge.Judge.{the_row};
ghost use Rattle.ddr_judge_c.specs.declared.judge.Judge.{Judge};

use crate::judge::Judge;
use ddr_loose::loose::Loose;
use std::alloc::Global;
use std::marker::Model;

/// A pointer to the block of a judge, or none.
#[repr(C)]
#[derive(Drop)]
pub struct Handle {
    at: *mut (),
    alloc: Global,
    pub ghost holds: { Option Judge } by { coded_option the_row.coded },
}

impl Model for Handle {
    ghost also_owns = { λ h. held the_row h.holds h.alloc h.at };
}

impl Handle {
    /// Holds nothing.
    pub(crate) fn empty(alloc: Global) -> Handle
        ensures { result.holds ≡ None }
    {
        Handle {
            at: std::ptr::null_mut(),
            alloc,
        }
    }

    /// Holds the judge of a box.
    pub(crate) fn of(loose: Loose<Judge, Global>) -> Handle
        ensures { result.holds ≡ Some loose.value }
    {
        let Loose { at, alloc } = loose;
        Handle {
            at: at as *mut (),
            alloc,
        }
    }

    /// The box of the judge that it holds.
    pub(crate) fn into_loose(self) -> Loose<Judge, Global>
        requires { IsSome self.holds }
        ensures { self.holds ≡ Some result.value }
    {
        let Handle { at, alloc } = self;
        Loose {
            at: at as *mut Judge,
            alloc,
        }
    }
}
