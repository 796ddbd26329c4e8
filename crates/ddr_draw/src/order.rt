//! Changes in the order of their cycles.
//!
//! `change` stands below, and `waves` above.
ghost use Rattle.std.specs.Prelude.{◌≡◌, OnOk};
ghost use Rattle.std.specs.List.Sorted.{IsNonDecreasingBy, IsPermutation};
ghost use Rattle.ddr_draw.specs.Order.{in_order};

use crate::change::Change;
use std::alloc::AllocError;

/// Puts the changes in the order of their cycles, those of one cycle as they stood.
pub(crate) fn put_in_order(changes: &mut Vec<Change>) -> Result<(), AllocError>
    ensures ordered { OnOk result (changes.new.items ≡ in_order changes.old.items) }
    ensures same { IsPermutation changes.old.items changes.new.items }
    ensures rising { OnOk result (IsNonDecreasingBy (λ change. change.cycle) changes.new.items) }
{
    changes.sort_by_key(|change| change.cycle)
}
