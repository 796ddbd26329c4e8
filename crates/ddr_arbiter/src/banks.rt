//! The banks of a channel as places of a table.
ghost use Rattle.std.specs.Prelude.{◌≡◌};
ghost use Rattle.ddr_hazards.specs.Banks.{bank_number};

use ddr_address_map::place::Place;
use ddr_timing::bank::BankId;
use ddr_timing::units::{GROUP_BANKS, MOST_GROUPS, MOST_RANKS};

/// The banks that a channel may have.
pub(crate) const BANKS: usize = (MOST_RANKS * MOST_GROUPS * GROUP_BANKS) as usize;

/// The number of the place's bank among those of all ranks.
pub(crate) fn bank_number(place: Place) -> usize
    ensures { result ≡ bank_number place }
{
    let Place {
        rank,
        group,
        bank,
        ..
    } = place;
    BankId { rank, group, bank }.widest_number()
}
