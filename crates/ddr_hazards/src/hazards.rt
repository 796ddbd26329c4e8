//! How many older requests to a line there are.
ghost use Rattle.std.specs.Prelude.{◌≡◌, ◌<◌, All, count_by, length};
ghost use Rattle.std.specs.List.{position_or_len};
ghost use Rattle.std.specs.Prelude.{◌==◌};
ghost use Rattle.ddr_hazards.specs.declared.slots.TheConstants.{CAPACITY};
ghost use Rattle.ddr_hazards.specs.Slots.{at, count_less, is_line};

use crate::slots::{CAPACITY, Slots};
use ddr_address_map::place::Place;

/// How many of the slots hold a request to the line of the place.
pub(crate) fn count_line(slots: &Slots, among: &[u8], place: Place) -> usize
    ensures { result ≡ count_by (is_line (at slots.now) place) among.now }
{
    among
        .iter()
        .filter(|slot| slots.is_on_line(**slot, place))
        .count()
}

/// Counts one older request less for each of the slots that holds a request to the line of the place.
pub(crate) fn count_less(hazards: &mut [u8; CAPACITY], slots: &Slots, behind: &[u8], place: Place)
    requires { All (λ slot. slot < CAPACITY) behind.now }
    ensures { hazards.new ≡ count_less (is_line (at slots.now) place) behind.now hazards.old }
{
    for slot in behind {
        if slots.is_on_line(*slot, place) {
            let slot = *slot as usize;
            hazards[slot] = hazards[slot].saturating_sub(1);
        }
    }
}

/// Where the slot stands in a list, or the list's length.
pub(crate) fn position(slots: &[u8], slot: u8) -> usize
    ensures { result ≡ position_or_len (λ t. t == slot) slots.now }
{
    for (index, it) in slots.iter().enumerate() {
        if *it == slot {
            return index;
        }
    }
    slots.len()
}
