//! The requests of each bank.
ghost use Rattle.std.specs.Prelude.{◌≡◌, ℕ, ◌+◌, ◌<◌, ◌≤◌, ◌∷◌, ◌++◌, [], length, drop, slice_get, remove};
ghost use Rattle.ddr_timing.specs.declared.units.TheConstants.{GROUP_BANKS, MOST_GROUPS};
ghost use Rattle.ddr_hazards.specs.declared.banks.TheConstants.{BANKS};
ghost use Rattle.ddr_hazards.specs.declared.slots.TheConstants.{CAPACITY};
ghost use Rattle.ddr_hazards.specs.Banks.{bank_number, bank_slots, number, with_slots};

use crate::slots::CAPACITY;
use arrayvec::ArrayVec;
use ddr_address_map::place::Place;
use ddr_timing::bank::BankId;
use ddr_timing::units::{GROUP_BANKS, MOST_GROUPS, MOST_RANKS};

/// The banks of all ranks.
const BANKS: usize = (MOST_RANKS * MOST_GROUPS * GROUP_BANKS) as usize;

/// Of each bank, the slots of its requests, the oldest first.
#[derive(Drop)]
pub(crate) struct Banks {
    pub lists: [ArrayVec<u8, CAPACITY>; BANKS],
}

impl Banks {
    /// No bank has a request.
    pub fn new() -> Banks
        ensures none { (bank : ℕ) → bank_slots result.lists bank ≡ [] }
        ensures len { length result.lists ≡ BANKS }
    {
        Banks {
            lists: Default::default(),
        }
    }

    /// The slots of a bank's requests.
    pub fn slots(&self, bank: usize) -> &[u8]
        requires { bank < BANKS }
        ensures { result.now ≡ bank_slots self.now.lists bank }
    {
        self.lists[bank].as_slice()
    }

    /// The slot at an index of a bank's list. `None` exactly where it is shorter.
    pub fn slot(&self, bank: usize, index: usize) -> Option<u8>
        requires { bank < BANKS }
        ensures { result ≡ slice_get (bank_slots self.now.lists bank) index }
    {
        let slots = self.slots(bank);
        if index < slots.len() {
            Some(slots[index])
        } else {
            None
        }
    }

    /// The slots of a bank's requests from an index of its list on.
    pub fn behind(&self, bank: usize, index: usize) -> &[u8]
        requires bank_in { bank < BANKS }
        requires index_in { index ≤ length (bank_slots self.now.lists bank) }
        ensures { result.now ≡ drop index (bank_slots self.now.lists bank) }
    {
        &self.slots(bank)[index..]
    }

    /// Puts the slot of the bank's youngest request behind the others.
    pub fn push(&mut self, bank: usize, slot: u8)
        requires bank_in { bank < BANKS }
        requires room { length (bank_slots self.old.lists bank) < CAPACITY }
        ensures { self.new.lists ≡ with_slots self.old.lists bank (bank_slots self.old.lists bank ++ slot ∷ []) }
    {
        self.lists[bank].push(slot);
    }

    /// Takes out the slot that stands at an index of the bank's list.
    pub fn remove(&mut self, bank: usize, index: usize)
        requires bank_in { bank < BANKS }
        requires index_in { index < length (bank_slots self.old.lists bank) }
        ensures { self.new.lists ≡ with_slots self.old.lists bank (remove (bank_slots self.old.lists bank) index) }
    {
        self.lists[bank].remove(index);
    }
}

/// The number of the place's bank among those of all ranks.
pub(crate) fn bank_number(place: Place) -> usize
    ensures { result ≡ bank_number place }
{
    number(place.rank, place.group, place.bank)
}

/// The number of a bank among those of all ranks.
pub(crate) fn number(rank: u32, group: u32, bank: u32) -> usize
    ensures { result ≡ number rank group bank }
{
    BankId { rank, group, bank }.widest_number()
}
