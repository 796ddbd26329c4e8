//! The pending requests in slots that they keep, and the slots in the order of admission.
ghost use Rattle.std.specs.Prelude.{◌≡◌, ℕ, ◌+◌, ◌<◌, ◌≤◌, [], ◌∷◌, ◌++◌, length, slice_get, slice_index, slice_set, remove, replicate, take, drop, map, Some, None, IfNone};
ghost use Rattle.std.specs.Option.{option_copied, option_flatten, option_map};
ghost use Rattle.arrayvec.specs.ArrayVec.{array_vec_len};
ghost use Rattle.ddr_hazards.specs.declared.slots.TheConstants.{CAPACITY};
ghost use Rattle.ddr_hazards.specs.Slots.{at, in_slots, is_line, lowered, taken, IsOrdered};

use crate::line::is_same_line;
use crate::pending::KIND_CAPACITY;
use crate::waiting::Waiting;
use arrayvec::ArrayVec;
use ddr_address_map::place::Place;

/// The places of a list: as many as the requests of both kinds may take.
pub(crate) const CAPACITY: usize = 2 * KIND_CAPACITY as usize;

/// The requests, which stay in their slots: only numbers of slots move.
#[derive(Drop)]
pub(crate) struct Slots {
    /// What each slot holds: nothing where it is free.
    pub cells: ArrayVec<Option<Waiting>, CAPACITY>,
    /// The slots of the requests, the oldest first, and the free ones behind them.
    pub order: [u8; CAPACITY],
    /// Where each slot stands in the order.
    pub places: [u8; CAPACITY],
    /// How many slots are taken.
    pub len: usize,
}

impl Slots {
    /// All slots are free.
    pub fn new() -> Slots
        ensures none { taken result ≡ [] }
        ensures ordered { IsOrdered result }
    {
        Slots {
            cells: empty_cells(),
            order: ascending(),
            places: ascending(),
            len: 0,
        }
    }

    /// The slot of the request at a place. `None` exactly where there is none.
    pub fn slot(&self, place: usize) -> Option<u8>
        requires { IsOrdered self.now }
        ensures { result ≡ slice_get (taken self.now) place }
    {
        if place < self.len {
            Some(self.order[place])
        } else {
            None
        }
    }

    /// The place of the request in a slot.
    pub fn place(&self, slot: u8) -> usize
        requires { slot < CAPACITY }
        ensures { result ≡ slice_index self.now.places slot }
    {
        self.places[slot as usize] as usize
    }

    /// What the slot holds.
    pub fn get(&self, slot: u8) -> Option<&Waiting>
        ensures { option_copied result ≡ at self.now slot }
    {
        match self.cells.as_slice().get(slot as usize) {
            Some(Some(waiting)) => Some(waiting),
            _ => None,
        }
    }

    /// Whether the slot holds a request to the line of the place.
    pub fn is_on_line(&self, slot: u8, place: Place) -> bool
        ensures { result ≡ is_line (at self.now) place slot }
    {
        match self.get(slot) {
            Some(waiting) => is_same_line(waiting.request.place, place),
            None => false,
        }
    }

    /// Puts the youngest request into a free slot, and says which.
    pub fn push(&mut self, waiting: Waiting) -> u8
        requires ordered { IsOrdered self.old }
        requires room { self.old.len < CAPACITY }
        ensures slot { result < CAPACITY }
        ensures order { taken self.new ≡ taken self.old ++ result ∷ [] }
        ensures held { in_slots self.new ≡ in_slots self.old ++ waiting ∷ [] }
        ensures one { at self.new result ≡ Some waiting }
        ensures others { (i : ℕ) (t : ℕ) → slice_get (taken self.old) i ≡ Some t → at self.new t ≡ at self.old t }
        ensures ordered { IsOrdered self.new }
    {
        let slot = self.order[self.len];
        fill(&mut self.cells, slot as usize, waiting);
        self.len += 1;
        slot
    }

    /// Takes the request at a place out of its slot. `None` exactly where there is none.
    pub fn remove(&mut self, place: usize) -> Option<(u8, Waiting)>
        requires { IsOrdered self.old }
        ensures slot { option_map (λ r. r.0) result ≡ slice_get (taken self.old) place }
        ensures request { option_map (λ r. r.1) result ≡ slice_get (in_slots self.old) place }
        ensures order { taken self.new ≡ remove (taken self.old) place }
        ensures held { in_slots self.new ≡ remove (in_slots self.old) place }
        ensures others { (i : ℕ) (t : ℕ) → slice_get (taken self.new) i ≡ Some t → at self.new t ≡ at self.old t }
        ensures none { IfNone result (self.new ≡ self.old) }
        ensures ordered { IsOrdered self.new }
    {
        let slot = self.slot(place)?;
        let Some(waiting) = empty(&mut self.cells, slot as usize) else {
            unreachable!();
        };
        to_end(&mut self.order, place);
        lower_above(&mut self.places, place as u8);
        self.places[slot as usize] = LAST;
        self.len -= 1;
        Some((slot, waiting))
    }
}

/// The last place of the order.
const LAST: u8 = CAPACITY as u8 - 1;

// As many cells as there may be, with nothing in them.
fn empty_cells() -> ArrayVec<Option<Waiting>, CAPACITY>
    ensures { result.items ≡ replicate CAPACITY None }
{
    let mut cells = ArrayVec::new();
    for _slot in 0..CAPACITY {
        cells.push(None);
    }
    cells
}

// The slots in the order of their numbers.
fn ascending() -> [u8; CAPACITY]
    ensures each { (k : ℕ) → k < CAPACITY → slice_index result k ≡ k }
    ensures len { length result ≡ CAPACITY }
{
    let mut slots = [0; CAPACITY];
    for slot in 0..CAPACITY {
        slots[slot] = slot as u8;
    }
    slots
}

// Puts a request into a cell.
fn fill(cells: &mut ArrayVec<Option<Waiting>, CAPACITY>, slot: usize, waiting: Waiting)
    requires { slot < array_vec_len cells.old }
    ensures { cells.new.items ≡ slice_set cells.old.items slot (Some waiting) }
{
    cells.as_mut_slice()[slot] = Some(waiting);
}

// Takes what is in a cell.
fn empty(cells: &mut ArrayVec<Option<Waiting>, CAPACITY>, slot: usize) -> Option<Waiting>
    requires { slot < array_vec_len cells.old }
    ensures value { result ≡ option_flatten (slice_get cells.old.items slot) }
    ensures after { cells.new.items ≡ slice_set cells.old.items slot None }
{
    cells.as_mut_slice()[slot].take()
}

// Puts the slot at a place behind all others.
fn to_end(order: &mut [u8; CAPACITY], place: usize)
    requires { place < CAPACITY }
    ensures { order.new ≡ take place order.old ++ (drop 1 (drop place order.old) ++ take 1 (drop place order.old)) }
{
    order[place..].rotate_left(1);
}

// Lowers the places above this one.
fn lower_above(places: &mut [u8; CAPACITY], place: u8)
    ensures { places.new ≡ map (lowered place) places.old }
{
    for it in places.iter_mut() {
        *it = lowered(place, *it);
    }
}

// A place after the removal of a lower one.
fn lowered(place: u8, it: u8) -> u8
    ensures { result ≡ lowered place it }
{
    if it > place { it - 1 } else { it }
}
