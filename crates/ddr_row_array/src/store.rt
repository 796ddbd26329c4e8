//! The stored rows, and the bytes of those lines that were lent for writing.
//!
//! A line that was never lent for writing has no bytes of its own: it stands at place 0, where there is a
//! line of zeros. Once it is lent it is entered behind the lines that are there, in memory that was reserved
//! when its row was stored. What is reserved is not touched before, so a row costs no more than its address
//! until a line of it is lent, and then a word for each line, and the lines that are.
ghost use Rattle.std.specs.Prelude.{◌≡◌, ◌≢◌, ◌++◌, ◌∷◌, ◌<◌, ◌^◌, [], length, replicate, IfOk, OnOk};
ghost use Rattle.std.specs.Borrow.{sem};
ghost use Rattle.ddr_row_array.specs.Lending.{LendsLine};
ghost use Rattle.ddr_row_array.specs.Placed.{HasPlace, place_at};
ghost use Rattle.ddr_row_array.specs.Store.{IsKept, HasRoom, SameStore, line_at, stored_rows};

use crate::arena::Arena;
use crate::slot::{RowAddress, Slots};
use ddr_timing::units::LINE_BYTES;
use std::alloc::{AllocError, Global};

/// Where the line of zeros stands.
const ZEROS: usize = 0;

/// The stored rows of a channel.
#[derive(Drop)]
pub struct Store {
    /// The rows, and where their lines stand.
    pub slots: Slots,
    /// The line of zeros, and behind it the lines that were entered.
    pub lines: Arena<[u8; LINE_BYTES]>,
    /// How many lines of stored rows were not entered.
    pub unentered: usize,
}

impl Store {
    /// No row is stored.
    pub fn new(alloc: Global, width: usize) -> Result<Store, AllocError>
        requires { width < 2 ^ 32 }
        ensures kept { IfOk result IsKept }
        ensures width { IfOk result (λ s. s.slots.width ≡ width) }
        ensures slots { IfOk result (λ s. s.slots.items ≡ []) }
    {
        let slots = Slots::new(alloc, width)?;
        let mut lines = Arena::new(alloc);
        lines.reserve(alloc, 1)?;
        lines.push_reserved([0; LINE_BYTES]);
        Ok(Store {
            slots,
            lines,
            unentered: 0,
        })
    }

    /// Makes room for one more row, for its table and for each of its lines. Nothing that is stored changes.
    pub fn reserve(&mut self, alloc: Global) -> Result<(), AllocError>
        requires { IsKept self.old }
        ensures same { SameStore self.old self.new }
        ensures kept { IsKept self.new }
        ensures room { OnOk result (HasRoom self.new) }
    {
        self.slots.reserve(alloc)?;
        let room = self.unentered + self.slots.width();
        self.lines.reserve(alloc, room)?;
        Ok(())
    }

    /// Stores a row of which no line was entered.
    pub fn push(&mut self, address: RowAddress)
        requires kept { IsKept self.old }
        requires room { HasRoom self.old }
        ensures kept { IsKept self.new }
        ensures slots { self.new.slots.items ≡ self.old.slots.items ++ (record { address = address; places = replicate self.old.slots.width ZEROS }) ∷ [] }
        ensures lines { self.new.lines.items ≡ self.old.lines.items }
        ensures width { self.new.slots.width ≡ self.old.slots.width }
    {
        self.slots.push(address);
        self.unentered += self.slots.width();
    }

    /// The 64 bytes of a line of a stored row.
    pub fn line(&self, slot: usize, line: usize) -> &[u8]
        requires kept { IsKept self.now }
        requires there { HasPlace self.now.slots slot line }
        ensures value { result.now ≡ line_at self.now.lines.items (place_at self.now.slots.items slot line) }
        ensures length { length result.now ≡ LINE_BYTES }
    {
        self.lines.item(self.slots.place(slot, line))
    }

    /// Where a line of a stored row stands, which is entered if it was not. No byte of a row changes.
    pub fn enter(&mut self, slot: usize, line: usize) -> usize
        requires kept { IsKept self.old }
        requires there { HasPlace self.old.slots slot line }
        ensures kept { IsKept self.new }
        ensures there { HasPlace self.new.slots slot line }
        ensures width { self.new.slots.width ≡ self.old.slots.width }
        ensures place { result ≡ place_at self.new.slots.items slot line }
        ensures entered { result ≢ ZEROS }
        ensures rows { stored_rows self.new ≡ stored_rows self.old }
    {
        let place = self.slots.place(slot, line);
        if place != ZEROS {
            return place;
        }
        let place = self.lines.len();
        self.lines.push_reserved([0; LINE_BYTES]);
        self.slots.set_place(slot, line, place);
        self.unentered -= 1;
        place
    }

    /// The 64 bytes that stand at a place, for writing.
    pub fn line_mut(&mut self, place: usize) -> &mut [u8]
        requires { place < length self.old.lines.items }
        ensures* writes_back { sem 𝓛 (LendsLine self.entry place result) }
        ensures value { result.now ≡ line_at self.old.lines.items place }
        ensures length { length result.now ≡ LINE_BYTES }
    {
        // An array keeps its length, which the proof wants of the slice that is lent.
        let line: &[u8] = self.lines.item(place);
        prove!(line.len() == LINE_BYTES);
        self.lines.item_mut(place).as_mut_slice()
    }
}
