//! The rows that are stored, and of each where its lines stand.
//!
//! The places of a row's lines are a table of words, one word for each line. A row of which no line was entered
//! has no words of its own, but those of zeros that stand first. Its table is made with the first line of it that
//! is entered, behind the tables that are there, in memory that was reserved when the row was stored.
ghost use Rattle.std.specs.Prelude.{◌≡◌, ◌+◌, ◌<◌, ◌≤◌, ◌^◌, ◌++◌, ◌∷◌, [], false, length, replicate, slice_index_or, slice_set, IsTrue, IfOk, OnOk, OnErr};
ghost use Rattle.ddr_row_array.specs.Placed.{PlacedRow, HasPlace, placed, place_at};

use crate::arena::Arena;
use std::alloc::{AllocError, Global};
use std::marker::Model;

/// Which row of which bank.
#[derive(Clone, Copy, PartialEq, Eq, PartialOrd, Ord)]
pub struct RowAddress {
    pub bank: u32,
    pub row: u32,
}

/// A row that is stored.
#[derive(Drop)]
struct StoredRow {
    address: RowAddress,
    // Where its table begins among the words: at `ZEROS` until a line of it is entered.
    start: usize,
}

/// Where the words of zeros begin.
const ZEROS: usize = 0;

/// The rows that are stored, in the order in which they were, and of each the places of its lines.
#[derive(Drop)]
pub struct Slots {
    // How many lines a row has.
    width: usize,
    rows: Vec<StoredRow>,
    // The words of zeros, and behind them the tables.
    words: Arena<usize>,
    // How many words the tables take that were not made.
    untabled: usize,
}

impl Model for Slots {
    ghost use Rattle.ddr_row_array.specs.Placed.{PlacedRows};

    ghost Value = { PlacedRows };

    ghost use Rattle.ddr_row_array.specs.Tables.{placed_rows, IsTabled};

    ghost view = { placed_rows };

    ghost invariant = { IsTabled };
}

impl Slots {
    /// No row is stored.
    pub fn new(alloc: Global, width: usize) -> Result<Slots, AllocError>
        requires { width < 2 ^ 32 }
        ensures width { IfOk result (λ s. s.width ≡ width) }
        ensures items { IfOk result (λ s. s.items ≡ []) }
    {
        let mut words = Arena::new(alloc);
        words.reserve(alloc, width)?;
        words.push_copies(0, width);
        Ok(Slots {
            width,
            rows: Vec::new(alloc),
            words,
            untabled: 0,
        })
    }

    /// How many lines a row has.
    pub fn width(&self) -> usize
        ensures { result ≡ self.now.width }
    {
        self.width
    }

    /// How many rows are stored.
    pub fn len(&self) -> usize
        ensures { result ≡ length self.now.items }
    {
        self.rows.len()
    }

    /// Makes room for one more row and for its table. No row and no place changes.
    pub fn reserve(&mut self, alloc: Global) -> Result<(), AllocError>
        ensures width { self.new.width ≡ self.old.width }
        ensures items { self.new.items ≡ self.old.items }
        ensures room { OnOk result (IsTrue self.new.has_room) }
        ensures full { OnErr result (self.old.has_room ≡ false) }
    {
        self.rows.reserve(1)?;
        self.words.reserve(alloc, self.untabled + self.width)?;
        Ok(())
    }

    /// Stores a row of which no line was entered.
    pub fn push(&mut self, address: RowAddress)
        requires { IsTrue self.old.has_room }
        ensures width { self.new.width ≡ self.old.width }
        ensures items { self.new.items ≡ self.old.items ++ (record { address = address; places = replicate self.old.width 0 }) ∷ [] }
    {
        self.rows.push_reserved(StoredRow {
            address,
            start: ZEROS,
        });
        self.untabled += self.width;
    }

    /// The place of a line of a row.
    pub fn place(&self, slot: usize, line: usize) -> usize
        requires { HasPlace self.now slot line }
        ensures { result ≡ place_at self.now.items slot line }
    {
        *self.words.item(self.rows[slot].start + line)
    }

    /// Gives a line of a row a place.
    pub fn set_place(&mut self, slot: usize, line: usize, place: usize)
        requires { HasPlace self.old slot line }
        ensures width { self.new.width ≡ self.old.width }
        ensures items { (d : PlacedRow) → self.new.items ≡ slice_set self.old.items slot (placed (slice_index_or self.old.items slot d) line place) }
    {
        let start = self.rows[slot].start;
        if start != ZEROS {
            *self.words.item_mut(start + line) = place;
            return;
        }
        let start = self.words.len();
        self.words.push_copies(0, self.width);
        *self.words.item_mut(start + line) = place;
        self.rows[slot].start = start;
        self.untabled -= self.width;
    }
}
