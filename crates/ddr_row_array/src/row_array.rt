//! The bytes of one channel's rows, and the open row of each bank.
ghost use Rattle.std.specs.Prelude.{◌≡◌, ℕ, ◌<◌, ◌==◌, ◌&&◌, false, true, if◌then◌else◌, length, Some, None, IsTrue, IsSome, IfSome, OnSome, OnOk, OnErr, IfOk, IsOk, is_some, unwrap_or};
ghost use Rattle.std.specs.Bool.{OnTrue, OnFalse};
ghost use Rattle.std.specs.Option.{option_copied, option_copied_mut};
ghost use Rattle.std.specs.Borrow.{sem};
ghost use Rattle.ddr_row_array.specs.Changes.{IsFresh, SameShape, SameBytes};
ghost use Rattle.ddr_row_array.specs.Lending.{LendsOpenLine, LendsBurst};
ghost use Rattle.ddr_row_array.specs.Rows.{bank_count, row_count, line_count, is_row, open_row, is_stored, cells, open_burst};
ghost use Rattle.ddr_row_array.specs.View.{place_of};
ghost use Rattle.ddr_row_array.specs.Writes.{ChangesLineAlone, MergesLine};

use crate::merge::merge;
use crate::slot::RowAddress;
use crate::store::Store;
use ddr_timing::config::Config;
use ddr_timing::geometry::Geometry;
use ddr_timing::units::{LINE_BYTES, LINE_COLUMNS};
use std::alloc::{AllocError, Global};
use std::collections::BTreeMap;
use std::marker::Model;

/// The row that a bank's sense amplifiers hold, and the slot that has its bytes.
#[derive(Clone, Copy)]
struct OpenRow {
    row: u32,
    slot: usize,
}

/// A stored row, and the slot that has its bytes.
#[derive(Clone, Copy)]
struct EnsuredRow {
    address: RowAddress,
    slot: usize,
}

/// The bytes of one channel's rows, and the open row of each bank.
///
/// A bank is named by its number over the ranks, as `BankId` has it. Memory is reserved for a row once
/// `ensure` is first called for it, and touched once a line of it is lent for writing; a byte that was never
/// written is 0.
#[derive(Drop)]
pub struct RowArray {
    alloc: Global,
    geometry: Geometry,
    // By the bank's number.
    opened: Vec<Option<OpenRow>>,
    store: Store,
    // Where each stored row stands among the slots of the store.
    index: BTreeMap<RowAddress, usize>,
    // The row that `ensure` was last called for, which is mostly the one that `activate` is called for next.
    ensured: Option<EnsuredRow>,
}

impl Model for RowArray {
    ghost use Rattle.ddr_row_array.specs.Rows.{Rows};

    ghost Value = { Rows };

    ghost use Rattle.ddr_row_array.specs.View.{rows_of, IsSound};

    ghost view = { rows_of };

    ghost invariant = { IsSound };
}

impl RowArray {
    /// A row array in which every bank is idle and every byte is 0.
    pub fn open(alloc: Global, config: &Config) -> Result<RowArray, AllocError>
        ensures { IfOk result (IsFresh config.now) }
    {
        let banks = config.geometry.banks() as usize;
        let lines = (config.geometry.columns / LINE_COLUMNS) as usize;
        Ok(RowArray {
            alloc,
            geometry: config.geometry,
            opened: vec![in alloc; None; banks]?,
            store: Store::new(alloc, lines)?,
            index: BTreeMap::new(alloc),
            ensured: None,
        })
    }

    /// Stores the row, with zeros, if it is not there: in untouched room for its lines and for a word that says
    /// of each where it stands. No byte changes, and nothing at all where memory runs out. A row that is stored
    /// takes no memory, and is never refused.
    pub fn ensure(&mut self, bank: u32, row: u32) -> Result<(), AllocError>
        requires bank_in { bank < bank_count self.old }
        requires row_in { row < row_count self.old }
        ensures ok { OnOk result (IsTrue (is_stored self.new bank row)) }
        ensures others { (b r : ℕ) → (b == bank && r == row) ≡ false
            → is_stored self.new b r ≡ is_stored self.old b r }
        ensures kept { (b r : ℕ)
            → IsTrue (is_stored self.old b r) → IsTrue (is_stored self.new b r) }
        ensures opened { (b : ℕ) → open_row self.new b ≡ open_row self.old b }
        ensures bytes { (b r l : ℕ) → cells self.new b r l ≡ cells self.old b r l }
        ensures shape { SameShape self.old self.new }
        ensures err { OnErr result (self.new ≡ self.old) }
        ensures stored { is_stored self.old bank row ≡ true → IsOk result }
    {
        let address = RowAddress { bank, row };
        if let Some(&slot) = self.index.get(&address) {
            self.ensured = Some(EnsuredRow { address, slot });
            return Ok(());
        }
        self.store.reserve(self.alloc)?;
        let slot = self.store.slots.len();
        self.index.insert(address, slot)?;
        self.store.push(address);
        self.ensured = Some(EnsuredRow { address, slot });
        Ok(())
    }

    /// The slot of a stored row.
    fn slot_of(&self, address: RowAddress) -> usize
        requires { IsTrue (is_stored self.now address.bank address.row) }
        ensures { place_of (is_row address.bank address.row) self.now.stored ≡ Some result }
    {
        match self.ensured {
            Some(ensured) if ensured.address == address => ensured.slot,
            _ => self.index[&address],
        }
    }

    /// Opens a stored row of an idle bank, so that bursts go to it (JESD79-4, "ACTIVATE
    /// Command").
    pub fn activate(&mut self, bank: u32, row: u32)
        requires bank_in { bank < bank_count self.old }
        requires row_in { row < row_count self.old }
        requires idle { open_row self.old bank ≡ None }
        requires stored { IsTrue (is_stored self.old bank row) }
        ensures opened { (b : ℕ)
            → open_row self.new b ≡ (if b == bank then Some row else open_row self.old b) }
        ensures bytes { SameBytes self.old self.new }
    {
        let slot = self.slot_of(RowAddress { bank, row });
        self.opened[bank as usize] = Some(OpenRow { row, slot });
    }

    /// Makes the bank idle, whether or not it had an open row (JESD79-4, "PRECHARGE Command").
    pub fn precharge(&mut self, bank: u32)
        requires { bank < bank_count self.old }
        ensures opened { (b : ℕ)
            → open_row self.new b ≡ (if b == bank then None else open_row self.old b) }
        ensures bytes { SameBytes self.old self.new }
    {
        self.opened[bank as usize] = None;
    }

    /// Whether the bank has an open row, and the row that line.
    fn has_burst(&self, bank: u32, line: u32) -> bool
        ensures { result ≡ is_some (open_burst self.now bank line) }
    {
        let opened = self.opened.get(bank as usize);
        line < self.geometry.columns / LINE_COLUMNS && matches!(opened, Some(Some(_)))
    }

    /// The 64 bytes of a line of the bank's open row, which is there.
    fn open_line(&self, bank: u32, line: u32) -> &[u8]
        requires { IsSome (open_burst self.now bank line) }
        ensures value { open_burst self.now bank line ≡ Some result.now }
        ensures length { length result.now ≡ LINE_BYTES }
    {
        let open = self.opened[bank as usize].unwrap();
        self.store.line(open.slot, line as usize)
    }

    /// The 64 bytes of a line of the bank's open row, which is there, for writing.
    fn open_line_mut(&mut self, bank: u32, line: u32) -> &mut [u8]
        requires { IsSome (open_burst self.old bank line) }
        ensures* writes_back { sem 𝓛 (LendsOpenLine self.entry bank line result) }
        ensures value { (open_burst self.old bank line ≡ Some result.now) × (length result.now ≡ LINE_BYTES) }
        ensures only_the_line { ChangesLineAlone self.old bank line }
    {
        let open = self.opened[bank as usize].unwrap();
        let place = self.store.enter(open.slot, line as usize);
        self.store.line_mut(place)
    }

    /// The 64 bytes of a line of the bank's open row. `None` exactly where the bank is idle or
    /// the row has no such line.
    pub fn burst(&self, bank: u32, line: u32) -> Option<&[u8]>
        ensures value { option_copied result ≡ open_burst self.now bank line }
        ensures length { IfSome result (λ burst. length burst.now ≡ LINE_BYTES) }
    {
        if self.has_burst(bank, line) {
            Some(self.open_line(bank, line))
        } else {
            None
        }
    }

    /// The 64 bytes of a line of the bank's open row, for writing. `None` exactly where the bank
    /// is idle or the row has no such line.
    pub fn burst_mut(&mut self, bank: u32, line: u32) -> Option<&mut [u8]>
        ensures* writes_back { sem 𝓛 (LendsBurst self.entry bank line result) }
        ensures value { option_copied_mut result ≡ open_burst self.old bank line }
        ensures length { IfSome result (λ burst. length burst.now ≡ LINE_BYTES) }
        ensures only_the_line { OnSome result (ChangesLineAlone self.old bank line) }
    {
        if self.has_burst(bank, line) {
            Some(self.open_line_mut(bank, line))
        } else {
            None
        }
    }

    /// Replaces, in a line of the bank's open row, each byte whose bit of `mask` is set (bit i
    /// for byte i) by the byte of `bytes`, and says whether there was such a line. Where there
    /// was none, nothing changes. The mask is the data mask of a write (JESD79-4, "Write Data
    /// Mask"), with a set bit for a byte that is written. A write of no byte lends no line.
    pub fn write(&mut self, bank: u32, line: u32, mask: u64, bytes: &[u8; LINE_BYTES]) -> bool
        ensures there { result ≡ is_some (open_burst self.old bank line) }
        ensures written { OnTrue result (MergesLine self.old self.new bank line mask bytes.now) }
        ensures unchanged { OnFalse result (self.new ≡ self.old) }
    {
        if mask == 0 {
            return self.burst(bank, line).is_some();
        }
        let there = self.has_burst(bank, line);
        if there {
            merge(self.open_line_mut(bank, line), mask, bytes);
        }
        there
    }

    /// Copies the 64 bytes of a line of the bank's open row, and says whether there was such a
    /// line. Where there was none, nothing is copied.
    pub fn read(&self, bank: u32, line: u32, into: &mut [u8; LINE_BYTES]) -> bool
        ensures there { result ≡ is_some (open_burst self.now bank line) }
        ensures copied { into.new ≡ unwrap_or (open_burst self.now bank line) into.old }
    {
        match self.burst(bank, line) {
            Some(burst) => {
                into.copy_from_slice(burst);
                true
            }
            None => false,
        }
    }
}
