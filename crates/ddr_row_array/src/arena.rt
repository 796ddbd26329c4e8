//! A list whose items never move.
//!
//! Its memory is reserved in blocks, and not touched before an item is put there: so what is reserved costs
//! addresses alone, and is never copied, as it is where one large vector grows.
ghost use Rattle.std.specs.Prelude.{◌≡◌, ◌+◌, ◌<◌, ◌≤◌, ◌^◌, ◌++◌, ◌∷◌, [], length, replicate, slice_index_or, OnOk, OnErr};
ghost use Rattle.std.specs.Borrow.{sem};

use std::alloc::{AllocError, Global};
use std::marker::Model;

/// How many items have memory in one block: as many as 1,024 rows of 1,024 columns have lines (this project's choice).
/// Of smaller blocks the C library hands most back to the system once they are let go, which costs page faults where a
/// process opens another list.
const BLOCK_ITEMS: usize = 131_072;

/// The most blocks that a list has: as many items as have addresses on no machine (this project's choice).
const MOST_BLOCKS: usize = 1 << 40;

/// A list whose items never move.
#[derive(Drop)]
pub struct Arena<T> {
    // All before the one that is being filled are full, and all behind it are empty.
    blocks: Vec<Vec<T>>,
    // How many items there are.
    len: usize,
}

impl<T> Model for Arena<T> {
    ghost use Rattle.ddr_row_array.specs.Arena.{Reserved, reserved_code};

    ghost Value = { Reserved T };

    ghost coded = { reserved_code T.code };

    ghost use Rattle.ddr_row_array.specs.Blocks.{reserved_of, IsInOrder};

    ghost view = { reserved_of };

    ghost invariant = { IsInOrder };
}

impl<T: Drop> Arena<T> {
    ghost use Rattle.ddr_row_array.specs.LentItem.{LendsItem};

    /// An empty list, which has no memory.
    pub fn new(alloc: Global) -> Arena<T>
        ensures items { result.items ≡ [] }
        ensures capacity { result.capacity ≡ 0 }
    {
        Arena {
            blocks: Vec::new(alloc),
            len: 0,
        }
    }

    /// How many items there are.
    pub fn len(&self) -> usize
        ensures { result ≡ length self.now.items }
    {
        self.len
    }

    /// Makes room for so many more items. No item changes or moves, also where memory runs out; where there is
    /// room, no memory is asked for.
    pub fn reserve(&mut self, alloc: Global, room: usize) -> Result<(), AllocError>
        requires { room < 2 ^ 63 }
        ensures items { self.new.items ≡ self.old.items }
        ensures kept { self.old.capacity ≤ self.new.capacity }
        ensures bounded { self.new.capacity ≤ 2 ^ 57 }
        ensures room { OnOk result (length self.old.items + room ≤ self.new.capacity) }
        ensures full { OnErr result (self.old.capacity < length self.old.items + room) }
    {
        let blocks = (self.len + room).div_ceil(BLOCK_ITEMS);
        if blocks > MOST_BLOCKS {
            return Err(AllocError);
        }
        for _block in self.blocks.len()..blocks {
            let block = Vec::with_capacity(alloc, BLOCK_ITEMS)?;
            self.blocks.push(block)?;
        }
        Ok(())
    }

    /// Puts an item at the end, where there is room.
    pub fn push_reserved(&mut self, item: T)
        requires { length self.old.items < self.old.capacity }
        ensures items { self.new.items ≡ self.old.items ++ item ∷ [] }
        ensures capacity { self.new.capacity ≡ self.old.capacity }
    {
        self.blocks[self.len / BLOCK_ITEMS].push_reserved(item);
        self.len += 1;
    }

    /// An item.
    pub fn item(&self, index: usize) -> &T
        requires { index < length self.now.items }
        ensures { result.now ≡ slice_index_or self.now.items index result.now }
    {
        &self.blocks[index / BLOCK_ITEMS][index % BLOCK_ITEMS]
    }

    /// An item, for writing.
    pub fn item_mut(&mut self, index: usize) -> &mut T
        requires { index < length self.old.items }
        ensures* writes_back { sem 𝓛 (LendsItem T.row self.entry index result) }
        ensures value { result.now ≡ slice_index_or self.old.items index result.now }
    {
        let block = &mut self.blocks[index / BLOCK_ITEMS];
        &mut block[index % BLOCK_ITEMS]
    }
}

impl<T: Copy + Drop> Arena<T> {
    /// Puts so many copies of an item at the end, where there is room.
    pub fn push_copies(&mut self, item: T, count: usize)
        requires { length self.old.items + count ≤ self.old.capacity }
        ensures items { self.new.items ≡ self.old.items ++ replicate count item }
        ensures capacity { self.new.capacity ≡ self.old.capacity }
    {
        let mut left = count;
        while left > 0 {
            left -= self.push_in_block(item, left);
        }
    }

    /// Puts copies of an item at the end of the block that is being filled: so many, or as many as there is
    /// room for in it. Gives how many.
    fn push_in_block(&mut self, item: T, count: usize) -> usize
        requires some { 0 < count }
        requires room { length self.old.items + count ≤ self.old.capacity }
        ensures some { 0 < result }
        ensures at_most { result ≤ count }
        ensures items { self.new.items ≡ self.old.items ++ replicate result item }
        ensures capacity { self.new.capacity ≡ self.old.capacity }
    {
        let room = BLOCK_ITEMS - self.len % BLOCK_ITEMS;
        let pushed = count.min(room);
        let block = &mut self.blocks[self.len / BLOCK_ITEMS];
        let filled = block.resize(block.len() + pushed, item);
        prove!(filled.is_ok());
        self.len += pushed;
        pushed
    }
}
