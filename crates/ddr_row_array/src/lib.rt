//! The bytes of one channel's rows, and the open row of each bank.
//!
//! A bank's sense amplifiers hold one row at a time (JESD79-4, "ACTIVATE" and "PRECHARGE"): a
//! read or a write of a line, which is a burst of 64 bytes, goes to that row. Rows are stored
//! sparsely: room for a row is reserved once it is first asked for, and touched line by line as lines are lent for
//! writing; until then all bytes are 0.
//!
//! Below stands `ddr_timing`, which numbers the banks over the ranks, and gives how many rows and columns there are; above,
//! `ddr_channel`, which opens and closes rows and moves the data of reads and writes. `row_array`
//! is the public part; `store` has the stored rows and the bytes of their lines, `slot` says where the lines of each
//! row stand, `arena` is the list of both whose room is reserved ahead, and `merge` the data mask of a write.
#![tactic(auto)]

mod arena;
mod merge;
pub mod row_array;
mod slot;
mod store;
