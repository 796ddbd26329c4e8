//! A history that only contracts read: it takes no memory, so a value can stand for a run of any length.
//!
//! `past` has it. The command bus (`ddr_legality`) keeps one in place of its entries, where it was opened without them; nothing of this
//! repository stands below.
#![tactic(auto)]

pub mod past;
