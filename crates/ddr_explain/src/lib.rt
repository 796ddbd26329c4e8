//! The commands `check --explain` and `check --all`: a verdict on a trace with a sentence on what its first fault rests on, and
//! a table of all its faults.
//!
//! Below stand `ddr_evidence`, which finds what a broken rule rests on, `ddr_legality`, which tells the places that break none,
//! and `ddr_text` with `check` and the program's inputs,
//! outputs and faults; above stands `ddr_tool`, which performs the commands. `explain` is the one. `reason` says why a trace
//! breaks a rule at a place. `sentence` makes the sentence of any evidence, over `state` for those on the state of a bank, `limit`
//! for the least distance of a rule, and `names` for entries, clocks and rules. `all` is the other: `faults` finds all faults, and
//! `table` tells them.
#![tactic(auto)]

pub mod all;
pub mod explain;
pub mod faults;
mod limit;
mod names;
pub mod reason;
pub mod sentence;
mod state;
mod table;
