//! What a broken rule of a trace rests on: the earlier command that is to blame, and the numbers.
//!
//! Below stand `ddr_timing` and `ddr_trace`, which define the rules; `ddr_explain` above tells it. `evidence` has the types, and
//! `find` finds the evidence of any rule, over one module for each kind of rule: `pair` has those that an earlier entry breaks
//! together with the present one, `state` those on the state of banks, by what `bank` sees of a bank's history, `bounds` those
//! on an entry's own numbers, and `refresh` those on when a REF is due. `broken` stands above all of them, and says whether there is
//! evidence, mostly by the newest entries of a history alone.
#![tactic(auto)]

pub mod bank;
mod bounds;
pub mod broken;
pub mod evidence;
pub mod find;
mod pair;
mod refresh;
mod state;
