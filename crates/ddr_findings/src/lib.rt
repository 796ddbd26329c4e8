//! What speaks against a configuration's text, all of it, and what is strange about one that is accepted.
//!
//! `ddr_timing` stands below, which says what a configuration is and reads one, but tells its first fault alone; the
//! command `lint` stands above. `lint` is the whole: the findings of a text. It asks `faults` for what `ddr_timing` would
//! refuse, and `warnings` for what it accepts though it is strange. `fault` and `warning` are what is found, as plain data,
//! with `relation` for the broken relations, `takes` for the values that a key takes, and `oddity` for what is strange.
//! `table` looks into the text's table with what `ddr_timing` looks by, `nearest` finds the key that a misspelled name is
//! near to, `sides` has the numbers of a comparison, and `shown` tells a value. `text` makes lines of findings.
#![tactic(auto)]

pub mod fault;
mod faults;
pub mod lint;
mod nearest;
pub mod oddity;
pub mod relation;
mod relations;
mod shown;
mod sides;
mod table;
pub mod takes;
pub mod text;
pub mod warning;
mod warnings;
