//! The configuration of a DDR4 memory controller model: what it is, what an accepted one keeps, and how
//! its text is read.
//!
//! Nothing of the repository stands below this crate, and every other crate stands on it. `timing`,
//! `geometry` and `limits` are the three parts of a configuration, each with its ranges and relations
//! as facts on the type, and `config` is the whole, with `Config::read`; `bank` numbers the banks of a
//! channel over its ranks. A text is read in three steps:
//! `toml` makes a table of it; `check` looks for the first fault of the table, by the keys of `key`;
//! `values` takes the values of a table without a fault. Both look into the table by `table`, and
//! `order` reads the text of the one value that lists words; `ddr_findings`, which tells every fault of a text,
//! looks by the same. `error` has the refusals, `profile` a sample text, and `units` the numbers that every crate
//! shares, such as the bytes of a line.
#![tactic(auto)]

pub mod bank;
mod check;
pub mod config;
pub mod error;
pub mod geometry;
pub mod key;
pub mod limits;
pub mod order;
pub mod profile;
pub mod table;
pub mod timing;
pub mod units;
mod values;
