//! The text in which traces are kept.
//!
//! Below stand the commands and rules of a trace (`ddr_trace`), and above what reads or writes traces. `text` writes one, and `reader`
//! reads one, record by record with `parse`; `number` reads decimal digits, for these and for every other text of the repository.
#![tactic(auto)]

pub mod number;
pub mod parse;
pub mod reader;
pub mod text;
