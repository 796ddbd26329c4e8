//! A run of a script over the core, in one thread: the command `sim`.
//!
//! Below stand the program's texts (`ddr_text`), the rounds of the core (`ddr_rounds`) and the core (`ddr_world`), and of what
//! the core stands on `ddr_timing`, `ddr_trace`, `ddr_address_map`, `ddr_ports`, `ddr_reorder` and `ddr_channel`. Above stands
//! `ddr_tool`, whose command line asks for `sim`. `simulation` runs a script, whose replies `line` puts together and whose traces
//! `trace`, and `sim` reads it first, over a reader and a writer.
#![tactic(auto)]

mod line;
mod refusal;
pub mod sim;
mod simulation;
mod trace;
