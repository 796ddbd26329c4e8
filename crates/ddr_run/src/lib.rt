//! A run of a script in threads, one for each port and each channel: the command `run`.
//!
//! Below stand the program's texts, with that of a reply (`ddr_text`), ports and workers (`ddr_workers`), and of what these
//! stand on `ddr_timing`, `ddr_trace`, `ddr_ports` and `ddr_reorder`. Above stands `ddr_tool`, whose command
//! line asks for `run`. `hosting` is the thread of one port, `flag` how the threads begin together and stop one another,
//! `threads` runs all of them, and `outcome` has what is printed in the end. `run` reads a script, opens the system and
//! closes it, over a reader and a writer. `flag` and `threads` are public, so that a
//! test can see how a run stops.
#![tactic(auto)]

pub mod flag;
mod hosting;
mod outcome;
pub mod run;
pub mod threads;
