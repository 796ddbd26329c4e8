//! A replay of a stream of requests over the core, with its statistics: the command `replay`.
//!
//! Below stand the stream's requests (`ddr_stream`), the program's texts (`ddr_text`) and the configuration in front of an input (`front`
//! of `ddr_capture`), the core (`ddr_world`) and the parts of its rounds (`ddr_rounds`), what is counted of a replay (`ddr_ledger`) and the
//! numbers of requests (`ddr_measure`). Above stands `ddr_tool`, whose command line asks for `replay`.
//!
//! `taken` takes the stream's requests, `order` says which port submits first, `submitting` lets a port submit, and `replaying` makes all
//! the rounds. `books` hears what the rounds tell, and `laws` says what holds of the core's commands. `teller` tells of requests and of
//! commands as they come. `report` is the text of what a replay comes to. `wanted` says what is to be told and `watch` who is told how far
//! a run has come, `telling` is what is told of it at its end, and `replay` does it all over a reader and a writer.
#![tactic(auto)]

mod books;
mod laws;
pub mod order;
pub mod replay;
mod replaying;
mod report;
mod submitting;
pub mod taken;
mod teller;
mod telling;
pub mod wanted;
pub mod watch;
