//! The judging of a channel's commands that come one by one, each with what its fault rests on.
//!
//! Below stand `ddr_timing`, `ddr_trace`, the checker of `ddr_legality` that takes a trace's entries one by one, and `ddr_evidence`,
//! which finds what a broken rule rests on; what a host drives by calls stands above. `watch` judges; it stands on `recent`, the
//! newest commands, `find`, which looks through these for what a broken rule rests on, and `told`, the answer.
#![tactic(auto)]

mod find;
mod recent;
pub mod told;
pub mod watch;
