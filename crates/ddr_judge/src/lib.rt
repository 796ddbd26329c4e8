//! The judging of captured commands, which come one by one and of which none is kept.
//!
//! Below stand `ddr_timing`, `ddr_trace` and the checker of `ddr_legality` that takes a trace's entries one by one; what reads a
//! capture stands above. `judge` takes the commands of all channels; it stands on `channel_judge`, what is kept of one channel, and
//! both on `fault`, a channel's first fault.
#![tactic(auto)]

mod channel_judge;
pub mod fault;
pub mod judge;
