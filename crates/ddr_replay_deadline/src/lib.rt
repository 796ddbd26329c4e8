//! A bound on the time that a request of a replay takes in its channel, and on that in which it waits for it.
//!
//! Below stand the bound for each channel of the core (`ddr_core_deadline`) and the command `replay` (`ddr_replay`), whose turns are
//! rounds of its own; above stands nothing. Each function here is a law, and does nothing. `replay` has that bound for every replay, from
//! a request's admission to its completion; `admission` one from its acceptance to its admission; and `rows` says that what a replay
//! writes of a request keeps both.
#![tactic(auto)]

pub mod admission;
pub mod replay;
pub mod rows;
