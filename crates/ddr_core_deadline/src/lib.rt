//! A bound on the time that a request takes in the core.
//!
//! Below stand the bound of one channel (`ddr_deadline`), the core (`ddr_world`) and its rounds (`ddr_rounds`). Each function here is
//! a law, and does nothing. `channels` has the bound for each channel of the core, over every record of events; and `rounds` that rounds
//! keep what it presumes.
#![tactic(auto)]

pub mod channels;
pub mod rounds;
