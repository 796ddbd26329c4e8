//! Until when a scheduler sleeps, as it was first written: what tests compare today's numbers with.
//!
//! No contract says which number of quiet cycles is told: each lets 0 through in every state. So the numbers are tested, and
//! must be those of the form in which the scheduler stood before it was made faster. `scheduler` has that form, `channel` a
//! channel that goes by it, made of public pieces alone. Nothing here is meant to be fast, and nothing of it is proved but that
//! it is safe and ends.
//!
//! Above it are test crates alone: `ddr_controller_tests`, `ddr_channel_tests` and `ddr_tests`.
#![tactic(auto)]

pub mod admitted;
pub mod channel;
pub mod scheduler;
