//! What the tests of several crates share: configurations, commands as tests write them, and numbers that look like
//! chance.
//!
//! It stands on `ddr_timing` and `ddr_trace`. Above it are crates of tests and for timing alone.
#![tactic(auto)]

pub mod chance;
pub mod sample;
pub mod steps;
