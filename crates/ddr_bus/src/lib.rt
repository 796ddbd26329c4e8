//! Commands in the form in which C has them: what the libraries for C say of one, each in its own exports.
//!
//! Below stand `ddr_timing` and `ddr_trace`, and above `ddr_c`, which copies a channel's trace, and `ddr_judge_c`, which is told of
//! commands one by one. `bus` is all of it; `include/ddr.h` has the same numbers and fields.
#![tactic(auto)]

pub mod bus;
