//! Tests of whole channels by public calls; nothing else is here, and nothing stands above.
//!
//! `channel` has the tests of `ddr_channel`, and `bounds` those of what `ddr_bounds` proves; `requests` is what both share. What several
//! test crates share is in `ddr_samples`. The tests of the parts of a channel are in `ddr_controller_tests`; those of the core and of whole
//! commands in `ddr_tests`, those in threads in `ddr_thread_tests`.
#![tactic(auto)]

#[cfg(test)]
mod bounds;
#[cfg(test)]
mod channel;
#[cfg(test)]
mod requests;
