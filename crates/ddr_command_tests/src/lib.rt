//! Tests of the rules of commands by public calls: the configuration with its timing, the text and the rules of a
//! trace, its statistics, the readiness of a rank, what may be issued next, and the judging of captured commands. Nothing
//! else is here, and nothing stands above.
//!
//! Each module has the tests of the one crate that it is named after, from `timing` (`ddr_timing`) up to `judge`
//! (`ddr_judge`). What several test crates share is in `ddr_samples`; the tests of the layers above are in
//! `ddr_controller_tests` and `ddr_channel_tests`.
#![tactic(auto)]

#[cfg(test)]
mod judge;
#[cfg(test)]
mod legality;
#[cfg(test)]
mod rank;
#[cfg(test)]
mod statistics;
#[cfg(test)]
mod timing;
#[cfg(test)]
mod trace;
