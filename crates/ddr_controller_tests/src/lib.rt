//! Tests of the parts of a controller by public calls: addresses, rows, pending requests, refresh debt, replies in
//! order, ports, and the scheduler's choice. Nothing else is here, and nothing stands above.
//!
//! Each module has the tests of the one crate that it is named after, as `arbiter` has those of `ddr_arbiter`. What
//! several test crates share is in `ddr_samples`. The tests of what lies below are in `ddr_command_tests`, those of
//! whole channels in `ddr_channel_tests`.
#![tactic(auto)]

#[cfg(test)]
mod address_map;
#[cfg(test)]
mod arbiter;
#[cfg(test)]
mod hazards;
#[cfg(test)]
mod ports;
#[cfg(test)]
mod refresh;
#[cfg(test)]
mod reorder;
#[cfg(test)]
mod row_array;
