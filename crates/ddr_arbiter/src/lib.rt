//! The scheduler of a channel: what it does in a cycle.
//!
//! Below stand the pending requests (`ddr_hazards`), the legality of the next command (`ddr_legality`) and
//! the refreshes that are due (`ddr_refresh`); the channel, which issues what is chosen, stands above.
//! `policy` is when writes are drained, `choice` the choice of a cycle; of its steps `refresh` is the one for
//! a rank that has to be refreshed, `candidates` which requests may be served, `columns` the read or write of
//! one, and `rows` its ACT or PRE. `quiet` is for how long nothing is chosen. `commands` are the commands that serve a
//! request, and `banks` numbers the banks.
//!
//! No list of candidates is made: each of the last two steps goes once through the pending requests, the oldest first, and
//! keeps a table of the banks, so that what holds of all requests of a bank is asked for once.
#![tactic(auto)]

mod banks;
mod candidates;
pub mod choice;
mod columns;
pub mod commands;
pub mod policy;
pub mod quiet;
mod refresh;
mod rows;
