//! The legality of the next command of a channel, and the trace of those that were issued.
//!
//! Below stand the rules of a trace (`ddr_trace`) and the readiness of a rank (`ddr_rank`); the scheduler (`ddr_arbiter`) and the channel
//! (`ddr_channel`) stand above. `legality` is a channel's command bus, `one_pass` checks a trace whose entries come one by one, and
//! `checker` finds the first fault of a whole trace by it. They stand on `bus_readiness`: what the next command is tested against, with no
//! list of those before it. `columns` is what the rule on two ranks asks, and `refreshes` what the rules on refresh ask, which `one_pass`
//! alone tests.
#![tactic(auto)]

mod bus_readiness;
pub mod checker;
mod columns;
pub mod legality;
pub mod one_pass;
mod refreshes;
