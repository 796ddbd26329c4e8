//! The pending requests of a channel, and the hazards among them.
//!
//! A request is pending from its admission until its column command. Below stand the requests and their
//! places (`ddr_address_map`) and the numbers that every crate shares (`ddr_timing`); above, the scheduler
//! looks at the list and the channel admits to it and removes from it. `pending` is the list with its
//! calls, `waiting` one request of it, `slots` where the requests stand, `banks` those of each bank, `hazards` and `line`
//! how many have a line, and `counts` a number for each kind.
#![tactic(auto)]

mod banks;
mod counts;
mod hazards;
mod line;
pub mod pending;
mod slots;
pub mod waiting;
