//! One host port: it makes numbered requests of what its host asks for, and gives the replies back in
//! the order of the numbers.
//!
//! Below stand `ddr_reorder`, which keeps the outstanding numbers, `ddr_address_map` and `ddr_timing`;
//! above, the core and the workers, which carry requests and completions between ports and channels.
//! `port` is the port with its calls, `request` is what a host asks for, and `refusal` says why a call
//! did nothing.
#![tactic(auto)]

pub mod port;
pub mod refusal;
pub mod request;
