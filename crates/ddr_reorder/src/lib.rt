//! The reorder buffer of one port: numbers go out in order, completions come back in any order, and
//! replies are given in the order of the numbers.
//!
//! Below stand `ddr_address_map`, which has the lines and the echoes of requests, and `ddr_timing`;
//! above, `ddr_ports`. `reorder` is the public part; `reply` is what a port lends its host, `refusal`
//! says why a call did nothing, and `slot` keeps what is known of one number.
#![tactic(auto)]

pub mod refusal;
pub mod reorder;
pub mod reply;
mod slot;
