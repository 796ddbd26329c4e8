//! Places in the memory, the map from addresses to them, and the requests and completions that travel
//! between a port and a channel.
//!
//! Below stands `ddr_timing`; every crate that handles requests stands above. `place` is where a byte
//! lies; `map` finds it from an address, and back; `request` is what is asked and what is answered.
#![tactic(auto)]

pub mod map;
pub mod place;
pub mod request;
