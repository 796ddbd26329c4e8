//! What a round of the core is: each channel's part, then each port's; and who is told what comes of it.
//!
//! Below stands the core (`ddr_world`). Above stand those who drive it round by round: `ddr_sim`, `ddr_replay` and `ddr_c`. `channels` is
//! the channels' part of a round and `ports` the ports', each by `events`; `rounds` makes several, quiet ones at once, and `drains` counts
//! in how many writes were drained; `told` is what there is to tell, and `watcher` who is told it.
#![tactic(auto)]

pub mod channels;
mod drains;
mod events;
pub mod ports;
pub mod rounds;
pub mod told;
pub mod watcher;
