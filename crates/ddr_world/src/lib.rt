//! The core of the controller: its ports and its channels, joined by bounded queues, event by event.
//!
//! Below stand `ddr_ports` and `ddr_channel`, whose calls an event makes. `world` is the core with its calls;
//! `event` is what may happen and what comes of it, `port_side` and `channel_side` are a port and a channel
//! with the queue that leads to each, `item` is what stands in a request queue, with the step of a channel that takes
//! it, and `promise` is the law over every record of events. The workers take items by the same step.
#![tactic(auto)]

mod channel_side;
pub mod event;
pub mod item;
mod port_side;
pub mod promise;
pub mod world;
