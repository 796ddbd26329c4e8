//! Ports and channels in threads.
//!
//! `system` opens everything: for each port a `Port`, which pushes requests and pops completions, and for each channel a
//! `Worker`, which drives it turn by turn under a `Gate`. Between them stand the queues: `requests` has the one that leads
//! from every port to one channel, `completions` the one from every channel to one port. Both are made of `lane`, a queue
//! with several put sides and one take side, and `law` is what the sides know of each other, which the queue's rule
//! speaks of. `rest` is what a worker does between turns that found nothing.
//!
//! At the end `closing` joins every queue: `ends` checks what finished ports and workers leave and puts it in order, and
//! `gathered` sorts their sides by queue. What every port has got is then told by `headline`, a law over the lists that
//! the sides carried.
//!
//! A worker drives its channel beside a judge (`judged`), which is told each command as it is issued: so it is known by a look at the
//! trace that it is legal, whether or not the trace is kept.
//!
//! Below stand one port (`ddr_ports`), one channel (`ddr_channel`), the judge (`ddr_judge`), the right replies to a list of requests as the
//! core defines them and the items of a request queue (`ddr_world`), the requests (`ddr_address_map`) and the configuration (`ddr_timing`).
//! Above stands the program's `run`. No call starts a thread: ports and workers are moved into threads of the caller.
#![tactic(auto)]

pub mod closing;
pub mod completions;
mod ends;
mod error;
pub mod gate;
mod gathered;
mod headline;
mod judged;
mod lane;
mod law;
pub mod port;
pub mod refusal;
pub mod requests;
pub mod rest;
mod rows;
mod system;
pub mod worker;

pub use closing::close;
pub use error::OpenError;
pub use system::{open, open_at, open_without_traces};
