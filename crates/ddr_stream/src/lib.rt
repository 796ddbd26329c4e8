//! A stream of requests: how its lines are read, in this project's own form and in those of other simulators.
//!
//! Below stand the program's texts (`ddr_text`), the lines of an input (`feed` of `ddr_capture`) and the address map (`ddr_address_map`);
//! above stands `ddr_replay`, which replays a stream. `ask` is a request of a stream, `line` reads one, `white` parts its fields where any
//! white space does, and `placing` says what a line asks for in a memory, where `capacity` is its size. `queue` keeps the requests of a
//! port, `requests` counts them, and `stream` reads a stream line by line.
#![tactic(auto)]

pub mod ask;
mod capacity;
pub mod line;
pub mod placing;
pub mod queue;
pub mod requests;
pub mod stream;
mod white;
