//! The numbers of some requests that a memory served: how long they took, from step to step, and how much of the data bus they used.
//!
//! Each number is a function of the requests' times that stands in `specs/`, and the text that is written is proved to be theirs. Below
//! stand `ddr_address_map`, which has the kinds of requests, `ddr_statistics`, which says how a read or a write finds its bank, and
//! `ddr_past`; above, `ddr_replay`. `timed` is a request with its cycles, `span` the clocks between two of its steps, `group` which
//! requests are looked at together, `distribution` how some numbers of clocks are spread, `spread` has one of each group and span, and
//! `usage` what the data bus was used for. `measured` keeps these as requests are noted one after another, and none of the requests; `text`
//! writes all of it. `interval` has the requests of each interval of time, and `series` writes the numbers of these.
#![tactic(auto)]

pub mod distribution;
pub mod group;
mod interval;
pub mod measured;
pub mod percentiles;
pub mod series;
pub mod span;
mod spread;
pub mod sums;
pub mod text;
pub mod timed;
pub mod usage;
