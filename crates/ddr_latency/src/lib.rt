//! What a request's time is made of, by the configuration alone.
//!
//! `ddr_timing` stands below. Above, `lint` warns where the refresh interval leaves no time to serve a request, and `replay` and
//! `run` end by themselves there, once nothing is served any more. `clocks` has the distances and what one request makes of them,
//! `bound` how long one takes at most among all that may be pending, which `lint --bound` tells and `ddr_deadline` proves.
#![tactic(auto)]

pub mod bound;
pub mod clocks;
