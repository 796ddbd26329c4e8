//! A bound on the time that a request of a channel takes.
//!
//! Below stands one channel (`ddr_channel`). Each function here is a law, and does nothing. `deadline` has the bound. `choice` has what
//! the scheduler does for the oldest request once it has reached the cap, and which refreshes may come before it; `legal` from which
//! cycle on its commands are legal; `wait` by which cycle it is served, where nothing else is, and how far a refresh moves that; and
//! `step` what each cycle makes of it, in a channel of one rank.
#![tactic(auto)]

pub mod choice;
pub mod deadline;
pub mod legal;
pub mod step;
pub mod wait;
