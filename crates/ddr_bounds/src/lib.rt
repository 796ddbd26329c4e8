//! Bounds on what the requests and the refreshes of a channel wait for, in counts of cycles and of commands.
//!
//! Below stands one channel (`ddr_channel`), whose promise says what a list of calls makes of it. Each function here is
//! a law over every list of calls, and does nothing: `columns` has the distance of column commands, `overtakers` how
//! many later requests are served before one, and `refresh` how late a REF comes, and that every trace is refreshed.
#![tactic(auto)]

pub mod columns;
pub mod overtakers;
pub mod refresh;
