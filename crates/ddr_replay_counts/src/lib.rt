//! What a replay counts twice comes to the same, whichever way it is counted.
//!
//! Below stands the command `replay` (`ddr_replay`), which counts at its ports and whose tables count the commands of its channels; above
//! stands nothing. Each function here is a law, and does nothing. `rows` says that ports and channels count the same reads and writes, and
//! `times` that the times of all requests are those of each port's, together.
#![tactic(auto)]

pub mod rows;
pub mod times;
