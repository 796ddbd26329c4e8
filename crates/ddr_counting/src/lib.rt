//! The statistics of the channels of a core, counted as their commands are issued.
//!
//! Below stand the statistics of a trace (`ddr_statistics`), the core (`ddr_world`) and its rounds (`ddr_rounds`); above, `ddr_replay` and
//! `ddr_c`. `noting` watches rounds and counts what it is told, so that no command has to be kept for it.
#![tactic(auto)]

pub mod noting;
