//! The words of the command line, and what ends the program.
//!
//! Below stands `ddr_text`, with the form of an input and the faults of a command; above stand `ddr_shell` and the programs, which
//! perform what is asked for. So a new option proves these again, and no command. `job` says which `command` the words of the
//! command line ask for, with the texts of `help`; `options` are those of a subcommand, and `misuse` looks for those that would
//! have no effect. `ending` is what ends the program.
#![tactic(auto)]

pub mod command;
pub mod ending;
mod help;
pub mod job;
pub mod misuse;
mod options;
