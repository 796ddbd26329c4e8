//! Captured command traces: how their lines are read, in this project's own form and in those of other simulators.
//!
//! Below stand the program's texts (`ddr_text`) and the commands of a trace with their text (`ddr_trace`, `ddr_trace_text`). `number` and
//! `hexadecimal` read numbers, `cuts` takes a line's fields apart, `tool` reads the fields of another simulator's line and `own` those of
//! this project's, and `line` reads a line of either. `form` says of which channel a command is. `feed` finds the lines of an input,
//! `front` its configuration, `reading` keeps what the lines say, `report` tells it, and `capture` is the command.
#![tactic(auto)]

pub mod capture;
mod cuts;
pub mod feed;
pub mod form;
pub mod front;
pub mod hexadecimal;
pub mod line;
mod number;
mod own;
mod place;
mod reading;
mod report;
mod tool;
