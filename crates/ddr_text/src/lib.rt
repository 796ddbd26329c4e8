//! The program's texts: its inputs, its faults, and the two commands that need no core.
//!
//! Below stand `ddr_timing`, `ddr_trace`, `ddr_trace_text`, `ddr_legality` and `ddr_address_map`, the words of `ddr_ports`, and the replies
//! of `ddr_reorder`, of which `reply` makes lines; above stand the crates of the other commands, `ddr_words`, which reads the command line,
//! and the programs, which perform what is asked for. `command` says in which form an input is read. An input goes from module to module:
//! `source` is where it comes from, `input` makes a text of its bytes, `body` takes the configuration off it, `script` reads a line, whose
//! bytes are read by `hexadecimal`, and `instructions` a whole script, and `requests` looks for what no port takes. `canonical` reads a
//! trace in the form in which it is written. `check` and `map` are commands over a reader and a writer; `writing` gives text out, and
//! `sink` is where it goes. `fault` is what can go wrong in a command.
#![tactic(auto)]

pub mod body;
mod canonical;
pub mod check;
pub mod command;
pub mod fault;
mod hexadecimal;
pub mod input;
pub mod instructions;
pub mod map;
pub mod reply;
pub mod requests;
pub mod script;
pub mod sink;
pub mod source;
pub mod writing;
