//! DDR4 command traces: what they are, the rules that a legal one keeps, and the checker that finds the first fault.
//!
//! Below stands `ddr_timing`; the text in which traces are kept stands above, in `ddr_trace_text`. `command` is one command with its
//! cycle, and `bank` what commands make of one bank; `rule` names the rules, which `specs/Rules.antt` defines; `spacing` has the table of
//! those on two commands; `checker`, the reference, finds the first fault, over `banks`, `spacing`, `window` and `ranks`, one for each kind
//! of rule; `refresh` says when a REF comes too late; `trace` is a whole trace.
#![tactic(auto)]

pub mod bank;
mod banks;
pub mod checker;
pub mod command;
pub mod ranks;
pub mod refresh;
pub mod rule;
pub mod spacing;
pub mod trace;
pub mod window;
