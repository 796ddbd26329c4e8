//! What a change of the picture is.
//!
//! `ddr_trace` stands below, and all other modules of the crate above.

use ddr_trace::command::Command;

/// What is shown from a change on.
#[derive(Clone, Copy, Debug)]
pub enum Shown {
    /// The command stands on the command bus.
    Named(Command),
    /// No command stands on the command bus.
    Quiet,
    /// The burst of this read or write is on the data bus.
    Burst(Command),
    /// No burst is on the data bus.
    Free,
    /// The bank of this ACT has its row open.
    Open(Command),
    /// The bank of this ACT is idle.
    Idle(Command),
    /// Nothing changes, and the trace ends.
    End,
}

/// What is shown from a cycle on.
#[derive(Clone, Copy, Debug)]
pub struct Change {
    pub cycle: u64,
    pub shown: Shown,
}
