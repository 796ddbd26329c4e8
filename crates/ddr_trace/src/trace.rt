//! A whole trace: its commands, and the cycles that it goes over.
use crate::command::Entry;
use std::marker::Model;

/// The commands from cycle `start` on, and the first cycle that was not made. Contracts see it as a
/// `Recorded` of `specs/`.
#[derive(Debug, Drop)]
pub struct Trace {
    pub start: u64,
    pub end: u64,
    pub entries: Vec<Entry>,
}

impl Model for Trace {
    ghost use Rattle.ddr_trace.specs.Traces.{Recorded};

    ghost Value = { Recorded };

    ghost view = { λ t. record { start = t.start; end = t.end; entries = t.entries.items } };
}
