//! What is kept of one bank: its numbers, and how its next read or write would find it.
//!
//! `counts` stands below, and `rank` above.
ghost use Rattle.std.specs.Prelude.{◌≡◌};
ghost use Rattle.ddr_statistics.specs.Noted.{bank_closed, bank_noted};
ghost use Rattle.ddr_statistics.specs.Visits.{visit_after};

use crate::counts::{Counts, Finding};
use ddr_trace::command::Command;

/// What a bank's commands make of its next read or write.
#[derive(Clone, Copy)]
pub struct Visit {
    /// Whether of all that closed the bank a PRE was the last.
    pub closed_by_pre: bool,
    /// How the next read or write finds the bank.
    pub next: Finding,
}

impl Visit {
    /// Before the first command of the bank.
    pub const FIRST: Visit = Visit {
        closed_by_pre: false,
        next: Finding::Miss,
    };

    /// Follows a command of the bank.
    pub fn note(&mut self, command: &Command)
        ensures { self.new ≡ visit_after command.now self.old }
    {
        match command {
            Command::Act { .. } => {
                self.next = if self.closed_by_pre {
                    Finding::Conflict
                } else {
                    Finding::Miss
                }
            }
            Command::Rd { .. } | Command::Wr { .. } => self.next = Finding::Hit,
            Command::RdAuto { .. } | Command::WrAuto { .. } => {
                self.next = Finding::Hit;
                self.closed_by_pre = false;
            }
            Command::Pre { .. } => self.closed_by_pre = true,
            Command::PreAll { .. } => self.closed_by_pre = false,
            Command::Refresh { .. } => {}
        }
    }
}

/// A bank.
#[derive(Clone, Copy)]
pub struct Bank {
    pub visit: Visit,
    pub counts: Counts,
}

impl Bank {
    /// Before the first command.
    pub const NEW: Bank = Bank {
        visit: Visit::FIRST,
        counts: Counts::NONE,
    };

    /// Counts a command of this bank alone, which found it so if it is a read or a write.
    pub fn note(&mut self, command: &Command, found: Option<Finding>)
        ensures { self.new ≡ bank_noted command.now found self.old }
    {
        self.counts.note(command, found);
        self.visit.note(command);
    }

    /// Follows a PREA, which is no command of the bank alone.
    pub fn close(&mut self, command: &Command)
        ensures { self.new ≡ bank_closed command.now self.old }
    {
        self.visit.note(command);
    }
}
