//! The cycles of the last ACT, read and write, of a bank or of a bank group.
ghost use Rattle.std.specs.Prelude.{◌≡◌};
ghost use Rattle.ddr_rank.specs.Noted.{last_noted};
ghost use Rattle.ddr_rank.specs.Readiness.{last_of};

use ddr_trace::command::{Command, Entry};

/// The kinds of command whose last cycle is kept: those that open a row, and those that move data.
#[derive(Clone, Copy)]
pub enum LastKind {
    Activate,
    Read,
    Write,
}

/// The cycles of the last commands, `None` where there was none.
#[derive(Clone, Copy)]
pub struct Last {
    pub activate: Option<u64>,
    pub read: Option<u64>,
    pub write: Option<u64>,
}

impl Last {
    /// Before the first command.
    pub const NEVER: Last = Last {
        activate: None,
        read: None,
        write: None,
    };

    pub fn of(&self, kind: LastKind) -> Option<u64>
        ensures { result ≡ last_of kind self.now }
    {
        match kind {
            LastKind::Activate => self.activate,
            LastKind::Read => self.read,
            LastKind::Write => self.write,
        }
    }

    /// Keeps the cycle of a command.
    #[inline(always)]
    pub fn note(&mut self, entry: &Entry)
        ensures { self.new ≡ last_noted entry.now self.old }
    {
        match entry.command {
            Command::Act { .. } => self.activate = Some(entry.cycle),
            Command::Rd { .. } | Command::RdAuto { .. } => self.read = Some(entry.cycle),
            Command::Wr { .. } | Command::WrAuto { .. } => self.write = Some(entry.cycle),
            Command::Pre { .. } | Command::PreAll { .. } | Command::Refresh { .. } => {}
        }
    }
}
