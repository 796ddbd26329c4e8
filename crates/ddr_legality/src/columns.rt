//! The last read and the last write of a rank, as much as the rule on two ranks asks of them, and the first cycles that
//! they leave the other rank.
ghost use Rattle.std.specs.Prelude.{◌≡◌};
ghost use Rattle.ddr_legality.specs.Columns.{behind_columns, behind_switch, columns_noted, is_switched_soon, switch_behind, switches_soon};

use ddr_timing::timing::Timing;
use ddr_trace::command::{Command, Entry, is_before};
use ddr_trace::ranks::rank_switch;

/// The last read and the last write of a rank, with their cycles. An RDA is a read and a WRA a write.
#[derive(Clone, Copy)]
pub(crate) struct Columns {
    read: Option<Entry>,
    write: Option<Entry>,
}

impl Columns {
    /// Neither yet.
    pub const NONE: Columns = Columns {
        read: None,
        write: None,
    };

    /// Keeps a command of the rank, where it is a read or a write.
    pub fn note(&mut self, entry: &Entry)
        ensures { self.new ≡ columns_noted entry.now self.old }
    {
        match entry.command {
            Command::Rd { .. } | Command::RdAuto { .. } => self.read = Some(*entry),
            Command::Wr { .. } | Command::WrAuto { .. } => self.write = Some(*entry),
            Command::Act { .. }
            | Command::Pre { .. }
            | Command::PreAll { .. }
            | Command::Refresh { .. } => {}
        }
    }

    /// Whether an entry of another rank is a read or a write too close behind these two.
    pub fn are_left_too_soon(&self, entry: &Entry, timing: &Timing) -> bool
        ensures { result ≡ switches_soon timing.now self.now entry.now }
    {
        entry.command.is_column()
            && (is_switched_soon(&self.read, entry, timing)
                || is_switched_soon(&self.write, entry, timing))
    }

    /// The first cycles in which reads and writes of another rank are not too close behind these two.
    pub fn switch(&self, timing: &Timing) -> Switch
        ensures { result ≡ switch_behind timing.now self.now }
    {
        Switch {
            read: self.allowed_at(&READ, timing),
            write: self.allowed_at(&WRITE, timing),
        }
    }

    /// The first cycle in which a command of another rank is not too close behind these two.
    fn allowed_at(&self, command: &Command, timing: &Timing) -> u64
        ensures { result ≡ behind_columns timing.now self.now command.now }
    {
        if !command.is_column() {
            return 0;
        }
        let read = behind_switch(&self.read, command, timing);
        read.max(behind_switch(&self.write, command, timing))
    }
}

/// Of a rank, the first cycles of its reads and writes that those of the other rank leave. 0 where nothing holds them up.
#[derive(Clone, Copy)]
pub(crate) struct Switch {
    pub read: u64,
    pub write: u64,
}

impl Switch {
    /// Before the first command.
    pub const FREE: Switch = Switch { read: 0, write: 0 };
}

/// A read and a write, of whatever place.
const READ: Command = Command::Rd {
    rank: 0,
    group: 0,
    bank: 0,
    row: 0,
    line: 0,
};

const WRITE: Command = Command::Wr {
    rank: 0,
    group: 0,
    bank: 0,
    row: 0,
    line: 0,
};

/// The first cycle that leaves the least distance of a command of another rank behind this one.
fn behind_switch(last: &Option<Entry>, command: &Command, timing: &Timing) -> u64
    ensures { result ≡ behind_switch timing.now last.now command.now }
{
    match last {
        Some(last) => {
            let clocks = rank_switch(&last.command, command, timing);
            last.cycle.saturating_add(u64::from(clocks))
        }
        None => 0,
    }
}

/// Whether the entry, of another rank, stands too close behind this one.
fn is_switched_soon(last: &Option<Entry>, entry: &Entry, timing: &Timing) -> bool
    ensures { result ≡ is_switched_soon timing.now last.now entry.now }
{
    match last {
        Some(last) => is_before(
            entry.cycle,
            last.cycle,
            rank_switch(&last.command, &entry.command, timing),
        ),
        None => false,
    }
}
