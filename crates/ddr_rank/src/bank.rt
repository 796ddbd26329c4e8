//! What is kept of one bank.
ghost use Rattle.std.specs.Prelude.{◌≡◌, Some};
ghost use Rattle.ddr_trace.specs.Banks.{is_auto_within, open_row, ready_row};
ghost use Rattle.ddr_rank.specs.First.{behind_auto, behind_start};
ghost use Rattle.ddr_rank.specs.May.{is_idle};
ghost use Rattle.ddr_rank.specs.Noted.{bank_noted};

use crate::cycles::after;
use crate::last::Last;
use ddr_timing::timing::Timing;
use ddr_trace::bank::{OpenBank, changed_by, recovery};
use ddr_trace::command::{Command, Entry};

/// A bank: its open row, and the cycles of its last commands. Its last read and write outlive an auto-precharge and the
/// next ACT, since RTP and WR go on counting from them.
#[derive(Clone, Copy)]
pub struct Bank {
    /// What its ACTs, auto-precharges and precharges made of it. `None` where it is idle by a precharge.
    pub opened: Option<OpenBank>,
    /// The last precharge of the bank, alone or with all, whether or not it found the bank idle.
    pub precharge: Option<u64>,
    pub last: Last,
}

impl Bank {
    /// Before the first command.
    pub const IDLE: Bank = Bank {
        opened: None,
        precharge: None,
        last: Last::NEVER,
    };

    /// Keeps a command of the bank.
    #[inline(always)]
    pub fn note(&mut self, entry: &Entry)
        ensures { self.new ≡ bank_noted entry.now self.old }
    {
        self.opened = changed_by(entry, self.opened);
        if let Command::Pre { .. } | Command::PreAll { .. } = entry.command {
            self.precharge = Some(entry.cycle);
        }
        self.last.note(entry);
    }

    /// The open row in this cycle.
    pub fn open_row(&self, cycle: u64, timing: &Timing) -> Option<u32>
        ensures { result ≡ open_row timing.now cycle self.now.opened }
    {
        match &self.opened {
            Some(bank) => bank.open_row(cycle, timing),
            None => None,
        }
    }

    /// The row that reads and writes find.
    pub fn ready_row(&self) -> Option<u32>
        ensures { result ≡ ready_row self.now.opened }
    {
        match &self.opened {
            Some(bank) => bank.ready_row(),
            None => None,
        }
    }

    /// Whether the bank has an auto-precharge, and RP isn't over since its start.
    pub fn is_auto_within(&self, cycle: u64, timing: &Timing) -> bool
        ensures { result ≡ is_auto_within timing.now timing.now.rp cycle self.now.opened }
    {
        match &self.opened {
            Some(bank) => bank.is_auto_within(cycle, timing),
            None => false,
        }
    }

    /// Whether nothing holds an ACT of the bank up: it has no open row, and RP is over since the start of an auto-precharge.
    /// In the last cycle that a `u64` counts it may be so though RP isn't over.
    pub fn is_idle(&self, cycle: u64, timing: &Timing) -> bool
        ensures { result ≡ is_idle timing.now cycle self.now.opened }
    {
        match &self.opened {
            Some(bank) => match &bank.auto {
                Some(auto) => behind_start(bank, auto, timing) <= cycle,
                None => false,
            },
            None => true,
        }
    }

    /// The cycle that stands RP behind the start of the bank's auto-precharge, 0 where it has none.
    pub fn behind_auto(&self, timing: &Timing) -> u64
        ensures { result ≡ behind_auto timing.now self.now.opened }
    {
        match &self.opened {
            Some(bank) => match &bank.auto {
                Some(auto) => behind_start(bank, auto, timing),
                None => 0,
            },
            None => 0,
        }
    }
}

/// The cycle that stands RP behind the start of this auto-precharge of the bank.
fn behind_start(bank: &OpenBank, auto: &Entry, timing: &Timing) -> u64
    ensures { result ≡ behind_start timing.now bank.now (Some auto.now) }
{
    let recovered = after(auto.cycle, recovery(&auto.command, timing) + timing.rp);
    after(bank.since, timing.ras + timing.rp).max(recovered)
}
