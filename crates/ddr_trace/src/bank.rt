//! What commands make of one bank: the row that an ACT opens, until a precharge or an auto-precharge closes it.
ghost use Rattle.std.specs.Prelude.{◌≡◌, nat_le};
ghost use Rattle.ddr_trace.specs.Banks.{auto_start, bank_after, changed_by, closing, is_auto_within, open_row, opened, ready_row, recovery};

use crate::command::{Command, Entry, is_before};
use ddr_timing::timing::Timing;
use ddr_timing::units::BURST_CLOCKS;

/// A bank that an ACT has opened, and no PRE or PREA since. Auto-precharge: JESD79-4, "Auto-Precharge"; that it starts no
/// sooner than RAS behind the ACT is this project's choice.
#[derive(Clone, Copy, Debug, PartialEq, Eq)]
pub struct OpenBank {
    pub row: u32,
    /// The cycle of the ACT.
    pub since: u64,
    /// The last RDA or WRA since, with its cycle.
    pub auto: Option<Entry>,
}

impl OpenBank {
    /// The open row in this cycle: `None` from the start of an auto-precharge on.
    pub fn open_row(&self, cycle: u64, timing: &Timing) -> Option<u32>
        ensures { result ≡ open_row timing.now cycle (Some self.now) }
    {
        match &self.auto {
            Some(auto) if self.has_started(auto, cycle, timing) => None,
            _ => Some(self.row),
        }
    }

    /// The row that reads and writes find: `None` once an RDA or WRA is to close it.
    pub fn ready_row(&self) -> Option<u32>
        ensures { result ≡ ready_row (Some self.now) }
    {
        match self.auto {
            Some(_) => None,
            None => Some(self.row),
        }
    }

    /// Whether the bank has an auto-precharge, and RP isn't over since its start.
    pub fn is_auto_within(&self, cycle: u64, timing: &Timing) -> bool
        ensures { result ≡ is_auto_within timing.now timing.now.rp cycle (Some self.now) }
    {
        match &self.auto {
            Some(auto) => {
                is_before(
                    cycle,
                    auto.cycle,
                    recovery(&auto.command, timing) + timing.rp,
                ) || is_before(cycle, self.since, timing.ras + timing.rp)
            }
            None => false,
        }
    }

    /// Whether this auto-precharge of the bank has started by the cycle.
    fn has_started(&self, auto: &Entry, cycle: u64, timing: &Timing) -> bool
        ensures { result ≡ nat_le (auto_start timing.now self.now auto.now) cycle }
    {
        !is_before(cycle, auto.cycle, recovery(&auto.command, timing))
            && !is_before(cycle, self.since, timing.ras)
    }

    /// The bank, to be closed by this RDA or WRA.
    fn closing(self, auto: &Entry) -> OpenBank
        ensures { result ≡ closing auto.now self }
    {
        OpenBank {
            auto: Some(*auto),
            ..self
        }
    }
}

/// What a command of the bank makes of it. `None` is a bank that nothing opened, or that a precharge closed.
pub fn changed_by(entry: &Entry, bank: Option<OpenBank>) -> Option<OpenBank>
    ensures { result ≡ changed_by entry.now bank }
{
    match entry.command {
        Command::Act { row, .. } => Some(OpenBank {
            row,
            since: entry.cycle,
            auto: None,
        }),
        Command::Pre { .. } | Command::PreAll { .. } => None,
        Command::RdAuto { .. } | Command::WrAuto { .. } => match bank {
            Some(bank) => Some(bank.closing(entry)),
            None => None,
        },
        Command::Rd { .. } | Command::Wr { .. } | Command::Refresh { .. } => bank,
    }
}

/// What an entry makes of the bank that the command is for.
pub(crate) fn bank_after(
    command: &Command,
    bank: Option<OpenBank>,
    entry: &Entry,
) -> Option<OpenBank>
    ensures { result ≡ bank_after command.now bank entry.now }
{
    if entry.command.is_same_bank(command) {
        changed_by(entry, bank)
    } else {
        bank
    }
}

/// The clocks from a read or a write to a precharge of its bank: RTP behind a read, and WR behind the last data of a write.
pub fn recovery(command: &Command, timing: &Timing) -> u32
    ensures { result ≡ recovery timing.now command.now }
{
    if command.is_read() {
        timing.rtp
    } else {
        timing.cwl + BURST_CLOCKS + timing.wr
    }
}
