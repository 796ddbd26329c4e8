//! The numbers of one place of a trace: of a bank, of a rank or of the whole channel.
//!
//! `ddr_trace` stands below, and `bank`, `rank` and `statistics` above.
ghost use Rattle.std.specs.Prelude.{◌≡◌};
ghost use Rattle.ddr_statistics.specs.Noted.{busy_noted, counts_noted, found_noted, kind_noted, raised, raised_if};

use ddr_timing::units::BURST_CLOCKS;
use ddr_trace::command::Command;

/// How a read or a write finds its bank.
#[derive(Clone, Copy, Debug, PartialEq, Eq)]
pub enum Finding {
    /// It isn't the first one of its bank since the bank's last ACT.
    Hit,
    /// It is the first one, and no PRE of its bank made way for that ACT: the bank was never closed before it, or a PREA
    /// or an auto-precharge was the last to close it.
    Miss,
    /// It is the first one, and a PRE of its bank was the last to close the bank before that ACT.
    Conflict,
}

/// How many commands of each kind there were, how reads and writes found their banks, and for how many clocks their data
/// were on the data bus. Each number stops at the last one that a `u64` holds.
#[derive(Clone, Copy, Debug, PartialEq, Eq)]
pub struct Counts {
    /// ACT.
    pub activates: u64,
    /// PRE, of one bank.
    pub precharges: u64,
    /// PREA, of all banks of a rank.
    pub precharges_all: u64,
    /// RD without auto-precharge.
    pub reads: u64,
    /// WR without auto-precharge.
    pub writes: u64,
    /// RDA.
    pub reads_auto: u64,
    /// WRA.
    pub writes_auto: u64,
    /// REF.
    pub refreshes: u64,
    /// Reads and writes that are `Finding::Hit`.
    pub row_hits: u64,
    /// Reads and writes that are `Finding::Miss`.
    pub row_misses: u64,
    /// Reads and writes that are `Finding::Conflict`.
    pub row_conflicts: u64,
    /// Clocks of the data bus: those of a burst for each read and write.
    pub busy_clocks: u64,
}

impl Counts {
    /// Of no command.
    pub const NONE: Counts = Counts {
        activates: 0,
        precharges: 0,
        precharges_all: 0,
        reads: 0,
        writes: 0,
        reads_auto: 0,
        writes_auto: 0,
        refreshes: 0,
        row_hits: 0,
        row_misses: 0,
        row_conflicts: 0,
        busy_clocks: 0,
    };

    /// Counts a command of the place, which found its bank so if it is a read or a write.
    #[tactic(auto, unfolding(crate::specs::Noted::counts_noted))]
    pub(crate) fn note(&mut self, command: &Command, found: Option<Finding>)
        ensures { self.new ≡ counts_noted command.now found self.old }
    {
        self.note_kind(command);
        self.note_found(found);
        self.note_burst(command);
    }

    fn note_kind(&mut self, command: &Command)
        ensures { self.new ≡ kind_noted command.now self.old }
    {
        match command {
            Command::Act { .. } => raise(&mut self.activates, 1),
            Command::Rd { .. } => raise(&mut self.reads, 1),
            Command::Wr { .. } => raise(&mut self.writes, 1),
            Command::RdAuto { .. } => raise(&mut self.reads_auto, 1),
            Command::WrAuto { .. } => raise(&mut self.writes_auto, 1),
            Command::Pre { .. } => raise(&mut self.precharges, 1),
            Command::PreAll { .. } => raise(&mut self.precharges_all, 1),
            Command::Refresh { .. } => raise(&mut self.refreshes, 1),
        }
    }

    fn note_found(&mut self, found: Option<Finding>)
        ensures { self.new ≡ found_noted found self.old }
    {
        match found {
            Some(Finding::Hit) => raise(&mut self.row_hits, 1),
            Some(Finding::Miss) => raise(&mut self.row_misses, 1),
            Some(Finding::Conflict) => raise(&mut self.row_conflicts, 1),
            None => {}
        }
    }

    fn note_burst(&mut self, command: &Command)
        ensures { self.new ≡ busy_noted command.now self.old }
    {
        if command.is_column() {
            raise(&mut self.busy_clocks, u64::from(BURST_CLOCKS));
        }
    }
}

/// Counts one more where the test passed.
pub(crate) fn raise_if(number: &mut u64, passes: bool)
    ensures { number.new ≡ raised_if passes number.old }
{
    if passes {
        raise(number, 1);
    }
}

/// Adds to a number, which stops at the last one that it can hold.
fn raise(number: &mut u64, by: u64)
    ensures { number.new ≡ raised by number.old }
{
    *number = number.saturating_add(by);
}
