//! Commands as the tests of ranks, of the command bus and of channels write them.
use ddr_trace::command::{Command, Entry};
use std::alloc::{AllocError, Global};

/// A command with its cycle and then the group, the bank, the row and the line that it names. It is of rank 0 where no
/// other is given.
#[derive(Clone, Copy)]
pub enum Step {
    Act(u64, u32, u32, u32),
    Rd(u64, u32, u32, u32, u32),
    Wr(u64, u32, u32, u32, u32),
    RdAuto(u64, u32, u32, u32, u32),
    WrAuto(u64, u32, u32, u32, u32),
    Pre(u64, u32, u32),
    PreAll(u64),
    Refresh(u64),
}

impl Step {
    pub fn cycle(self) -> u64 {
        match self {
            Step::Act(cycle, ..)
            | Step::Rd(cycle, ..)
            | Step::Wr(cycle, ..)
            | Step::RdAuto(cycle, ..)
            | Step::WrAuto(cycle, ..)
            | Step::Pre(cycle, ..)
            | Step::PreAll(cycle)
            | Step::Refresh(cycle) => cycle,
        }
    }

    pub fn command(self) -> Command {
        self.command_of(0)
    }

    /// The command of a rank.
    pub fn command_of(self, rank: u32) -> Command {
        match self {
            Step::Act(_, group, bank, row) => Command::Act {
                rank,
                group,
                bank,
                row,
            },
            Step::Rd(_, group, bank, row, line) => Command::Rd {
                rank,
                group,
                bank,
                row,
                line,
            },
            Step::Wr(_, group, bank, row, line) => Command::Wr {
                rank,
                group,
                bank,
                row,
                line,
            },
            Step::RdAuto(_, group, bank, row, line) => Command::RdAuto {
                rank,
                group,
                bank,
                row,
                line,
            },
            Step::WrAuto(_, group, bank, row, line) => Command::WrAuto {
                rank,
                group,
                bank,
                row,
                line,
            },
            Step::Pre(_, group, bank) => Command::Pre { rank, group, bank },
            Step::PreAll(_) => Command::PreAll { rank },
            Step::Refresh(_) => Command::Refresh { rank },
        }
    }

    pub fn entry(self) -> Entry {
        Entry {
            cycle: self.cycle(),
            command: self.command(),
        }
    }
}

/// Five banks read in profile S, of which the fifth is in the first one's group. The third ACT waits for the read of cycle 4, and
/// the fifth, which FAW allows at 12, leaves the bus to the one of that cycle.
pub const FIVE_BANKS: &[Step] = &[
    Step::Act(0, 0, 0, 0),
    Step::Act(2, 1, 0, 0),
    Step::Rd(4, 0, 0, 0, 0),
    Step::Act(5, 2, 0, 0),
    Step::Act(7, 3, 0, 0),
    Step::Rd(8, 1, 0, 0, 0),
    Step::Rd(12, 2, 0, 0, 0),
    Step::Act(13, 0, 1, 0),
    Step::Rd(16, 3, 0, 0, 0),
    Step::Rd(20, 0, 1, 0, 0),
];

/// The entries of these steps, in order.
pub fn entries_of(alloc: Global, steps: &[Step]) -> Result<Vec<Entry>, AllocError> {
    let mut entries = Vec::new(alloc);
    for step in steps {
        entries.push(step.entry())?;
    }
    Ok(entries)
}
