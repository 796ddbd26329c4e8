//! What is kept of one rank: its numbers, and its banks.
//!
//! `bank` stands below, and `statistics` above.
ghost use Rattle.std.specs.Prelude.{◌≡◌, ◌<◌, map};
ghost use Rattle.ddr_timing.specs.declared.units.TheConstants.{GROUP_BANKS, MOST_GROUPS};
ghost use Rattle.ddr_trace.specs.Commands.{bank_of, group_of};
ghost use Rattle.ddr_statistics.specs.Noted.{bank_at, bank_closed, found_in, rank_noted};

use crate::bank::Bank;
use crate::counts::{Counts, Finding};
use ddr_timing::bank::number_in_rank;
use ddr_timing::units::{GROUP_BANKS, MOST_GROUPS};
use ddr_trace::command::Command;

/// The most banks of a rank.
pub const MOST_BANKS: usize = (MOST_GROUPS * GROUP_BANKS) as usize;

/// A rank. Bank b of group g stands at g * GROUP_BANKS + b.
#[derive(Clone, Copy)]
pub struct Rank {
    pub counts: Counts,
    pub banks: [Bank; MOST_BANKS],
}

impl Rank {
    /// Before the first command.
    pub const NEW: Rank = Rank {
        counts: Counts::NONE,
        banks: [Bank::NEW; MOST_BANKS],
    };

    /// How a command of the rank finds its bank, `None` where it is no read or write.
    pub fn finding(&self, command: &Command) -> Option<Finding>
        requires group_in { group_of command.now < MOST_GROUPS }
        requires bank_in { bank_of command.now < GROUP_BANKS }
        ensures { result ≡ found_in self.now command.now }
    {
        match *command {
            Command::Rd { group, bank, .. }
            | Command::Wr { group, bank, .. }
            | Command::RdAuto { group, bank, .. }
            | Command::WrAuto { group, bank, .. } => Some(self.bank(group, bank).visit.next),
            _ => None,
        }
    }

    /// Counts a command of the rank, which found its bank so if it is a read or a write.
    pub fn note(&mut self, command: &Command, found: Option<Finding>)
        requires group_in { group_of command.now < MOST_GROUPS }
        requires bank_in { bank_of command.now < GROUP_BANKS }
        ensures { self.new ≡ rank_noted command.now found self.old }
    {
        self.counts.note(command, found);
        match *command {
            Command::Act { group, bank, .. }
            | Command::Rd { group, bank, .. }
            | Command::Wr { group, bank, .. }
            | Command::RdAuto { group, bank, .. }
            | Command::WrAuto { group, bank, .. }
            | Command::Pre { group, bank, .. } => {
                self.banks[number_in_rank(group, bank)].note(command, found);
            }
            Command::PreAll { .. } => close_all(&mut self.banks, command),
            Command::Refresh { .. } => {}
        }
    }

    /// What is kept of a bank.
    pub fn bank(&self, group: u32, bank: u32) -> &Bank
        requires group_in { group < MOST_GROUPS }
        requires bank_in { bank < GROUP_BANKS }
        ensures { result.now ≡ bank_at self.now group bank }
    {
        &self.banks[number_in_rank(group, bank)]
    }
}

/// Follows a PREA in all banks of a rank.
fn close_all(banks: &mut [Bank; MOST_BANKS], command: &Command)
    ensures { banks.new ≡ map (bank_closed command.now) banks.old }
{
    for bank in banks {
        bank.close(command);
    }
}
