//! Commands on a channel's command bus.
ghost use Rattle.std.specs.Prelude.{◌≡◌, ◌+◌, ◌&&◌, ◌==◌, nat_lt};
ghost use Rattle.ddr_trace.specs.Commands.{bank_of, group_of, is_activate, is_auto, is_column, is_of_all_banks, is_other_bank, is_other_group, is_precharge, is_read, is_refresh, is_same_bank, is_same_group, is_same_kind, is_same_rank, is_write, rank_of, row_of};
ghost use Rattle.ddr_trace.specs.Names.{command_name};
ghost use Rattle.ddr_trace.specs.Rules.{is_bank_in, is_in};

use ddr_timing::geometry::Geometry;
use ddr_timing::units::{GROUP_BANKS, LINE_COLUMNS};

/// A DDR4 command (JESD79-4, "Command truth table"), with the place that it is for.
#[derive(Clone, Copy, Debug, PartialEq, Eq)]
pub enum Command {
    /// ACT: opens a row of a bank.
    Act {
        rank: u32,
        group: u32,
        bank: u32,
        row: u32,
    },
    /// RD: a burst of 8 beats from a line of the open row. The row is this project's addition.
    Rd {
        rank: u32,
        group: u32,
        bank: u32,
        row: u32,
        line: u32,
    },
    /// WR: a burst of 8 beats to a line of the open row.
    Wr {
        rank: u32,
        group: u32,
        bank: u32,
        row: u32,
        line: u32,
    },
    /// RDA: a read that starts its bank's precharge by itself (JESD79-4, "Auto-Precharge").
    RdAuto {
        rank: u32,
        group: u32,
        bank: u32,
        row: u32,
        line: u32,
    },
    /// WRA: a write that starts its bank's precharge by itself.
    WrAuto {
        rank: u32,
        group: u32,
        bank: u32,
        row: u32,
        line: u32,
    },
    /// PRE: closes the row of a bank.
    Pre {
        rank: u32,
        group: u32,
        bank: u32,
    },
    /// PREA: closes the rows of all banks.
    PreAll {
        rank: u32,
    },
    /// REF: refreshes the rank.
    Refresh {
        rank: u32,
    },
}

/// A command and the clock cycle in which it stands on the bus.
#[derive(Clone, Copy, Debug, PartialEq, Eq)]
pub struct Entry {
    pub cycle: u64,
    pub command: Command,
}

impl Command {
    /// Whether the command's rank, group, bank, row and line lie in the geometry.
    pub fn is_in(&self, geometry: &Geometry) -> bool
        ensures { result ≡ is_in geometry.now self.now }
    {
        let lines = geometry.columns / LINE_COLUMNS;
        match *self {
            Command::Act {
                rank,
                group,
                bank,
                row,
            } => is_bank_in(geometry, rank, group, bank) && row < geometry.rows,
            Command::Rd {
                rank,
                group,
                bank,
                row,
                line,
            }
            | Command::Wr {
                rank,
                group,
                bank,
                row,
                line,
            }
            | Command::RdAuto {
                rank,
                group,
                bank,
                row,
                line,
            }
            | Command::WrAuto {
                rank,
                group,
                bank,
                row,
                line,
            } => is_bank_in(geometry, rank, group, bank) && row < geometry.rows && line < lines,
            Command::Pre { rank, group, bank } => is_bank_in(geometry, rank, group, bank),
            Command::PreAll { rank } | Command::Refresh { rank } => rank < geometry.ranks,
        }
    }

    /// Whether this is an ACT.
    pub fn is_activate(&self) -> bool
        ensures { result ≡ is_activate self.now }
    {
        matches!(self, Command::Act { .. })
    }

    /// Whether this is a read, with auto-precharge or without.
    pub fn is_read(&self) -> bool
        ensures { result ≡ is_read self.now }
    {
        matches!(self, Command::Rd { .. } | Command::RdAuto { .. })
    }

    /// Whether this is a write, with auto-precharge or without.
    pub fn is_write(&self) -> bool
        ensures { result ≡ is_write self.now }
    {
        matches!(self, Command::Wr { .. } | Command::WrAuto { .. })
    }

    /// Whether this is a read or a write.
    pub fn is_column(&self) -> bool
        ensures { result ≡ is_column self.now }
    {
        self.is_read() || self.is_write()
    }

    /// Whether this is a read or a write with auto-precharge.
    pub fn is_auto(&self) -> bool
        ensures { result ≡ is_auto self.now }
    {
        matches!(self, Command::RdAuto { .. } | Command::WrAuto { .. })
    }

    /// Whether this is a precharge of one bank or of all.
    pub fn is_precharge(&self) -> bool
        ensures { result ≡ is_precharge self.now }
    {
        matches!(self, Command::Pre { .. } | Command::PreAll { .. })
    }

    /// Whether this is a REF.
    pub fn is_refresh(&self) -> bool
        ensures { result ≡ is_refresh self.now }
    {
        matches!(self, Command::Refresh { .. })
    }

    /// The name that a trace's text has for the command.
    pub fn name(&self) -> &'static str
        ensures { result.now ≡ command_name self.now }
    {
        match self {
            Command::Act { .. } => "ACT",
            Command::Rd { .. } => "RD",
            Command::Wr { .. } => "WR",
            Command::RdAuto { .. } => "RDA",
            Command::WrAuto { .. } => "WRA",
            Command::Pre { .. } => "PRE",
            Command::PreAll { .. } => "PREA",
            Command::Refresh { .. } => "REF",
        }
    }

    /// The rank that the command is of.
    pub fn rank(&self) -> u32
        ensures { result ≡ rank_of self.now }
    {
        match *self {
            Command::Act { rank, .. }
            | Command::Rd { rank, .. }
            | Command::Wr { rank, .. }
            | Command::RdAuto { rank, .. }
            | Command::WrAuto { rank, .. }
            | Command::Pre { rank, .. }
            | Command::PreAll { rank }
            | Command::Refresh { rank } => rank,
        }
    }

    /// The bank group, 0 where the command names none.
    pub fn group(&self) -> u32
        ensures { result ≡ group_of self.now }
    {
        match *self {
            Command::Act { group, .. }
            | Command::Rd { group, .. }
            | Command::Wr { group, .. }
            | Command::RdAuto { group, .. }
            | Command::WrAuto { group, .. }
            | Command::Pre { group, .. } => group,
            Command::PreAll { .. } | Command::Refresh { .. } => 0,
        }
    }

    /// The bank in its group, 0 where the command names none.
    pub fn bank(&self) -> u32
        ensures { result ≡ bank_of self.now }
    {
        match *self {
            Command::Act { bank, .. }
            | Command::Rd { bank, .. }
            | Command::Wr { bank, .. }
            | Command::RdAuto { bank, .. }
            | Command::WrAuto { bank, .. }
            | Command::Pre { bank, .. } => bank,
            Command::PreAll { .. } | Command::Refresh { .. } => 0,
        }
    }

    /// The row, 0 where the command names none.
    pub fn row(&self) -> u32
        ensures { result ≡ row_of self.now }
    {
        match *self {
            Command::Act { row, .. }
            | Command::Rd { row, .. }
            | Command::Wr { row, .. }
            | Command::RdAuto { row, .. }
            | Command::WrAuto { row, .. } => row,
            _ => 0,
        }
    }

    /// Whether this is a PREA.
    pub fn is_of_all_banks(&self) -> bool
        ensures { result ≡ is_of_all_banks self.now }
    {
        matches!(self, Command::PreAll { .. })
    }

    /// Whether both are of one rank.
    pub fn is_same_rank(&self, other: &Command) -> bool
        ensures { result ≡ is_same_rank self.now other.now }
    {
        self.rank() == other.rank()
    }

    /// Whether this is an ACT of the other command's rank.
    pub fn is_activate_of_rank(&self, other: &Command) -> bool
        ensures { result ≡ (is_activate self.now && is_same_rank self.now other.now) }
    {
        self.is_activate() && self.is_same_rank(other)
    }

    /// Whether this is a REF of the other command's rank.
    pub fn is_refresh_of_rank(&self, other: &Command) -> bool
        ensures { result ≡ (is_refresh self.now && is_same_rank self.now other.now) }
    {
        self.is_refresh() && self.is_same_rank(other)
    }

    /// Whether both are of one bank group of one rank.
    pub fn is_same_group(&self, other: &Command) -> bool
        ensures { result ≡ is_same_group self.now other.now }
    {
        self.is_same_rank(other) && self.group() == other.group()
    }

    /// Whether both are of one rank and not of one group.
    pub fn is_other_group(&self, other: &Command) -> bool
        ensures { result ≡ is_other_group self.now other.now }
    {
        self.is_same_rank(other) && self.group() != other.group()
    }

    /// Whether both are of one group and not of one bank number.
    pub fn is_other_bank(&self, other: &Command) -> bool
        ensures { result ≡ is_other_bank self.now other.now }
    {
        self.is_same_group(other) && self.bank() != other.bank()
    }

    /// Whether both are reads, or both writes.
    pub fn is_same_kind(&self, other: &Command) -> bool
        ensures { result ≡ is_same_kind self.now other.now }
    {
        (self.is_read() && other.is_read()) || (self.is_write() && other.is_write())
    }

    /// Whether both are of one bank; PREA is of every bank of its rank.
    pub fn is_same_bank(&self, other: &Command) -> bool
        ensures { result ≡ is_same_bank self.now other.now }
    {
        self.is_same_rank(other)
            && (self.is_of_all_banks()
                || other.is_of_all_banks()
                || (self.group() == other.group() && self.bank() == other.bank()))
    }
}

impl Entry {
    /// Whether the entry stands fewer than `clocks` after the earlier one.
    pub fn is_within(&self, clocks: u32, earlier: &Entry) -> bool
        ensures { result ≡ nat_lt self.now.cycle (earlier.now.cycle + clocks) }
    {
        is_before(self.cycle, earlier.cycle, clocks)
    }
}

/// Whether the cycle stands fewer than `clocks` after the earlier one, or before it.
pub fn is_before(cycle: u64, earlier: u64, clocks: u32) -> bool
    ensures { result ≡ nat_lt cycle (earlier + clocks) }
{
    match earlier.checked_add(u64::from(clocks)) {
        Some(end) => cycle < end,
        None => true,
    }
}

/// Whether there is such a bank.
fn is_bank_in(geometry: &Geometry, rank: u32, group: u32, bank: u32) -> bool
    ensures { result ≡ is_bank_in geometry.now rank group bank }
{
    rank < geometry.ranks && group < geometry.groups && bank < GROUP_BANKS
}
