//! The banks of a channel, numbered over its ranks.
ghost use Rattle.std.specs.Prelude.{◌≡◌, ◌+◌, ◌*◌, ◌<◌};
ghost use Rattle.ddr_timing.specs.Banks.{bank_count, bank_number, rank_bank_count, widest_bank_number};
ghost use Rattle.ddr_timing.specs.declared.units.TheConstants.{GROUP_BANKS, MOST_GROUPS};

use crate::geometry::Geometry;
use crate::units::{GROUP_BANKS, MOST_GROUPS};

/// A bank of a channel.
#[derive(Clone, Copy, Debug, PartialEq, Eq)]
pub struct BankId {
    pub rank: u32,
    /// The bank group in its rank.
    pub group: u32,
    /// The bank in its group.
    pub bank: u32,
}

impl BankId {
    /// The bank's number in its channel: the banks of rank 0 come first, and in a rank those of group 0.
    pub fn number(&self, shape: &Geometry) -> u32
        requires rank_in { self.now.rank < shape.now.ranks }
        requires group_in { self.now.group < shape.now.groups }
        requires bank_in { self.now.bank < GROUP_BANKS }
        ensures number { result ≡ bank_number shape.now self.now.rank self.now.group self.now.bank }
        ensures below { result < bank_count shape.now }
    {
        (self.rank * shape.groups + self.group) * GROUP_BANKS + self.bank
    }

    /// The bank's number in the widest geometry, for a table that serves every geometry.
    pub fn widest_number(&self) -> usize
        ensures { result ≡ widest_bank_number self.now.rank self.now.group self.now.bank }
    {
        let group = self.rank as usize * MOST_GROUPS as usize + self.group as usize;
        group * GROUP_BANKS as usize + self.bank as usize
    }
}

/// The number of a bank in its rank.
pub fn number_in_rank(group: u32, bank: u32) -> usize
    ensures { result ≡ group * GROUP_BANKS + bank }
{
    group as usize * GROUP_BANKS as usize + bank as usize
}

impl Geometry {
    /// How many banks a rank has.
    pub fn rank_banks(&self) -> u32
        ensures { result ≡ rank_bank_count self.now }
    {
        self.groups * GROUP_BANKS
    }

    /// How many banks a channel has, over all its ranks.
    pub fn banks(&self) -> u32
        ensures { result ≡ bank_count self.now }
    {
        self.ranks * self.groups * GROUP_BANKS
    }
}
