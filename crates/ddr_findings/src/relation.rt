//! The relations among the values of a configuration, as what is told of a broken one.
//!
//! `relations` finds them, and `text` tells both sides of each.
ghost use Rattle.std.specs.Prelude.{◌≡◌};
ghost use Rattle.ddr_findings.specs.Relations.{least_interval};

use ddr_timing::units::BURST_CLOCKS;

/// A relation that is broken, with the numbers that it speaks of. The variants stand in the order of the relations.
#[derive(Clone, Copy, Debug, PartialEq, Eq)]
pub enum Relation {
    /// `ccd_s >= 4`.
    BurstsPass { ccd_s: u32 },
    /// `ccd_l >= ccd_s`.
    ColumnsOfAGroup { ccd_l: u32, ccd_s: u32 },
    /// `rrd_l >= rrd_s`.
    ActivatesOfAGroup { rrd_l: u32, rrd_s: u32 },
    /// `rtw >= 4` and `rtw + cwl >= cl + 4`, which is `max(4, cl + 4 - cwl) <= rtw`.
    BusTurns { cl: u32, cwl: u32, rtw: u32 },
    /// `max(max(ras, cwl + 4 + wr, rtp) + rp, rfc) + 4 <= refi`.
    RefreshFits { clocks: RefreshClocks },
    /// `low < high`.
    MarksApart { low: u32, high: u32 },
    /// `high <= writes`.
    MarkReached { high: u32, writes: u32 },
}

/// The clocks that an interval between refreshes has to have room for, and the interval.
#[derive(Clone, Copy, Debug, PartialEq, Eq)]
pub struct RefreshClocks {
    pub ras: u32,
    pub cwl: u32,
    pub wr: u32,
    pub rtp: u32,
    pub rp: u32,
    pub rfc: u32,
    pub refi: u32,
}

impl RefreshClocks {
    /// The least interval that has room for a REF, for what has to end before it, and for 4 clocks to spare.
    pub fn least_interval(&self) -> u64
        ensures { result ≡ least_interval self.now }
    {
        let written = u64::from(self.cwl) + u64::from(BURST_CLOCKS) + u64::from(self.wr);
        let closable = u64::from(self.ras).max(written).max(u64::from(self.rtp));
        let idle = closable + u64::from(self.rp);
        idle.max(u64::from(self.rfc)) + 4
    }
}
