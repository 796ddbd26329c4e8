//! The oddities of a configuration: comparisons among values that a thoughtful configuration keeps, though none has to.
//!
//! An oddity that is added gets one line in each list of this module, one in each of `specs/Words.antt` and
//! `specs/Warnings.antt`, and its two sides in `sides`. Nothing of the crate stands below; `text` tells a warning by the
//! words here.
ghost use Rattle.std.specs.Prelude.{◌≡◌};
ghost use Rattle.ddr_findings.specs.Warnings.{oddities};
ghost use Rattle.ddr_findings.specs.Words.{left_of, reason_of, right_of};

/// A value that is accepted, and yet strange. The variants stand in the order in which they are told. Where no source is
/// named, what counts as strange is this project's choice.
#[derive(Clone, Copy, Debug, PartialEq, Eq)]
pub enum Oddity {
    /// rc, the time from ACT to ACT of a bank, is below the time that ACT, precharge and ACT take (JESD79-4: tRC is tRAS + tRP).
    RowCycle,
    /// ras, the least time that a row is open, is below the time to open and read it.
    RowTime,
    /// rc is below rrd_l.
    GroupOverCycle,
    /// faw, the window of four ACTs, is below the time that four of different banks take (JESD79-4, tFAW).
    FourActivates,
    /// wtr_l is below wtr_s, though the own group is never the faster one (JESD79-4, tWTR_L and tWTR_S).
    GroupWriteToRead,
    /// A write's data begins less than 2 clocks behind a read's (JESD79-4: tRTW is RL + BL/2 - WL + 2 tCK).
    ReadToWrite,
    /// cl is more than one clock below cwl (JESD79-4, CL and CWL of the speed bins: DDR4-1600 has CL 10 with CWL 11).
    WriteLatency,
    /// wr is below rtp (JESD79-4, mode register 0: WR is twice RTP).
    WriteRecovery,
    /// ccd_s is above the clocks of a burst (JESD79-4: tCCD_S is 4).
    BurstGap,
    /// rtrs is above the clocks of a burst.
    RankGap,
    /// rfc is below rc.
    RefreshCycle,
    /// refi is below four times rfc.
    RefreshShare,
    /// refi is below the clocks of a request that meets a refresh: `leaves_time` of `ddr_latency` doesn't hold.
    RefreshRow,
    /// cap is no more than the clocks from a precharge to a column command.
    CapMiss,
    /// cap is no more than the clocks of a REF.
    CapRefresh,
    /// cap is below the clocks of all requests that may be pending, each served alone: `service` of `ddr_latency`, so many times.
    CapService,
    /// high is not two above low.
    MarkGap,
    /// high is above the requests that may be outstanding.
    HighMark,
    /// intake is above the requests that may be outstanding.
    IntakeSize,
    /// reads is above the requests that may be outstanding.
    ReadsSize,
    /// writes is above the requests that may be outstanding.
    WritesSize,
    /// done is above the requests that may be outstanding.
    DoneSize,
    /// done requests, one each ccd_s clocks, end before the first of them has its data.
    DoneShort,
    /// window is above what the queues of all channels hold.
    WindowSize,
}

static ODDITIES: [Oddity; 24] = [
    Oddity::RowCycle,
    Oddity::RowTime,
    Oddity::GroupOverCycle,
    Oddity::FourActivates,
    Oddity::GroupWriteToRead,
    Oddity::ReadToWrite,
    Oddity::WriteLatency,
    Oddity::WriteRecovery,
    Oddity::BurstGap,
    Oddity::RankGap,
    Oddity::RefreshCycle,
    Oddity::RefreshShare,
    Oddity::RefreshRow,
    Oddity::CapMiss,
    Oddity::CapRefresh,
    Oddity::CapService,
    Oddity::MarkGap,
    Oddity::HighMark,
    Oddity::IntakeSize,
    Oddity::ReadsSize,
    Oddity::WritesSize,
    Oddity::DoneSize,
    Oddity::DoneShort,
    Oddity::WindowSize,
];

impl Oddity {
    /// All oddities, in their order.
    #[tactic(auto, unfolding(crate::specs::Warnings::oddities))]
    pub fn all() -> &'static [Oddity]
        ensures { result.now ≡ oddities }
    {
        &ODDITIES
    }

    /// The side that is the lower one, as the sum of keys that it is.
    pub fn left(&self) -> &'static str
        ensures { result.now ≡ left_of self.now }
    {
        match self {
            Oddity::RowCycle => "rc",
            Oddity::RowTime => "ras",
            Oddity::GroupOverCycle => "rc",
            Oddity::FourActivates => "faw",
            Oddity::GroupWriteToRead => "wtr_l",
            Oddity::ReadToWrite => "rtw + cwl",
            Oddity::WriteLatency => "cl + 1",
            Oddity::WriteRecovery => "wr",
            Oddity::BurstGap => "the clocks of a burst",
            Oddity::RankGap => "the clocks of a burst",
            Oddity::RefreshCycle => "rfc",
            Oddity::RefreshShare => "refi",
            Oddity::RefreshRow => "refi",
            Oddity::CapMiss => "cap",
            Oddity::CapRefresh => "cap",
            Oddity::CapService => "cap",
            Oddity::MarkGap => "high",
            Oddity::HighMark => "ports * window",
            Oddity::IntakeSize => "ports * window",
            Oddity::ReadsSize => "ports * window",
            Oddity::WritesSize => "ports * window",
            Oddity::DoneSize => "ports * window",
            Oddity::DoneShort => "done * ccd_s",
            Oddity::WindowSize => "channels * (intake + reads + writes + done)",
        }
    }

    /// The side that is the higher one.
    pub fn right(&self) -> &'static str
        ensures { result.now ≡ right_of self.now }
    {
        match self {
            Oddity::RowCycle => "ras + rp",
            Oddity::RowTime => "rcd + rtp",
            Oddity::GroupOverCycle => "rrd_l",
            Oddity::FourActivates => "4 * rrd_s",
            Oddity::GroupWriteToRead => "wtr_s",
            Oddity::ReadToWrite => "cl + 6",
            Oddity::WriteLatency => "cwl",
            Oddity::WriteRecovery => "rtp",
            Oddity::BurstGap => "ccd_s",
            Oddity::RankGap => "rtrs",
            Oddity::RefreshCycle => "rc",
            Oddity::RefreshShare => "4 * rfc",
            Oddity::RefreshRow => "a refresh and a request",
            Oddity::CapMiss => "rp + rcd + 1",
            Oddity::CapRefresh => "rfc + 1",
            Oddity::CapService => "all pending requests one by one",
            Oddity::MarkGap => "low + 2",
            Oddity::HighMark => "high",
            Oddity::IntakeSize => "intake",
            Oddity::ReadsSize => "reads",
            Oddity::WritesSize => "writes",
            Oddity::DoneSize => "done",
            Oddity::DoneShort => "cl + 4",
            Oddity::WindowSize => "window",
        }
    }

    /// What is strange about it.
    pub fn reason(&self) -> &'static str
        ensures { result.now ≡ reason_of self.now }
    {
        match self {
            Oddity::RowCycle =>
                "a bank that is active for ras and precharged for rp is never activated sooner, so rc has no effect",
            Oddity::RowTime =>
                "a row that is read is precharged no sooner than that, so ras has no effect on it",
            Oddity::GroupOverCycle =>
                "activates of two banks of a group would stand further apart than those of one bank",
            Oddity::FourActivates =>
                "four activates of different banks take longer anyway, where in DDR4 tFAW is no less than that",
            Oddity::GroupWriteToRead =>
                "a read of the group just written would be allowed sooner than one of another group",
            Oddity::ReadToWrite =>
                "fewer than 2 clocks lie on the data bus between the data of a read and of a write",
            Oddity::WriteLatency =>
                "in DDR4's speed bins the write latency is at most one clock longer",
            Oddity::WriteRecovery =>
                "a write would hold up a precharge less than a read does, where in DDR4 wr is twice rtp",
            Oddity::BurstGap =>
                "bursts of one kind would leave the data bus idle between them, where in DDR4 tCCD_S is 4",
            Oddity::RankGap => "a change of ranks would cost more than a whole burst",
            Oddity::RefreshCycle =>
                "a REF, which opens and closes rows of every bank, would take less than one row of one bank",
            Oddity::RefreshShare => "a rank would spend more than a quarter of its time on REFs",
            Oddity::RefreshRow =>
                "a request may wait for ever, since each refresh may close its row before it is read",
            Oddity::CapMiss =>
                "a request that has to close another row reaches the age cap before it can be served",
            Oddity::CapRefresh => "each request that waits through a REF reaches the age cap",
            Oddity::CapService =>
                "under load every pending request may reach the age cap, and from then on each is served alone",
            Oddity::MarkGap =>
                "a drain may end behind a single write, and the data bus turns around for it",
            Oddity::HighMark => "so many writes are never pending, so no drain begins",
            Oddity::IntakeSize => "so many requests are never on their way to a channel",
            Oddity::ReadsSize => "so many reads are never pending",
            Oddity::WritesSize => "so many writes are never pending",
            Oddity::DoneSize => "so many requests are never in flight or done",
            Oddity::DoneShort => "too few requests may be in flight to keep the data bus busy",
            Oddity::WindowSize => "a port may have more requests outstanding than all queues hold",
        }
    }
}
