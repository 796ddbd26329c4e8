//! The first cycle in which a command keeps every distance on a rank, worked out by hand.
ghost use Rattle.std.specs.Prelude.{◌≡◌};

use super::{
    CLOSED, OPENED, READ, READ_AUTO, REFRESHED, WRITTEN, WRITTEN_AUTO, is_of, issued, profile_s,
};
use ddr_rank::rank::Rank;
use ddr_samples::steps::Step;
use ddr_timing::config::Config;
use std::alloc::Global;
use std::process::Abort;
use std::test::Fail;

/// Commands, the cycle that is asked from, and a command in the first cycle that its distances allow.
type Allowed = (&'static [Step], u64, Step);

fn allowed(rt: &impl Abort, config: &Config, rank: &Rank, from: u64, next: Step)
    requires { rank.now.config ≡ config.now }
{
    let command = next.command();
    is_of(rt, config, command);
    let first = rank.allowed_at(from, command);
    assert_eq!(rt; first, next.cycle(), "{command:?} from {from}");
}

fn all_allowed(
    rt: &impl Abort,
    alloc: Global,
    config: &Config,
    cases: &[Allowed],
) -> Result<(), Fail> {
    for (steps, from, next) in cases {
        let rank = issued(rt, alloc, config, steps)?;
        allowed(rt, config, &rank, *from, *next);
    }
    Ok(())
}

const FOUR: &[Step] = &[
    Step::Act(0, 0, 0, 0),
    Step::Act(2, 1, 0, 0),
    Step::Act(5, 2, 0, 0),
    Step::Act(7, 3, 0, 0),
];

/// A write's data end CWL + 4 after it. A WRA in cycle 4 begins to close its bank in cycle 16, an RDA in cycle 10, by RAS.
const ALLOWED: &[Allowed] = &[
    (&[], 0, Step::Act(0, 0, 0, 0)),
    (&[], 7, Step::Refresh(7)),
    // RCD, RAS, RC, RRD_L, RRD_S
    (OPENED, 1, Step::Rd(4, 0, 0, 0, 0)),
    (OPENED, 1, Step::Wr(4, 0, 0, 3, 0)),
    (OPENED, 6, Step::Wr(6, 0, 0, 0, 0)),
    (OPENED, 1, Step::Rd(1, 0, 1, 0, 0)),
    (OPENED, 1, Step::Pre(10, 0, 0)),
    (OPENED, 1, Step::PreAll(10)),
    (OPENED, 1, Step::Act(14, 0, 0, 1)),
    (OPENED, 1, Step::Act(3, 0, 1, 0)),
    (OPENED, 1, Step::Act(2, 1, 0, 0)),
    (OPENED, 1, Step::Refresh(1)),
    // CCD_L, CCD_S, RTW, and RAS over RTP
    (READ, 5, Step::Rd(9, 0, 1, 0, 0)),
    (READ, 5, Step::RdAuto(8, 1, 0, 0, 0)),
    (READ, 5, Step::Wr(11, 3, 0, 0, 0)),
    (READ, 5, Step::Pre(10, 0, 0)),
    // WTR_L, WTR_S, CCD_L, CCD_S, WR
    (WRITTEN, 5, Step::Rd(15, 0, 3, 0, 0)),
    (WRITTEN, 5, Step::Rd(13, 1, 0, 0, 0)),
    (WRITTEN, 5, Step::WrAuto(9, 0, 0, 0, 0)),
    (WRITTEN, 5, Step::Wr(8, 2, 0, 0, 0)),
    (WRITTEN, 5, Step::Pre(16, 0, 0)),
    (WRITTEN, 5, Step::PreAll(16)),
    // RP and RP_REF behind a PRE and behind the start of an auto-precharge
    (CLOSED, 11, Step::Act(14, 0, 0, 1)),
    (CLOSED, 11, Step::Refresh(14)),
    (READ_AUTO, 5, Step::Act(14, 0, 0, 1)),
    (READ_AUTO, 5, Step::Refresh(14)),
    (WRITTEN_AUTO, 5, Step::Act(20, 0, 0, 1)),
    (WRITTEN_AUTO, 5, Step::Act(5, 0, 1, 1)),
    (WRITTEN_AUTO, 5, Step::Refresh(20)),
    (WRITTEN_AUTO, 25, Step::Refresh(25)),
    // RFC
    (REFRESHED, 6, Step::Act(25, 2, 1, 0)),
    (REFRESHED, 6, Step::Rd(25, 2, 1, 0, 0)),
    (REFRESHED, 6, Step::Pre(25, 2, 1)),
    (REFRESHED, 6, Step::PreAll(25)),
    (REFRESHED, 6, Step::Refresh(25)),
    // FAW, from the fourth back
    (FOUR, 8, Step::Act(12, 0, 1, 0)),
    (FOUR, 8, Step::Act(14, 0, 0, 0)),
    (FOUR, 8, Step::Rd(9, 2, 0, 0, 0)),
];

#[test]
fn first_cycles(rt: HostRuntime) -> Result<(), Fail> {
    let config = profile_s(rt.alloc())?;
    all_allowed(&rt, rt.alloc(), &config, ALLOWED)
}
