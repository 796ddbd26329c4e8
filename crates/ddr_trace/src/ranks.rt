//! The rule on two ranks: how long the data bus is left alone between bursts of different ranks.
ghost use Rattle.std.specs.Prelude.{◌≡◌};
ghost use Rattle.ddr_trace.specs.Rules.{breaks_rtrs, is_switched_too_soon, latency, rank_switch};

use crate::command::{Command, Entry};
use ddr_timing::timing::Timing;
use ddr_timing::units::BURST_CLOCKS;

/// Whether the entry is a read or a write too close behind one of another rank.
pub(crate) fn breaks_rtrs(history: &[Entry], entry: &Entry, timing: &Timing) -> bool
    ensures { result ≡ breaks_rtrs timing.now history.now entry.now }
{
    history
        .iter()
        .any(|earlier| is_switched_too_soon(earlier, entry, timing))
}

/// Whether the two are reads or writes of different ranks, and stand too close.
fn is_switched_too_soon(earlier: &Entry, later: &Entry, timing: &Timing) -> bool
    ensures { result ≡ is_switched_too_soon timing.now earlier.now later.now }
{
    let (a, b) = (&earlier.command, &later.command);
    a.is_column()
        && b.is_column()
        && !a.is_same_rank(b)
        && later.is_within(rank_switch(a, b, timing), earlier)
}

/// The least distance from a read or a write to one of another rank, in clocks.
pub fn rank_switch(earlier: &Command, later: &Command, timing: &Timing) -> u32
    ensures { result ≡ rank_switch timing.now earlier.now later.now }
{
    let data_end = latency(earlier, timing) + BURST_CLOCKS + timing.rtrs;
    data_end
        .saturating_sub(latency(later, timing))
        .max(BURST_CLOCKS)
}

/// The clocks from a read or a write to its data: CL or CWL.
pub fn latency(command: &Command, timing: &Timing) -> u32
    ensures { result ≡ latency timing.now command.now }
{
    if command.is_read() {
        timing.cl
    } else {
        timing.cwl
    }
}
