//! When the row of an ACT is closed, and when the data of a read or a write are on the bus.
//!
//! `names` stands below, and `changes`, `bars`, `kept_bars` and `starts` above.
ghost use Rattle.std.specs.Prelude.{◌≡◌};
ghost use Rattle.ddr_draw.specs.Changes.{burst_end, burst_start, burst_until, burst_until_of, closed_at, closed_by, is_closing, is_followed, next_closing, next_column};

use crate::names::after;
use ddr_timing::timing::Timing;
use ddr_timing::units::BURST_CLOCKS;
use ddr_trace::bank::recovery;
use ddr_trace::command::{Command, Entry};

/// The cycle at which the row of the ACT is closed, by the entries behind it: `None` where it stays open.
#[tactic(auto, unfolding(crate::specs::Changes::closed_at))]
pub(crate) fn closed_at(timing: &Timing, act: &Entry, later: &[Entry]) -> Option<u64>
    ensures { result ≡ closed_at timing.now act.now later.now }
{
    match next_closing(&act.command, later) {
        Some(entry) => Some(closed_by(timing, act, &entry)),
        None => None,
    }
}

/// The first entry that ends what the ACT opened.
fn next_closing(act: &Command, later: &[Entry]) -> Option<Entry>
    ensures { result ≡ next_closing act.now later.now }
{
    later
        .iter()
        .copied()
        .find(|entry| is_closing(act, &entry.command))
}

/// Whether the command ends what the ACT opened.
pub(crate) fn is_closing(act: &Command, command: &Command) -> bool
    ensures { result ≡ is_closing act.now command.now }
{
    command.is_same_bank(act)
        && (command.is_activate() || command.is_precharge() || command.is_auto())
}

/// The cycle at which the entry closes the row of the ACT.
pub(crate) fn closed_by(timing: &Timing, act: &Entry, entry: &Entry) -> u64
    ensures { result ≡ closed_by timing.now act.now entry.now }
{
    if entry.command.is_auto() {
        after(entry.cycle, recovery(&entry.command, timing)).max(after(act.cycle, timing.ras))
    } else {
        entry.cycle
    }
}

/// The first cycle of the data of a read or a write.
pub(crate) fn burst_start(timing: &Timing, entry: &Entry) -> u64
    ensures { result ≡ burst_start timing.now entry.now }
{
    let latency = if entry.command.is_read() {
        timing.cl
    } else {
        timing.cwl
    };
    after(entry.cycle, latency)
}

/// The first cycle behind the data of a read or a write.
pub(crate) fn burst_end(timing: &Timing, entry: &Entry) -> u64
    ensures { result ≡ burst_end timing.now entry.now }
{
    after(burst_start(timing, entry), BURST_CLOCKS)
}

/// The cycle up to which the burst of a read or a write is on the bus, by the entries behind it: its end, or where the next one begins
/// before.
pub(crate) fn burst_until(timing: &Timing, entry: &Entry, later: &[Entry]) -> u64
    ensures { result ≡ burst_until timing.now entry.now later.now }
{
    burst_until_next(timing, entry, next_column(later))
}

/// The cycle up to which the burst of a read or a write is on the bus, by the next one.
pub(crate) fn burst_until_next(timing: &Timing, entry: &Entry, next: Option<Entry>) -> u64
    ensures { result ≡ burst_until_of timing.now entry.now next }
{
    match next {
        Some(next) if is_followed(timing, entry, Some(next)) => burst_start(timing, &next),
        _ => burst_end(timing, entry),
    }
}

/// Whether the next read's or write's burst begins before that one ends, or right then.
pub(crate) fn is_followed(timing: &Timing, entry: &Entry, next: Option<Entry>) -> bool
    ensures { result ≡ is_followed timing.now entry.now next }
{
    match next {
        Some(next) => {
            let start = burst_start(timing, &next);
            burst_start(timing, entry) < start && start <= burst_end(timing, entry)
        }
        None => false,
    }
}

/// The next read or write.
pub(crate) fn next_column(later: &[Entry]) -> Option<Entry>
    ensures { result ≡ next_column later.now }
{
    later
        .iter()
        .copied()
        .find(|entry| entry.command.is_column())
}
