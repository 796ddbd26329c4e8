//! When a REF comes too late. Its deadlines are this project's choice, one REF a REFI with up to 8 postponed.
ghost use Rattle.std.specs.Prelude.{◌≡◌, ◌+◌, ◌*◌, ◌^◌, ◌≤◌, MatchOption, nat_lt};

use ddr_timing::timing::Timing;

/// Whether, after so many REFs, `cycle` lies after the deadline of the next one. The k-th REF, k from 1, is due by
/// `start + (k + 8) * REFI`.
pub fn is_overdue(refreshes: usize, timing: &Timing, start: u64, cycle: u64) -> bool
    ensures { result ≡ nat_lt (start + (refreshes + 9) * timing.now.refi) cycle }
{
    match deadline(refreshes, timing, start) {
        Some(due) => due < cycle,
        None => false,
    }
}

/// The deadline of the REF that follows so many REFs, where a clock can reach it.
fn deadline(refreshes: usize, timing: &Timing, start: u64) -> Option<u64>
    ensures { let due = start + (refreshes + 9) * timing.now.refi in
        MatchOption result (2 ^ 64 ≤ due) (λ d. d ≡ due) }
{
    let intervals = (refreshes as u64).checked_add(9)?;
    let span = intervals.checked_mul(u64::from(timing.refi))?;
    start.checked_add(span)
}

/// Whether two REFs that follow one another stand more than 9 REFI apart.
pub fn is_gap_too_long(earlier: u64, later: u64, timing: &Timing) -> bool
    ensures { result ≡ nat_lt (earlier + 9 * timing.now.refi) later }
{
    9 * u64::from(timing.refi) < later.saturating_sub(earlier)
}
