//! The rules on when a REF is due.
//!
//! `evidence`, `kind` and `ddr_trace` stand below, and `find` above.
ghost use Rattle.std.specs.Prelude.{◌≡◌, ◌+◌, ◌*◌, ◌^◌, ◌≤◌, IfSome, MatchOption, is_some, nat_lt};
ghost use Rattle.ddr_trace.specs.Rules.{breaks_ref_late, refresh_count};
ghost use Rattle.ddr_evidence.specs.declared.evidence.Evidence.TheVariants.{Late};
ghost use Rattle.ddr_evidence.specs.Evidence.{IsLate};

use crate::evidence::Evidence;
use ddr_timing::timing::Timing;
use ddr_trace::command::{Command, Entry};

/// Why the entry breaks REF_LATE, if it does.
pub(crate) fn ref_late(
    history: &[Entry],
    entry: &Entry,
    timing: &Timing,
    start: u64,
) -> Option<Evidence>
    ensures broken { is_some result ≡ breaks_ref_late timing.now start history.now entry.now }
    ensures some { IfSome result (IsLate timing.now start entry.now.cycle (refresh_count history.now entry.now.command)) }
{
    if !entry.command.is_refresh() {
        return None;
    }
    let (refreshes, due) = late(history, &entry.command, timing, start, entry.cycle)?;
    Some(Evidence::Late { refreshes, due })
}

/// How many REFs of the command's rank the history has, and the deadline of the next one, where the cycle lies behind it.
pub(crate) fn late(
    history: &[Entry],
    command: &Command,
    timing: &Timing,
    start: u64,
    cycle: u64,
) -> Option<(usize, u64)>
    ensures broken { is_some result ≡ nat_lt (start + (refresh_count history.now command.now + 9) * timing.now.refi) cycle }
    ensures some { IfSome result (λ l. IsLate timing.now start cycle (refresh_count history.now command.now) (Late l.0 l.1)) }
{
    let refreshes = refresh_count(history, command);
    let due = deadline(refreshes, timing, start)?;
    if due < cycle {
        Some((refreshes, due))
    } else {
        None
    }
}

/// The deadline of the REF that follows so many REFs, where a clock can reach it.
fn deadline(refreshes: usize, timing: &Timing, start: u64) -> Option<u64>
    ensures { let due = start + (refreshes + 9) * timing.now.refi in
        MatchOption result (2 ^ 64 ≤ due) (λ d. d ≡ due) }
{
    let intervals = (refreshes as u64).checked_add(9)?;
    let span = intervals.checked_mul(u64::from(timing.refi))?;
    start.checked_add(span)
}

/// How many REFs of the command's rank the history has.
fn refresh_count(history: &[Entry], command: &Command) -> usize
    ensures { result ≡ refresh_count history.now command.now }
{
    history
        .iter()
        .filter(|a| a.command.is_refresh_of_rank(command))
        .count()
}
