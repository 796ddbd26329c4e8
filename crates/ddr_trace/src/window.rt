//! Rules on more than two commands: the order of cycles, four activations, and refresh.
ghost use Rattle.std.specs.Prelude.{◌≡◌};
ghost use Rattle.ddr_trace.specs.Rules.{breaks_faw, breaks_order, breaks_ref_gap, breaks_ref_late, ends_late, last_cycle_below, refresh_count};

use crate::command::{Command, Entry};
use crate::refresh::{is_gap_too_long, is_overdue};
use ddr_timing::config::Config;
use ddr_timing::timing::Timing;

/// Whether the entry's cycle is not above that of the entry before, below `start`, or not below `end`.
pub(crate) fn breaks_order(history: &[Entry], entry: &Entry, start: u64, end: u64) -> bool
    ensures { result ≡ breaks_order start end history.now entry.now }
{
    !(is_above_last(history, entry.cycle) && start <= entry.cycle && entry.cycle < end)
}

/// Whether the cycle is above that of the last entry, if there is one.
fn is_above_last(history: &[Entry], cycle: u64) -> bool
    ensures { result ≡ last_cycle_below history.now cycle }
{
    match history.split_last() {
        Some((last, _)) => last.cycle < cycle,
        None => true,
    }
}

/// Whether the entry is an ACT that comes too soon after the fourth ACT of its rank before it.
pub(crate) fn breaks_faw(history: &[Entry], entry: &Entry, timing: &Timing) -> bool
    ensures { result ≡ breaks_faw timing.now history.now entry.now }
{
    if !entry.command.is_activate() {
        return false;
    }
    let mut between = 0u32;
    let mut earlier = history;
    while let Some((last, before)) = earlier.split_last() {
        if last.command.is_activate_of_rank(&entry.command) {
            if between == 3 {
                return entry.is_within(timing.faw, last);
            }
            between += 1;
        }
        earlier = before;
    }
    false
}

/// Whether the entry is a REF that comes after its deadline.
pub(crate) fn breaks_ref_late(history: &[Entry], entry: &Entry, timing: &Timing, start: u64) -> bool
    ensures { result ≡ breaks_ref_late timing.now start history.now entry.now }
{
    entry.command.is_refresh()
        && is_overdue(
            refresh_count(history, &entry.command),
            timing,
            start,
            entry.cycle,
        )
}

/// Whether the trace ends after the deadline of the REF that some rank would need next.
pub(crate) fn ends_late(entries: &[Entry], config: &Config, start: u64, end: u64) -> bool
    ensures { result ≡ ends_late config.now start end entries.now }
{
    (0..config.geometry.ranks).any(|rank| {
        let refreshes = refresh_count(entries, &Command::Refresh { rank });
        is_overdue(refreshes, &config.timing, start, end)
    })
}

/// Whether the entry is a REF more than 9 REFI after the REF before. It looks back no further than to that one.
pub fn breaks_ref_gap(history: &[Entry], entry: &Entry, timing: &Timing) -> bool
    ensures { result ≡ breaks_ref_gap timing.now history.now entry.now }
{
    if !entry.command.is_refresh() {
        return false;
    }
    let mut earlier = history;
    while let Some((last, before)) = earlier.split_last() {
        if last.command.is_refresh_of_rank(&entry.command) {
            return is_gap_too_long(last.cycle, entry.cycle, timing);
        }
        earlier = before;
    }
    false
}

/// How many REFs of the command's rank the history has.
fn refresh_count(history: &[Entry], command: &Command) -> usize
    ensures { result ≡ refresh_count history.now command.now }
{
    history
        .iter()
        .filter(|a| a.command.is_refresh_of_rank(command))
        .count()
}
