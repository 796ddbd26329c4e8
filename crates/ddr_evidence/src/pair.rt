//! Rules that an earlier entry breaks together with the present one: those on two commands, on four activations, on two
//! ranks and on the gap between REFs.
//!
//! `evidence`, `kind` and `ddr_trace` stand below, and `find` above.
ghost use Rattle.std.specs.Prelude.{◌≡◌, ℕ, MatchOption, Some, false, slice_get};
ghost use Rattle.ddr_trace.specs.Rules.{is_too_close, spacing_of};
ghost use Rattle.ddr_evidence.specs.Places.{IsLast, are_breaking, breaks_from, counts, least_of};

use crate::evidence::Placed;
use ddr_timing::timing::Timing;
use ddr_trace::command::{Command, Entry, is_before};
use ddr_trace::ranks::rank_switch;
use ddr_trace::refresh::is_gap_too_long;
use ddr_trace::rule::Rule;

/// The last entry of the history that breaks the rule together with the present one.
pub(crate) fn nearest(
    rule: Rule,
    history: &[Entry],
    entry: &Entry,
    timing: &Timing,
) -> Option<Placed>
    ensures { MatchOption result
        ((place : ℕ) → breaks_from timing.now rule history.now entry.now place ≡ false)
        (λ n. IsLast (breaks_from timing.now rule history.now entry.now) n.place × (slice_get history.now n.place ≡ Some n.entry)) }
{
    let mut between = 0usize;
    let mut earlier = history;
    while let Some((last, before)) = earlier.split_last() {
        if are_breaking(rule, last, entry, between, timing) {
            return Some(Placed {
                place: before.len(),
                entry: *last,
            });
        }
        if counts(rule, last, entry) {
            between += 1;
        }
        earlier = before;
    }
    None
}

/// Whether the two entries break the rule, with so many between them that count.
fn are_breaking(rule: Rule, a: &Entry, entry: &Entry, between: usize, timing: &Timing) -> bool
    ensures { result ≡ are_breaking timing.now rule entry.now a.now between }
{
    let (first, last) = (&a.command, &entry.command);
    match rule {
        Rule::Rtrs => {
            first.is_column()
                && last.is_column()
                && first.rank() != last.rank()
                && is_before(entry.cycle, a.cycle, rank_switch(first, last, timing))
        }
        Rule::Faw => {
            first.is_activate()
                && last.is_activate()
                && first.rank() == last.rank()
                && between == 3
                && is_before(entry.cycle, a.cycle, timing.faw)
        }
        Rule::RefGap => {
            first.is_refresh()
                && last.is_refresh()
                && first.rank() == last.rank()
                && between == 0
                && is_gap_too_long(a.cycle, entry.cycle, timing)
        }
        _ => is_too_close(rule, a, entry, timing),
    }
}

/// Whether the two are a pair of a rule on two commands, and stand too close.
fn is_too_close(rule: Rule, a: &Entry, entry: &Entry, timing: &Timing) -> bool
    ensures { result ≡ is_too_close (spacing_of timing.now rule) a.now entry.now }
{
    match rule.spacing(timing) {
        Some(spacing) => {
            spacing.speaks_of(&a.command, &entry.command)
                && is_before(entry.cycle, a.cycle, spacing.at_least)
        }
        None => false,
    }
}

/// Whether an entry between an earlier one and the present one counts for the rule.
fn counts(rule: Rule, between: &Entry, entry: &Entry) -> bool
    ensures { result ≡ counts rule entry.now between.now }
{
    let is_counted = match rule {
        Rule::Faw => between.command.is_activate(),
        Rule::RefGap => between.command.is_refresh(),
        _ => false,
    };
    is_counted && between.command.rank() == entry.command.rank()
}

/// The least distance that the rule asks for from the one command to the other.
pub(crate) fn least_of(rule: Rule, first: &Command, last: &Command, timing: &Timing) -> u32
    ensures { result ≡ least_of timing.now rule first.now last.now }
{
    match rule {
        Rule::Rtrs => rank_switch(first, last, timing),
        Rule::Faw => timing.faw,
        _ => rule.least_distance(timing),
    }
}
