//! What a command waited for from an earlier command on: the rules on two commands, on four activations and on two ranks.
//!
//! `held`, `names` and `ddr_trace` stand below, and `waited` above.
ghost use Rattle.std.specs.Prelude.{◌≡◌, ◌<◌, ◌+◌, ◌^◌, None, count_by, length};
ghost use Rattle.ddr_trace.specs.declared.rule.TheConstants.Rule.{ALL};
ghost use Rattle.ddr_trace.specs.Rules.{spacing_of, speaks_of};
ghost use Rattle.ddr_draw.specs.Held.{asks, is_rank_act, least_of, wait_at, wait_from, wait_under};

use crate::held::{Held, later_of};
use ddr_timing::timing::Timing;
use ddr_trace::command::{Command, Entry};
use ddr_trace::ranks::rank_switch;
use ddr_trace::rule::Rule;

/// What allows the entry last, by these entries before it, the first of which stands at the place.
pub(crate) fn wait_from(
    timing: &Timing,
    entry: &Entry,
    first: usize,
    recent: &[Entry],
) -> Option<Held>
    requires { first + length recent.now < 2 ^ 63 }
    ensures { result ≡ wait_from timing.now entry.now first None recent.now }
{
    let mut best = None;
    let mut place = first;
    let mut rest = recent;
    'entries: while let Some((earlier, later)) = rest.split_first() {
        best = wait_at(timing, entry, place, earlier, later, best);
        place += 1;
        rest = later;
    }
    best
}

/// What allows later: what was found so far, or a rule from this entry to the present one.
fn wait_at(
    timing: &Timing,
    entry: &Entry,
    place: usize,
    earlier: &Entry,
    between: &[Entry],
    found: Option<Held>,
) -> Option<Held>
    ensures { result ≡ wait_at timing.now entry.now place earlier.now between.now found ALL }
{
    let mut best = found;
    let mut rest: &[Rule] = &Rule::ALL;
    'rules: while let Some((rule, later)) = rest.split_first() {
        best = wait_under(timing, entry, place, earlier, between, best, *rule);
        rest = later;
    }
    best
}

/// What allows later: what was found so far, or the rule, if it asks for a distance between the two.
fn wait_under(
    timing: &Timing,
    entry: &Entry,
    place: usize,
    earlier: &Entry,
    between: &[Entry],
    best: Option<Held>,
    rule: Rule,
) -> Option<Held>
    ensures { result ≡ wait_under timing.now entry.now place earlier.now between.now best rule }
{
    if !asks(timing, rule, &earlier.command, &entry.command, between) {
        return best;
    }
    let held = Held {
        rule,
        place,
        earlier: *earlier,
        since: earlier.cycle,
        least: least_of(timing, rule, &earlier.command, &entry.command),
    };
    later_of(best, held)
}

/// Whether the rule asks for a distance between two such commands, with these between the two.
fn asks(timing: &Timing, rule: Rule, earlier: &Command, later: &Command, between: &[Entry]) -> bool
    ensures { result ≡ asks timing.now rule earlier.now later.now between.now }
{
    match rule {
        Rule::Rtrs => earlier.is_column() && later.is_column() && earlier.rank() != later.rank(),
        Rule::Faw => {
            earlier.is_activate()
                && later.is_activate()
                && earlier.rank() == later.rank()
                && activates(later, between) == 3
        }
        _ => speaks_of(rule, timing, earlier, later),
    }
}

/// How many of these entries are ACTs of the command's rank.
fn activates(command: &Command, entries: &[Entry]) -> usize
    ensures { result ≡ count_by (is_rank_act command.now) entries.now }
{
    entries
        .iter()
        .filter(|entry| is_rank_act(command, entry))
        .count()
}

fn is_rank_act(command: &Command, entry: &Entry) -> bool
    ensures { result ≡ is_rank_act command.now entry.now }
{
    entry.command.is_activate() && entry.command.rank() == command.rank()
}

/// The clocks that the rule asks for between two such commands.
fn least_of(timing: &Timing, rule: Rule, earlier: &Command, later: &Command) -> u32
    ensures { result ≡ least_of timing.now rule earlier.now later.now }
{
    match rule {
        Rule::Rtrs => rank_switch(earlier, later, timing),
        Rule::Faw => timing.faw,
        _ => rule.least_distance(timing),
    }
}

/// Whether the rule is on two such commands.
fn speaks_of(rule: Rule, timing: &Timing, earlier: &Command, later: &Command) -> bool
    ensures { result ≡ speaks_of (spacing_of timing.now rule) earlier.now later.now }
{
    match rule.spacing(timing) {
        Some(spacing) => spacing.speaks_of(earlier, later),
        None => false,
    }
}
