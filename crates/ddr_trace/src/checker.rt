//! The reference checker: which rule an entry breaks after its history, and the first fault of a trace.
//!
//! It is a plain scan of the whole history, and keeps no state from one entry to the next. The checker of `ddr_legality`
//! has the same contract and goes through a trace once. Below stand `banks`, `spacing`, `window` and `ranks`, one
//! function for each kind of rule.
ghost use Rattle.std.specs.Prelude.{◌≡◌, ◌↔◌, IfNone, IfSome, IsNone};
ghost use Rattle.ddr_trace.specs.Bus.{KeepsBus};
ghost use Rattle.ddr_trace.specs.Rules.{breaks};
ghost use Rattle.ddr_trace.specs.Legality.{IsFirstFault, IsLegal, IsRefreshed, lowest_broken, lowest_rule};

use crate::command::Entry;
use crate::rule::Rule;
use crate::{banks, ranks, spacing, window};
use ddr_timing::config::Config;

/// A rule that a trace breaks, and where.
#[derive(Clone, Copy, Debug, PartialEq, Eq)]
pub struct Fault {
    /// The place of the entry, counted from 0; the number of entries where the trace's end breaks the rule.
    pub place: usize,
    pub rule: Rule,
}

/// The reference checker: the lowest place of the trace that breaks a rule, with the lowest rule broken there. The trace
/// goes from `start` to `end`, which is the first cycle behind it. Each entry is compared with every entry before it;
/// `first_fault` of `ddr_legality` has the same contract, in one pass. In a trace with no fault no two bursts overlap on
/// the data bus.
pub fn first_fault(entries: &[Entry], config: &Config, start: u64, end: u64) -> Option<Fault>
    ensures none { IsNone result
        ↔ (IsLegal config.now start end entries.now × IsRefreshed config.now start end entries.now) }
    ensures fault { IfSome result
        (λ f. IsFirstFault config.now start end entries.now f.place f.rule) }
    ensures bus { IfNone result (KeepsBus config.now.timing entries.now) }
{
    for (place, entry) in entries.iter().enumerate() {
        if let Some(rule) = lowest_of_all(&entries[..place], entry, config, start, end) {
            return Some(Fault { place, rule });
        }
    }
    if window::ends_late(entries, config, start, end) {
        return Some(Fault {
            place: entries.len(),
            rule: Rule::RefLate,
        });
    }
    None
}

/// The lowest rule that `entry` breaks after `history`, the two on refresh among them.
fn lowest_of_all(
    history: &[Entry],
    entry: &Entry,
    config: &Config,
    start: u64,
    end: u64,
) -> Option<Rule>
    ensures { result ≡ lowest_rule (λ r. breaks config.now start end r history.now entry.now) }
{
    for rule in Rule::ALL {
        if breaks(rule, history, entry, config, start, end) {
            return Some(rule);
        }
    }
    None
}

/// The lowest rule on commands (all rules but the two on refresh) that `entry` would break after `history`,
/// in a trace of this start and end.
pub fn lowest_broken(
    history: &[Entry],
    entry: &Entry,
    config: &Config,
    start: u64,
    end: u64,
) -> Option<Rule>
    ensures { result ≡ lowest_broken config.now start end history.now entry.now }
{
    for rule in Rule::ALL {
        if rule.is_on_commands() && breaks(rule, history, entry, config, start, end) {
            return Some(rule);
        }
    }
    None
}

/// Whether the entry breaks the rule after its history, in a trace of this start and end.
fn breaks(
    rule: Rule,
    history: &[Entry],
    entry: &Entry,
    config: &Config,
    start: u64,
    end: u64,
) -> bool
    ensures { result ≡ breaks config.now start end rule history.now entry.now }
{
    let timing = &config.timing;
    match rule {
        Rule::Order => window::breaks_order(history, entry, start, end),
        Rule::Place => !entry.command.is_in(&config.geometry),
        Rule::State => banks::breaks_state(history, entry, config),
        Rule::Row => banks::breaks_row(history, entry, timing),
        Rule::Rp => banks::breaks_rp(history, entry, timing),
        Rule::RpRef => banks::breaks_rp_ref(history, entry, config),
        Rule::Rtrs => ranks::breaks_rtrs(history, entry, timing),
        Rule::Faw => window::breaks_faw(history, entry, timing),
        Rule::RefLate => window::breaks_ref_late(history, entry, timing, start),
        Rule::RefGap => window::breaks_ref_gap(history, entry, timing),
        _ => spacing::breaks_spacing(rule, history, entry, timing),
    }
}
