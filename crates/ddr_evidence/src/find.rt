//! The evidence of any rule.
//!
//! `evidence` has the types; `pair`, `state`, `bounds` and `refresh` stand below, one for each kind of rule.
ghost use Rattle.std.specs.Prelude.{◌≡◌, IfSome, is_some};
ghost use Rattle.ddr_trace.specs.Rules.{breaks, ends_late};
ghost use Rattle.ddr_evidence.specs.Evidence.{IsEvidence, IsGap, IsLateAtEnd, IsPair};
ghost use Rattle.ddr_evidence.specs.Places.{pair_breaks};

use crate::evidence::Evidence;
use crate::{bounds, pair, refresh, state};
use ddr_timing::config::Config;
use ddr_timing::timing::Timing;
use ddr_trace::command::{Command, Entry};
use ddr_trace::rule::Rule;

/// What it rests on that the entry breaks the rule behind its history, in a trace from `start` to `end`; `None` where it
/// doesn't break it.
pub fn evidence_of(
    rule: Rule,
    history: &[Entry],
    entry: &Entry,
    config: &Config,
    start: u64,
    end: u64,
) -> Option<Evidence>
    ensures broken { is_some result ≡ breaks config.now start end rule history.now entry.now }
    ensures some { IfSome result (IsEvidence config.now start end rule history.now entry.now) }
{
    let timing = &config.timing;
    match rule {
        Rule::Order => bounds::order(history, entry, start, end),
        Rule::Place => bounds::place(&entry.command, &config.geometry),
        Rule::State => state::state(history, entry, config),
        Rule::Row => state::row(history, entry, timing),
        Rule::Rp => match state::rp_start(history, entry, timing) {
            Some(evidence) => Some(evidence),
            None => too_close(rule, history, entry, timing),
        },
        Rule::RpRef => match state::rp_ref_start(history, entry, config) {
            Some(evidence) => Some(evidence),
            None => too_close(rule, history, entry, timing),
        },
        Rule::RefLate => refresh::ref_late(history, entry, timing, start),
        Rule::RefGap => too_far(history, entry, timing),
        _ => too_close(rule, history, entry, timing),
    }
}

/// The first rank whose next REF was due before the trace's end, with how many REFs it had and their next one's deadline.
pub fn evidence_at_end(
    entries: &[Entry],
    config: &Config,
    start: u64,
    end: u64,
) -> Option<(u32, usize, u64)>
    ensures broken { is_some result ≡ ends_late config.now start end entries.now }
    ensures some { IfSome result (λ l. IsLateAtEnd config.now start end entries.now l.0 l.1 l.2) }
{
    for rank in 0..config.geometry.ranks {
        let refresh = Command::Refresh { rank };
        if let Some((refreshes, due)) = refresh::late(
            entries,
            &refresh,
            &config.timing,
            start,
            end,
        ) {
            return Some((rank, refreshes, due));
        }
    }
    None
}

/// That the entry stands too close behind an earlier one, if so.
pub(crate) fn too_close(
    rule: Rule,
    history: &[Entry],
    entry: &Entry,
    timing: &Timing,
) -> Option<Evidence>
    ensures broken { is_some result ≡ pair_breaks timing.now rule history.now entry.now }
    ensures some { IfSome result (IsPair timing.now rule history.now entry.now) }
{
    let earlier = pair::nearest(rule, history, entry, timing)?;
    Some(Evidence::TooClose {
        earlier,
        distance: entry.cycle.saturating_sub(earlier.entry.cycle),
        least: pair::least_of(rule, &earlier.entry.command, &entry.command, timing),
    })
}

/// That the REF stands too far behind the REF before, if so.
fn too_far(history: &[Entry], entry: &Entry, timing: &Timing) -> Option<Evidence>
    ensures broken { is_some result ≡ pair_breaks timing.now Rule.RefGap history.now entry.now }
    ensures some { IfSome result (IsGap timing.now history.now entry.now) }
{
    let earlier = pair::nearest(Rule::RefGap, history, entry, timing)?;
    Some(Evidence::TooFar {
        earlier,
        distance: entry.cycle.saturating_sub(earlier.entry.cycle),
    })
}
