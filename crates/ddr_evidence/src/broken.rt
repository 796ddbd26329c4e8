//! Whether an entry breaks a rule, by no more of its history than tells it.
//!
//! Most rules an entry breaks by what its bank is, or together with an earlier one that stands few clocks before it. So of a long
//! history the newest entries mostly tell; a trace's reach says which of them. `find`, `refresh`, `state` and `kind` stand below.
ghost use Rattle.std.specs.Prelude.{◌≡◌, ℕ, ◌+◌, ◌<◌, ◌≤◌, All, IfOk, length, take, true};
ghost use Rattle.std.specs.List.{slice_index_or};
ghost use Rattle.ddr_trace.specs.Rules.{breaks, spacing_of};
ghost use Rattle.ddr_evidence.specs.Places.{pair_breaks};
ghost use Rattle.ddr_evidence.specs.Recent.{IsGreatest, IsReach, is_later, is_of_near, span_of};

use crate::find::{evidence_of, too_close};
use crate::state;
use ddr_timing::config::Config;
use ddr_timing::timing::Timing;
use ddr_timing::units::BURST_CLOCKS;
use ddr_trace::command::{Command, Entry, is_before};
use ddr_trace::rule::Rule;
use ddr_trace::window::breaks_ref_gap;
use std::alloc::{AllocError, Global};

/// For each entry a cycle that neither it nor any entry before it stands behind: the greatest of theirs.
pub fn reach_of(alloc: Global, entries: &[Entry]) -> Result<Vec<u64>, AllocError>
    ensures above { IfOk result (λ reach. IsReach entries.now reach.items) }
    ensures greatest { IfOk result (λ reach. IsGreatest entries.now reach.items) }
{
    let mut reach = Vec::with_capacity(alloc, entries.len())?;
    let mut greatest = 0u64;
    for entry in entries {
        greatest = greatest.max(entry.cycle);
        reach.push_reserved(greatest);
    }
    Ok(reach)
}

/// Whether the entry breaks the rule behind its history, in a trace from `start` to `end`: whether there is evidence of it, of
/// which `evidence_of` tells. `reach` is that of the history, or of a longer trace; where it rises with the entries, the cost
/// mostly goes by how many stand less than the rule's distance before the entry.
pub fn breaks(
    rule: Rule,
    history: &[Entry],
    reach: &[u64],
    entry: &Entry,
    config: &Config,
    start: u64,
    end: u64,
) -> bool
    requires { IsReach history.now reach.now }
    ensures { result ≡ breaks config.now start end rule history.now entry.now }
{
    let timing = &config.timing;
    match rule {
        Rule::Order | Rule::Place | Rule::RefLate => {
            evidence_of(rule, history, entry, config, start, end).is_some()
        }
        Rule::State => state::breaks_state(history, entry, config),
        Rule::Row => state::breaks_row(history, entry, timing),
        Rule::RefGap => breaks_ref_gap(history, entry, timing),
        Rule::Rp => {
            state::is_behind_start(history, entry, timing)
                || breaks_pair(rule, history, reach, entry, timing)
        }
        Rule::RpRef => {
            state::is_behind_start_of_rank(history, entry, config)
                || breaks_pair(rule, history, reach, entry, timing)
        }
        _ => breaks_pair(rule, history, reach, entry, timing),
    }
}

/// Whether the entry stands too close behind an earlier one.
fn breaks_pair(rule: Rule, history: &[Entry], reach: &[u64], entry: &Entry, timing: &Timing) -> bool
    requires reach { IsReach history.now reach.now }
    requires rule { is_of_near rule ≡ true }
    ensures { result ≡ pair_breaks timing.now rule history.now entry.now }
{
    if !is_later(rule, &entry.command, timing) {
        return false;
    }
    let from = first_within(history, reach, entry.cycle, span_of(rule, timing));
    too_close(rule, &history[from..], entry, timing).is_some()
}

/// Whether the rule speaks of the command as the later one.
fn is_later(rule: Rule, command: &Command, timing: &Timing) -> bool
    ensures { result ≡ is_later timing.now rule command.now }
{
    match rule {
        Rule::Rtrs => command.is_column(),
        Rule::Faw => command.is_activate(),
        _ => is_later_of_two(rule, command, timing),
    }
}

/// Whether the rule is one on two commands, and the command its later one.
fn is_later_of_two(rule: Rule, command: &Command, timing: &Timing) -> bool
    ensures { result ≡ (spacing_of timing.now rule).later command.now }
{
    match rule.spacing(timing) {
        Some(spacing) => spacing.later.has(command),
        None => false,
    }
}

/// So many clocks behind an entry, it breaks the rule with none.
fn span_of(rule: Rule, timing: &Timing) -> u32
    ensures { result ≡ span_of timing.now rule }
{
    match rule {
        Rule::Rtrs => timing.cl.max(timing.cwl) + BURST_CLOCKS + timing.rtrs,
        Rule::Faw => timing.faw,
        _ => rule.least_distance(timing),
    }
}

/// The place in the history from which on the reach stands fewer than `clocks` before the cycle: no entry before it does.
fn first_within(history: &[Entry], reach: &[u64], cycle: u64, clocks: u32) -> usize
    requires { IsReach history.now reach.now }
    ensures within { result ≤ length history.now }
    ensures far { All (λ a. a.cycle + clocks ≤ cycle) (take result history.now) }
    ensures near { (place : ℕ) → result ≤ place → place < length history.now → cycle < slice_index_or reach.now place 0 + clocks }
{
    let mut place = history.len();
    while place > 0 {
        if !is_before(cycle, reach[place - 1], clocks) {
            return place;
        }
        place -= 1;
    }
    0
}
