//! Every fault of a trace.
//!
//! `ddr_evidence`, `ddr_legality` and `ddr_trace` stand below, and `all` above.
ghost use Rattle.std.specs.Prelude.{◌≡◌, ℕ, ◌<◌, ◌++◌, IfOk, OnOk, Some, false, flat_map, length, slice_get, true};
ghost use Rattle.std.specs.List.{list_all, range_with_len};
ghost use Rattle.ddr_trace.specs.declared.rule.Rule.{Rule};
ghost use Rattle.ddr_trace.specs.Legality.{breaks_at};
ghost use Rattle.ddr_evidence.specs.Recent.{IsReach};
ghost use Rattle.ddr_explain.specs.AllFaults.{all_faults, faults_at, told_of};

use ddr_evidence::broken::{breaks, reach_of};
use ddr_evidence::find::evidence_at_end;
use ddr_legality::checker::kept_places;
use ddr_timing::config::Config;
use ddr_trace::checker::Fault;
use ddr_trace::command::Entry;
use ddr_trace::rule::Rule;
use std::alloc::{AllocError, Global};

/// Every fault of the trace, in the order of the places, and at a place in that of the rules. The trace goes from `start` to
/// `end`, which is the first cycle behind it. A place that is known to break none costs no look at its history, and
/// any other mostly a look at its newest entries.
pub fn all_faults(
    alloc: Global,
    entries: &[Entry],
    config: &Config,
    start: u64,
    end: u64,
) -> Result<Vec<Fault>, AllocError>
    ensures { IfOk result (λ faults. faults.items ≡ all_faults config.now start end entries.now) }
{
    let kept = kept_places(alloc, entries, config, start, end)?;
    let mut faults = place_faults(alloc, entries, kept.as_slice(), config, start, end)?;
    if evidence_at_end(entries, config, start, end).is_some() {
        faults.push(Fault {
            place: entries.len(),
            rule: Rule::RefLate,
        })?;
    }
    Ok(faults)
}

/// The faults at the places of the entries. Where `kept` is true, there is none; where it is so everywhere, nothing is asked for.
fn place_faults(
    alloc: Global,
    entries: &[Entry],
    kept: &[bool],
    config: &Config,
    start: u64,
    end: u64,
) -> Result<Vec<Fault>, AllocError>
    requires each { length kept.now ≡ length entries.now }
    requires kept { (place : ℕ) (rule : Rule) → slice_get kept.now place ≡ Some true → breaks_at config.now start end entries.now place rule ≡ false }
    ensures { IfOk result (λ faults. faults.items
        ≡ flat_map (faults_at config.now start end entries.now) (range_with_len 0 (length entries.now))) }
{
    let mut faults = Vec::new(alloc);
    if are_all_kept(kept) {
        return Ok(faults);
    }
    let reach = reach_of(alloc, entries)?;
    for place in 0..entries.len() {
        if !kept[place] {
            add_faults(
                &mut faults,
                place,
                entries,
                reach.as_slice(),
                config,
                start,
                end,
            )?;
        }
    }
    Ok(faults)
}

/// Whether no place may be at fault.
fn are_all_kept(kept: &[bool]) -> bool
    ensures { result ≡ list_all (λ is_kept. is_kept) kept.now }
{
    kept.iter().all(|is_kept| *is_kept)
}

/// Adds each rule that the entry at the place breaks behind its history.
fn add_faults(
    faults: &mut Vec<Fault>,
    place: usize,
    entries: &[Entry],
    reach: &[u64],
    config: &Config,
    start: u64,
    end: u64,
) -> Result<(), AllocError>
    requires within { place < length entries.now }
    requires reach { IsReach entries.now reach.now }
    ensures { OnOk result (faults.new.items ≡ faults.old.items ++ faults_at config.now start end entries.now place) }
{
    let history = &entries[..place];
    let entry = &entries[place];
    for rule in Rule::ALL {
        if breaks(rule, history, reach, entry, config, start, end) {
            faults.push(Fault { place, rule })?;
        }
    }
    Ok(())
}

/// The first of these faults, if so many are asked for.
pub(crate) fn told_of(faults: &[Fault], most: Option<u32>) -> &[Fault]
    ensures { result.now ≡ told_of most faults.now }
{
    match most {
        Some(most) => &faults[..faults.len().min(most as usize)],
        None => faults,
    }
}
