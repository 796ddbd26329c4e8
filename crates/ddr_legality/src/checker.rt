//! The checker of a whole trace, in one pass.
//!
//! It finds what `ddr_trace`'s checker finds, which compares each entry with all those before it: `one_pass`, below, tells the
//! lowest rule that the next entry breaks, by what it keeps of those before.
ghost use Rattle.std.specs.Prelude.{◌≡◌, ℕ, ◌<◌, ◌↔◌, Some, IfNone, IfOk, IfSome, IsNone, false, length, slice_get, true, vec_len};
ghost use Rattle.std.specs.Option.{is_none};
ghost use Rattle.ddr_trace.specs.declared.rule.Rule.{Rule};
ghost use Rattle.ddr_trace.specs.Bus.{KeepsBus};
ghost use Rattle.ddr_trace.specs.Legality.{IsFirstFault, IsLegal, IsRefreshed, breaks_at, lowest_rule};
ghost use Rattle.ddr_legality.specs.Followed.{AreFollowed};

use crate::one_pass::Checker;
use ddr_timing::config::Config;
use ddr_trace::checker::Fault;
use ddr_trace::command::Entry;
use ddr_trace::rule::Rule;
use std::alloc::{AllocError, Global};

/// The lowest place of the trace that breaks a rule, with the lowest rule broken there. The trace goes from
/// `start` to `end`, which is the first cycle behind it. An entry costs the same wherever it stands.
/// In a trace with no fault no two bursts overlap on the data bus.
pub fn first_fault(
    alloc: Global,
    entries: &[Entry],
    config: &Config,
    start: u64,
    end: u64,
) -> Result<Option<Fault>, AllocError>
    ensures none { IfOk result (λ found. IsNone found
        ↔ (IsLegal config.now start end entries.now × IsRefreshed config.now start end entries.now)) }
    ensures fault { IfOk result (λ found. IfSome found
        (λ f. IsFirstFault config.now start end entries.now f.place f.rule)) }
    ensures bus { IfOk result (λ found. IfNone found (KeepsBus config.now.timing entries.now)) }
{
    let mut so_far = Checker::open(alloc, config, start)?;
    for (place, entry) in entries.iter().enumerate() {
        if let Some(rule) = so_far.lowest(entry, end) {
            return Ok(Some(Fault { place, rule }));
        }
        so_far.pass(entry);
    }
    if so_far.ends_late(end) {
        return Ok(Some(Fault {
            place: entries.len(),
            rule: Rule::RefLate,
        }));
    }
    Ok(None)
}

/// For each entry of the trace, whether it is known to break no rule behind its history, entries at fault among that. The
/// trace goes from `start` to `end`, and an entry costs the same wherever it stands.
///
/// What one pass keeps stands for entries of the geometry whose cycles rise, whatever else is at fault with them. So all is
/// known of every entry up to the first one that is none of these, and of those behind it nothing is.
pub fn kept_places(
    alloc: Global,
    entries: &[Entry],
    config: &Config,
    start: u64,
    end: u64,
) -> Result<Vec<bool>, AllocError>
    ensures each { IfOk result (λ kept. vec_len kept ≡ length entries.now) }
    ensures kept { IfOk result (λ kept. (place : ℕ) (rule : Rule) → slice_get kept.items place ≡ Some true
        → breaks_at config.now start end entries.now place rule ≡ false) }
    ensures known { IfOk result (λ kept. (place : ℕ) → place < length entries.now → AreFollowed config.now.geometry entries.now place
        → slice_get kept.items place ≡ Some (is_none (lowest_rule (breaks_at config.now start end entries.now place)))) }
{
    let mut so_far = Checker::open(alloc, config, start)?;
    let mut is_followed = true;
    let mut kept = Vec::new(alloc);
    for entry in entries {
        let is_kept = is_followed && so_far.is_kept_by(entry, end);
        kept.push(is_kept)?;
        if is_followed {
            is_followed = so_far.follow(entry);
        }
    }
    Ok(kept)
}
