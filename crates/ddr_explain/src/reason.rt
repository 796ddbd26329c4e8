//! Why a trace breaks a rule at a place.
//!
//! `sentence`, `ddr_evidence` and `ddr_trace` stand below, and `explain` above.
ghost use Rattle.std.specs.Prelude.{◌≡◌, IfOk, string_bytes, true};
ghost use Rattle.ddr_trace.specs.Legality.{breaks_at};
ghost use Rattle.ddr_trace.specs.Rules.{breaks, ends_late};
ghost use Rattle.ddr_explain.specs.Reasons.{IsEndReason, IsEntryReason, IsReason};

use crate::sentence::{end_sentence, sentence};
use ddr_evidence::evidence::Placed;
use ddr_evidence::find::{evidence_at_end, evidence_of};
use ddr_timing::config::Config;
use ddr_trace::checker::Fault;
use ddr_trace::command::Entry;
use ddr_trace::rule::Rule;
use ddr_trace::trace::Trace;
use std::alloc::{AllocError, Global};

/// The sentence on why the trace breaks the rule at the place, with its line feed.
pub fn reason(
    alloc: Global,
    config: &Config,
    trace: &Trace,
    fault: Fault,
) -> Result<String, AllocError>
    requires { breaks_at config.now trace.now.start trace.now.end trace.now.entries fault.place fault.rule ≡ true }
    ensures { IfOk result (λ text. IsReason config.now trace.now fault.place fault.rule (string_bytes text)) }
{
    let entries = trace.entries.as_slice();
    let start = trace.start;
    let end = trace.end;
    if fault.place < entries.len() {
        let here = Placed {
            place: fault.place,
            entry: entries[fault.place],
        };
        let history = &entries[..fault.place];
        return entry_reason(alloc, config, start, end, fault.rule, history, &here);
    }
    end_reason(alloc, config, start, end, entries)
}

/// Why the entry breaks the rule behind its history.
fn entry_reason(
    alloc: Global,
    config: &Config,
    start: u64,
    end: u64,
    rule: Rule,
    history: &[Entry],
    here: &Placed,
) -> Result<String, AllocError>
    requires { breaks config.now start end rule history.now here.now.entry ≡ true }
    ensures { IfOk result (λ text.
        IsEntryReason config.now start end rule history.now here.now.place (string_bytes text) here.now.entry) }
{
    let Some(evidence) = evidence_of(rule, history, &here.entry, config, start, end) else {
        unreachable!()
    };
    sentence(alloc, config, start, end, rule, here, &evidence)
}

/// Why the trace's end breaks REF_LATE.
fn end_reason(
    alloc: Global,
    config: &Config,
    start: u64,
    end: u64,
    entries: &[Entry],
) -> Result<String, AllocError>
    requires { ends_late config.now start end entries.now ≡ true }
    ensures { IfOk result (λ text. IsEndReason config.now start end entries.now (string_bytes text)) }
{
    let Some(late) = evidence_at_end(entries, config, start, end) else {
        unreachable!()
    };
    end_sentence(alloc, entries, &config.timing, start, end, late)
}
