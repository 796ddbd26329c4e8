//! The least distance of a rule, by the keys of the configuration that it is made of, and then by their values.
//!
//! `ddr_timing` and `ddr_trace` stand below, and `sentence` above.
ghost use Rattle.std.specs.Prelude.{◌≡◌, IfOk, string_bytes};
ghost use Rattle.ddr_explain.specs.Limits.{data_text, key_of, latency_key, limit_text, switch_text};

use ddr_timing::timing::Timing;
use ddr_trace::command::Command;
use ddr_trace::ranks::latency;
use ddr_trace::rule::Rule;
use std::alloc::{AllocError, Global};

/// The distance that the rule wants from the one command to the other, but for its value.
#[tactic(auto, unfolding(crate::specs::Limits::limit_text))]
pub(crate) fn limit_text(
    alloc: Global,
    rule: Rule,
    earlier: &Command,
    later: &Command,
    timing: &Timing,
) -> Result<String, AllocError>
    ensures { IfOk result (λ text. string_bytes text ≡ limit_text timing.now rule earlier.now later.now) }
{
    match rule {
        Rule::WtrL => data_text(alloc, timing, "wtr_l", timing.wtr_l),
        Rule::WtrS => data_text(alloc, timing, "wtr_s", timing.wtr_s),
        Rule::Wr => data_text(alloc, timing, "wr", timing.wr),
        Rule::Rtrs => switch_text(alloc, earlier, later, timing),
        _ => String::from_str(alloc, key_of(rule)),
    }
}

/// The key that is a rule's distance; of other rules none.
fn key_of(rule: Rule) -> &'static str
    ensures { result.now ≡ key_of rule }
{
    match rule {
        Rule::Rcd => "rcd",
        Rule::Ras => "ras",
        Rule::Rc => "rc",
        Rule::Rp | Rule::RpRef => "rp",
        Rule::RrdL => "rrd_l",
        Rule::RrdS => "rrd_s",
        Rule::Faw => "faw",
        Rule::CcdL => "ccd_l",
        Rule::CcdS => "ccd_s",
        Rule::Rtp => "rtp",
        Rule::Rtw => "rtw",
        Rule::Rfc => "rfc",
        Rule::Order
        | Rule::Place
        | Rule::State
        | Rule::Row
        | Rule::WtrL
        | Rule::WtrS
        | Rule::Wr
        | Rule::RefLate
        | Rule::RefGap
        | Rule::Rtrs => "",
    }
}

/// From a write to the end of its data, and from there on the key's clocks.
#[tactic(auto, unfolding(crate::specs::Limits::data_text))]
fn data_text(alloc: Global, timing: &Timing, key: &str, value: u32) -> Result<String, AllocError>
    ensures { IfOk result (λ text. string_bytes text ≡ data_text timing.now key.now value) }
{
    let cwl = timing.cwl;
    format!(in alloc; "cwl + 4 + {key} = {cwl} + 4 + {value}")
}

/// From the earlier one's data to the later one's, of two ranks.
#[tactic(auto, unfolding(crate::specs::Limits::switch_text))]
fn switch_text(
    alloc: Global,
    earlier: &Command,
    later: &Command,
    timing: &Timing,
) -> Result<String, AllocError>
    ensures { IfOk result (λ text. string_bytes text ≡ switch_text timing.now earlier.now later.now) }
{
    let first = latency_key(earlier);
    let second = latency_key(later);
    let from = latency(earlier, timing);
    let to = latency(later, timing);
    let rtrs = timing.rtrs;
    format!(in alloc; "max(4, {first} + 4 + rtrs - {second}) = max(4, {from} + 4 + {rtrs} - {to})")
}

/// The key of the clocks from a read or a write to its data.
fn latency_key(command: &Command) -> &'static str
    ensures { result.now ≡ latency_key command.now }
{
    if command.is_read() { "cl" } else { "cwl" }
}
