//! What a command waited for, in words.
//!
//! `held` and `names` stand below, and `boxes` above.
ghost use Rattle.std.specs.Prelude.{◌≡◌, IfOk, string_bytes};
ghost use Rattle.ddr_draw.specs.Told.{at_text, clocks_text, from_text, held_text, wait_text};

use crate::held::Held;
use ddr_trace::command::Entry;
use std::alloc::{AllocError, Global};

/// What the entry waited for, in words on a line of their own; nothing where it is none.
pub(crate) fn held_text(
    alloc: Global,
    entry: &Entry,
    held: Option<Held>,
) -> Result<String, AllocError>
    ensures { IfOk result (λ text. string_bytes text ≡ held_text entry.now held) }
{
    match held {
        Some(held) => wait_text(alloc, entry, &held),
        None => Ok(String::new(alloc)),
    }
}

#[tactic(auto, unfolding(crate::specs::Told::wait_text))]
fn wait_text(alloc: Global, entry: &Entry, held: &Held) -> Result<String, AllocError>
    ensures { IfOk result (λ text. string_bytes text ≡ wait_text entry.now held.now) }
{
    let rule = held.rule.name();
    let from = from_text(alloc, held)?;
    let clocks = clocks_text(alloc, entry.cycle.saturating_sub(held.since))?;
    let least = held.least;
    format!(in alloc; "\n{rule} behind {from}: {clocks}, least {least}")
}

/// What the rule counts from: the earlier command, or the start of its auto-precharge.
#[tactic(auto, unfolding(crate::specs::Told::from_text))]
fn from_text(alloc: Global, held: &Held) -> Result<String, AllocError>
    ensures { IfOk result (λ text. string_bytes text ≡ from_text held.now) }
{
    let start = if held.since == held.earlier.cycle {
        ""
    } else {
        "the start of the auto-precharge of "
    };
    let earlier = at_text(alloc, held.place, &held.earlier)?;
    format!(in alloc; "{start}{earlier}")
}

/// A command with its cycle and the line of the trace's text.
#[tactic(auto, unfolding(crate::specs::Told::at_text))]
pub(crate) fn at_text(alloc: Global, place: usize, entry: &Entry) -> Result<String, AllocError>
    ensures { IfOk result (λ text. string_bytes text ≡ at_text place entry.now) }
{
    let name = entry.command.name();
    let cycle = entry.cycle;
    let line = place as u128 + 2;
    format!(in alloc; "{name} at cycle {cycle} (line {line})")
}

#[tactic(auto, unfolding(crate::specs::Told::clocks_text))]
fn clocks_text(alloc: Global, clocks: u64) -> Result<String, AllocError>
    ensures { IfOk result (λ text. string_bytes text ≡ clocks_text clocks) }
{
    if clocks == 1 {
        String::from_str(alloc, "1 clock")
    } else {
        format!(in alloc; "{clocks} clocks")
    }
}
