//! What a channel's commands waited for, as text.
//!
//! `causes` stands below, and `ddr_replay`, whose statistics have it, above.
ghost use Rattle.std.specs.Prelude.{◌≡◌, IfOk, slice_index_or, string_bytes};
ghost use Rattle.ddr_ledger.specs.CausesText.{all_rules_lines, causes_lines, rule_line, rules_lines};

use crate::causes::{Causes, RULES};
use ddr_trace::rule::Rule;
use std::alloc::{AllocError, Global};

/// The lines of a channel's stalled clocks: those of all causes together, those for the cap and for the scheduler's choice, and those of
/// each rule that has some.
#[tactic(auto, unfolding(crate::specs::CausesText::causes_lines))]
pub fn causes_lines(alloc: Global, causes: &Causes) -> Result<String, AllocError>
    ensures { IfOk result (λ text. string_bytes text ≡ causes_lines causes.now) }
{
    let clocks = causes.clocks();
    let cap = causes.cap;
    let choice = causes.choice;
    let mut text = format!(in alloc;
        "stalled_cycles = {clocks}\nstalled_for_cap = {cap}\nstalled_for_choice = {choice}\n"
    )?;
    let rules = all_rules_lines(alloc, &causes.rules)?;
    text.push_str(rules.as_str())?;
    Ok(text)
}

/// The lines of the rules that have some of these clocks.
#[tactic(auto, unfolding(crate::specs::CausesText::all_rules_lines))]
fn all_rules_lines(alloc: Global, clocks: &[u64; RULES]) -> Result<String, AllocError>
    ensures { IfOk result (λ text. string_bytes text ≡ all_rules_lines clocks.now) }
{
    rules_lines(alloc, &Rule::ALL, clocks)
}

/// The lines of those of these rules that do.
fn rules_lines(alloc: Global, rules: &[Rule], clocks: &[u64]) -> Result<String, AllocError>
    ensures { IfOk result (λ text. string_bytes text ≡ rules_lines 0 rules.now clocks.now) }
{
    let mut text = String::new(alloc);
    for (place, rule) in rules.iter().enumerate() {
        let line = rule_line(alloc, rule, clocks_at(clocks, place))?;
        text.push_str(line.as_str())?;
    }
    Ok(text)
}

/// The clocks at this place.
fn clocks_at(clocks: &[u64], place: usize) -> u64
    ensures { result ≡ slice_index_or clocks.now place 0 }
{
    match clocks.get(place) {
        Some(some) => *some,
        None => 0,
    }
}

/// The line of a rule, where it has any of these clocks.
#[tactic(auto, unfolding(crate::specs::CausesText::rule_line))]
fn rule_line(alloc: Global, rule: &Rule, clocks: u64) -> Result<String, AllocError>
    ensures { IfOk result (λ text. string_bytes text ≡ rule_line rule.now clocks) }
{
    if clocks == 0 {
        return Ok(String::new(alloc));
    }
    let name = rule.name();
    format!(in alloc; "stalled_for_{name} = {clocks}\n")
}
