//! The sentence of a bank in another state than a command wants.
//!
//! `names`, `ddr_evidence` and `ddr_trace` stand below, and `sentence` above.
ghost use Rattle.std.specs.Prelude.{◌≡◌, IfOk, Some, string_bytes};
ghost use Rattle.ddr_explain.specs.Sentences.{bank_text, changed_text, row_text, state_text, state_wanted, wanted_text};

use crate::names::{at_text, clocks_text, label_of};
use ddr_evidence::bank::clocks_since_start;
use ddr_evidence::evidence::Placed;
use ddr_timing::timing::Timing;
use ddr_trace::bank::OpenBank;
use ddr_trace::command::{Command, Entry};
use ddr_trace::rule::Rule;
use std::alloc::{AllocError, Global};

/// A bank as a command finds it: what its history makes of it, and the entry that last changed it.
#[derive(Clone, Copy)]
pub(crate) struct Found {
    pub(crate) group: u32,
    pub(crate) bank: u32,
    pub(crate) opened: Option<OpenBank>,
    pub(crate) changed: Option<Placed>,
}

/// That the entry finds the bank in another state than it wants.
#[tactic(auto, unfolding(crate::specs::Sentences::state_text))]
pub(crate) fn state_text(
    alloc: Global,
    rule: Rule,
    here: &Placed,
    found: &Found,
    timing: &Timing,
) -> Result<String, AllocError>
    ensures { IfOk result (λ text. string_bytes text
        ≡ state_text timing.now rule here.now.place here.now.entry found.now.group found.now.bank found.now.opened found.now.changed) }
{
    let at = at_text(alloc, here)?;
    let rank = here.entry.command.rank();
    let group = found.group;
    let bank = found.bank;
    let state = bank_text(
        alloc,
        timing,
        here.entry.cycle,
        &found.opened,
        &found.changed,
    )?;
    let label = label_of(rule);
    let wanted = wanted_text(alloc, rule, &here.entry.command)?;
    format!(in alloc;
        "{at} finds bank {bank} of group {group} of rank {rank} {state}: {label} wants {wanted}\n"
    )
}

/// What a bank is in a cycle, and since which entry.
#[tactic(auto, unfolding(crate::specs::Sentences::bank_text))]
fn bank_text(
    alloc: Global,
    timing: &Timing,
    cycle: u64,
    opened: &Option<OpenBank>,
    changed: &Option<Placed>,
) -> Result<String, AllocError>
    ensures { IfOk result (λ text. string_bytes text ≡ bank_text timing.now cycle opened.now changed.now) }
{
    match (opened, changed) {
        (None, None) => String::from_str(alloc, "idle, with no ACT of it before"),
        (None, Some(placed)) => {
            let at = at_text(alloc, placed)?;
            format!(in alloc; "idle since {at}")
        }
        (Some(bank), None) => row_text(alloc, bank.row),
        (Some(bank), Some(placed)) => changed_text(alloc, timing, cycle, bank, placed),
    }
}

/// What a bank that was opened is in a cycle, as the entry left it.
#[tactic(auto, unfolding(crate::specs::Sentences::changed_text))]
fn changed_text(
    alloc: Global,
    timing: &Timing,
    cycle: u64,
    bank: &OpenBank,
    placed: &Placed,
) -> Result<String, AllocError>
    ensures { IfOk result (λ text. string_bytes text ≡ changed_text timing.now cycle bank.now placed.now bank.now.auto) }
{
    let at = at_text(alloc, placed)?;
    let row = row_text(alloc, bank.row)?;
    let Some(auto) = &bank.auto else {
        return format!(in alloc; "{row} since {at}");
    };
    if bank.open_row(cycle, timing).is_some() {
        return format!(in alloc; "{row}, which {at} is to close");
    }
    let clocks = clocks_text(alloc, clocks_since_start(bank, auto, cycle, timing))?;
    format!(in alloc; "idle since the auto-precharge of {at}, {clocks} before")
}

/// An active bank.
#[tactic(auto, unfolding(crate::specs::Sentences::row_text))]
fn row_text(alloc: Global, row: u32) -> Result<String, AllocError>
    ensures { IfOk result (λ text. string_bytes text ≡ row_text row) }
{
    format!(in alloc; "active with row {row}")
}

/// What the rule wants of the command's bank.
#[tactic(auto, unfolding(crate::specs::Sentences::wanted_text))]
fn wanted_text(alloc: Global, rule: Rule, command: &Command) -> Result<String, AllocError>
    ensures { IfOk result (λ text. string_bytes text ≡ wanted_text rule command.now) }
{
    match rule {
        Rule::Row => {
            let row = command.row();
            format!(in alloc; "row {row} active")
        }
        _ => String::from_str(alloc, state_wanted(command)),
    }
}

/// What STATE wants of the command's bank.
fn state_wanted(command: &Command) -> &'static str
    ensures { result.now ≡ state_wanted command.now }
{
    match command {
        Command::Act { .. } => "an idle bank",
        Command::Refresh { .. } => "every bank of its rank idle",
        _ => "an active bank that no RDA or WRA is to close",
    }
}
