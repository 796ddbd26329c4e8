//! The table of a trace's faults, as comma-separated values.
//!
//! `names`, `ddr_evidence` and `ddr_trace` stand below, and `all` above.
ghost use Rattle.std.specs.Prelude.{◌≡◌, All, IfOk, length, string_bytes, true};
ghost use Rattle.ddr_trace.specs.Commands.{bank_of, group_of};
ghost use Rattle.ddr_trace.specs.Legality.{breaks_at};
ghost use Rattle.ddr_trace.specs.Rules.{breaks, ends_late};
ghost use Rattle.ddr_evidence.specs.Evidence.{is_of_one_bank};
ghost use Rattle.ddr_explain.specs.Table.{IsEndLine, IsEntryLine, IsLine, IsTable, bank_fields, command_fields, count_line, count_of, counts_text, distance_fields, earlier_fields, end_line, entry_line, evidence_fields, place_fields};

use crate::names::line_of;
use ddr_evidence::evidence::{Evidence, Placed};
use ddr_evidence::find::{evidence_at_end, evidence_of};
use ddr_timing::config::Config;
use ddr_trace::checker::Fault;
use ddr_trace::command::{Command, Entry};
use ddr_trace::rule::Rule;
use std::alloc::{AllocError, Global};

/// The names of a line's fields.
pub(crate) const HEAD: &str =
    "line,cycle,cmd,rank,group,bank,rule,earlier_line,earlier_cycle,distance,least\n";

/// The lines of these faults, each with its line feed.
pub(crate) fn lines_text(
    alloc: Global,
    entries: &[Entry],
    config: &Config,
    start: u64,
    end: u64,
    faults: &[Fault],
) -> Result<String, AllocError>
    requires { All (λ fault. breaks_at config.now start end entries.now fault.place fault.rule ≡ true) faults.now }
    ensures { IfOk result (λ text. IsTable config.now start end entries.now faults.now (string_bytes text)) }
{
    let mut text = String::new(alloc);
    for fault in faults {
        let line = fault_line(alloc, entries, config, start, end, *fault)?;
        text.push_str(line.as_str())?;
    }
    Ok(text)
}

/// The line of a fault of the trace.
fn fault_line(
    alloc: Global,
    entries: &[Entry],
    config: &Config,
    start: u64,
    end: u64,
    fault: Fault,
) -> Result<String, AllocError>
    requires { breaks_at config.now start end entries.now fault.place fault.rule ≡ true }
    ensures { IfOk result (λ text. IsLine config.now start end entries.now fault (string_bytes text)) }
{
    if fault.place < entries.len() {
        let here = Placed {
            place: fault.place,
            entry: entries[fault.place],
        };
        let history = &entries[..fault.place];
        return broken_line(alloc, config, start, end, fault.rule, history, &here);
    }
    late_line(alloc, config, start, end, entries)
}

/// The line of an entry that breaks the rule behind its history.
fn broken_line(
    alloc: Global,
    config: &Config,
    start: u64,
    end: u64,
    rule: Rule,
    history: &[Entry],
    here: &Placed,
) -> Result<String, AllocError>
    requires { breaks config.now start end rule history.now here.now.entry ≡ true }
    ensures { IfOk result (λ text.
        IsEntryLine config.now start end rule history.now here.now.place (string_bytes text) here.now.entry) }
{
    let Some(evidence) = evidence_of(rule, history, &here.entry, config, start, end) else {
        unreachable!()
    };
    entry_line(alloc, rule, here, &evidence)
}

/// The line of a trace whose end breaks REF_LATE.
#[tactic(auto, unfolding(crate::specs::Table::end_line))]
fn late_line(
    alloc: Global,
    config: &Config,
    start: u64,
    end: u64,
    entries: &[Entry],
) -> Result<String, AllocError>
    requires { ends_late config.now start end entries.now ≡ true }
    ensures { IfOk result (λ text. IsEndLine config.now start end entries.now (string_bytes text)) }
{
    let Some((rank, _, _)) = evidence_at_end(entries, config, start, end) else {
        unreachable!()
    };
    end_line(alloc, entries, end, rank)
}

/// The line of a trace's end that is late for this rank.
#[tactic(auto, unfolding(crate::specs::Table::end_line))]
fn end_line(alloc: Global, entries: &[Entry], end: u64, rank: u32) -> Result<String, AllocError>
    ensures { IfOk result (λ text. string_bytes text ≡ end_line (length entries.now) end rank) }
{
    let line = line_of(entries.len());
    format!(in alloc; "{line},{end},END,{rank},,,REF_LATE,,,,\n")
}

/// The line of an entry that breaks the rule for this reason.
#[tactic(auto, unfolding(crate::specs::Table::entry_line))]
fn entry_line(
    alloc: Global,
    rule: Rule,
    here: &Placed,
    evidence: &Evidence,
) -> Result<String, AllocError>
    ensures { IfOk result (λ text. string_bytes text ≡ entry_line rule here.now.place here.now.entry evidence.now) }
{
    let line = line_of(here.place);
    let cycle = here.entry.cycle;
    let cmd = here.entry.command.name();
    let bank = place_fields(alloc, &here.entry.command, evidence)?;
    let name = rule.name();
    let rest = evidence_fields(alloc, evidence)?;
    format!(in alloc; "{line},{cycle},{cmd},{bank},{name},{rest}\n")
}

/// The rank, group and bank that the fault is of.
fn place_fields(alloc: Global, command: &Command, evidence: &Evidence) -> Result<String, AllocError>
    ensures { IfOk result (λ text. string_bytes text ≡ place_fields command.now evidence.now) }
{
    match *evidence {
        Evidence::Bank { group, bank, .. } => bank_fields(alloc, command.rank(), group, bank),
        _ => command_fields(alloc, command),
    }
}

/// The rank, group and bank of the command; PREA and REF are of no one bank.
#[tactic(auto, unfolding(crate::specs::Table::command_fields))]
fn command_fields(alloc: Global, command: &Command) -> Result<String, AllocError>
    ensures { IfOk result (λ text. string_bytes text ≡ command_fields command.now) }
{
    let rank = command.rank();
    match *command {
        Command::Act { group, bank, .. }
        | Command::Rd { group, bank, .. }
        | Command::Wr { group, bank, .. }
        | Command::RdAuto { group, bank, .. }
        | Command::WrAuto { group, bank, .. }
        | Command::Pre { group, bank, .. } => bank_fields(alloc, rank, group, bank),
        Command::PreAll { .. } | Command::Refresh { .. } => format!(in alloc; "{rank},,"),
    }
}

#[tactic(auto, unfolding(crate::specs::Table::bank_fields))]
fn bank_fields(alloc: Global, rank: u32, group: u32, bank: u32) -> Result<String, AllocError>
    ensures { IfOk result (λ text. string_bytes text ≡ bank_fields rank group bank) }
{
    format!(in alloc; "{rank},{group},{bank}")
}

/// The earlier line and cycle, the distance and the least one, as far as there are such.
#[tactic(auto, unfolding(crate::specs::Table::evidence_fields))]
fn evidence_fields(alloc: Global, evidence: &Evidence) -> Result<String, AllocError>
    ensures { IfOk result (λ text. string_bytes text ≡ evidence_fields evidence.now) }
{
    match *evidence {
        Evidence::TooClose {
            earlier,
            distance,
            least,
        }
        | Evidence::TooCloseToStart {
            earlier,
            distance,
            least,
        } => distance_fields(alloc, &earlier, distance, least),
        Evidence::Bank {
            changed: Some(earlier),
            ..
        }
        | Evidence::NotAbove { earlier } => {
            let earlier = earlier_fields(alloc, &earlier)?;
            format!(in alloc; "{earlier},,")
        }
        Evidence::TooFar { earlier, distance } => {
            let earlier = earlier_fields(alloc, &earlier)?;
            format!(in alloc; "{earlier},{distance},")
        }
        _ => String::from_str(alloc, ",,,"),
    }
}

#[tactic(auto, unfolding(crate::specs::Table::distance_fields))]
fn distance_fields(
    alloc: Global,
    earlier: &Placed,
    distance: u64,
    least: u32,
) -> Result<String, AllocError>
    ensures { IfOk result (λ text. string_bytes text ≡ distance_fields earlier.now distance least) }
{
    let earlier = earlier_fields(alloc, earlier)?;
    format!(in alloc; "{earlier},{distance},{least}")
}

#[tactic(auto, unfolding(crate::specs::Table::earlier_fields))]
fn earlier_fields(alloc: Global, earlier: &Placed) -> Result<String, AllocError>
    ensures { IfOk result (λ text. string_bytes text ≡ earlier_fields earlier.now) }
{
    let line = line_of(earlier.place);
    let cycle = earlier.entry.cycle;
    format!(in alloc; "{line},{cycle}")
}

/// A comment for each rule that is broken: how many of the faults are of it.
#[tactic(auto, unfolding(crate::specs::Table::counts_text))]
pub(crate) fn counts_text(alloc: Global, faults: &[Fault]) -> Result<String, AllocError>
    ensures { IfOk result (λ text. string_bytes text ≡ counts_text faults.now) }
{
    let mut text = String::new(alloc);
    for rule in Rule::ALL {
        let line = count_line(alloc, rule, count_of(faults, rule))?;
        text.push_str(line.as_str())?;
    }
    Ok(text)
}

/// The comment of a rule that so many faults are of; nothing where none is.
#[tactic(auto, unfolding(crate::specs::Table::count_line))]
fn count_line(alloc: Global, rule: Rule, count: usize) -> Result<String, AllocError>
    ensures { IfOk result (λ text. string_bytes text ≡ count_line rule count) }
{
    if count == 0 {
        return Ok(String::new(alloc));
    }
    let name = rule.name();
    format!(in alloc; "# {name} {count}\n")
}

/// How many of the faults are of the rule.
fn count_of(faults: &[Fault], rule: Rule) -> usize
    ensures { result ≡ count_of faults.now rule }
{
    let name = rule.name();
    faults
        .iter()
        .filter(|fault| fault.rule.name() == name)
        .count()
}
