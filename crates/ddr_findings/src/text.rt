//! The lines of findings.
//!
//! `fault`, `warning`, `relation`, `takes` and `oddity` stand below; the command `lint` writes these lines.
ghost use Rattle.std.specs.Prelude.{◌≡◌, ◌≤◌, IfOk, map, string_bytes};
ghost use Rattle.ddr_findings.specs.Faults.{told};
ghost use Rattle.ddr_findings.specs.Texts.{closing_text, fault_text, findings_text, refresh_text, relation_text, takes_text, warning_text};

use crate::fault::ConfigFault;
use crate::lint::Findings;
use crate::relation::{RefreshClocks, Relation};
use crate::shown::plain;
use crate::takes::Takes;
use crate::warning::Warning;
use ddr_timing::units::BURST_CLOCKS;
use std::alloc::{AllocError, Global};

/// A line for each finding, the faults first, each line with its line feed.
#[tactic(auto, unfolding(crate::specs::Texts::findings_text))]
pub fn findings_text(alloc: Global, findings: &Findings) -> Result<String, AllocError>
    ensures { IfOk result (λ text. string_bytes text ≡ findings_text (map told findings.now.faults.items) findings.now.warnings.items) }
{
    let mut text = String::new(alloc);
    for fault in &findings.faults {
        let line = fault_text(alloc, fault)?;
        text.push_str(line.as_str())?;
    }
    for warning in &findings.warnings {
        let line = warning_text(alloc, *warning)?;
        text.push_str(line.as_str())?;
    }
    Ok(text)
}

/// The line of a fault, with its line feed.
#[tactic(auto, unfolding(crate::specs::Texts::fault_text))]
pub fn fault_text(alloc: Global, fault: &ConfigFault) -> Result<String, AllocError>
    ensures { IfOk result (λ text. string_bytes text ≡ fault_text (told fault.now)) }
{
    match fault {
        ConfigFault::Syntax => String::from_str(
            alloc,
            "syntax: the configuration is no TOML text\n",
        ),
        ConfigFault::Missing { key } => {
            let name = key.name();
            format!(in alloc; "missing: there is no key {name}\n")
        }
        ConfigFault::Range { key, given, takes } => {
            let name = key.name();
            let takes = takes_text(alloc, *takes)?;
            format!(in alloc; "range: {name} = {given} {takes}\n")
        }
        ConfigFault::NotPowerOfTwo { key, given } => {
            let name = key.name();
            format!(in alloc; "power of two: {name} = {given} is none\n")
        }
        ConfigFault::Unknown { name, nearest } => {
            let name = plain(alloc, name.as_str())?;
            let nearest = nearest.name();
            format!(in alloc; "unknown key: {name}, the nearest known one is {nearest}\n")
        }
        ConfigFault::Later { name } => {
            let name = plain(alloc, name.as_str())?;
            format!(in alloc; "unknown key: {name}, which version 2 alone has\n")
        }
        ConfigFault::Related { relation } => relation_text(alloc, *relation),
    }
}

/// What a value that is none of these is not.
#[tactic(auto, unfolding(crate::specs::Texts::takes_text))]
fn takes_text(alloc: Global, takes: Takes) -> Result<String, AllocError>
    ensures { IfOk result (λ text. string_bytes text ≡ takes_text takes) }
{
    match takes {
        Takes::Within { low, high } => format!(in alloc; "is no integer from {low} to {high}"),
        Takes::PowerOfTwo { low, high } => {
            format!(in alloc; "is no power of two from {low} to {high}")
        }
        Takes::TwoOrFour => String::from_str(alloc, "is neither 2 nor 4"),
        Takes::FiveWords => String::from_str(
            alloc,
            "is no text of the words channel, group, bank, column and row, each once with one space between two",
        ),
        Takes::SixWords => String::from_str(
            alloc,
            "is no text of the words channel, group, bank, column, row and rank, each once with one space between two",
        ),
        Takes::Flag => String::from_str(alloc, "is neither true nor false"),
    }
}

/// The line of a broken relation, with its line feed.
#[tactic(auto, unfolding(crate::specs::Texts::relation_text))]
fn relation_text(alloc: Global, relation: Relation) -> Result<String, AllocError>
    ensures { IfOk result (λ text. string_bytes text ≡ relation_text relation) }
{
    match relation {
        Relation::BurstsPass { ccd_s } => {
            format!(in alloc; "relation 1: ccd_s {ccd_s} is below {BURST_CLOCKS}\n")
        }
        Relation::ColumnsOfAGroup { ccd_l, ccd_s } => {
            format!(in alloc; "relation 2: ccd_l {ccd_l} is below ccd_s {ccd_s}\n")
        }
        Relation::ActivatesOfAGroup { rrd_l, rrd_s } => {
            format!(in alloc; "relation 3: rrd_l {rrd_l} is below rrd_s {rrd_s}\n")
        }
        Relation::BusTurns { cl, cwl, rtw } => {
            let least = 4.max((u64::from(cl) + 4).saturating_sub(u64::from(cwl)));
            format!(in alloc; "relation 4: max(4, {cl} + 4 - {cwl}) = {least} is above rtw {rtw}\n")
        }
        Relation::RefreshFits { clocks } => { refresh_text(alloc, clocks, clocks.least_interval()) }
        Relation::MarksApart { low, high } => {
            format!(in alloc; "relation 6: low {low} is not below high {high}\n")
        }
        Relation::MarkReached { high, writes } => {
            format!(in alloc; "relation 7: high {high} is above writes {writes}\n")
        }
    }
}

/// The line of relation 5, whose left side is `least`, with its line feed.
#[tactic(auto, unfolding(crate::specs::Texts::refresh_text))]
fn refresh_text(alloc: Global, clocks: RefreshClocks, least: u64) -> Result<String, AllocError>
    ensures { IfOk result (λ text. string_bytes text ≡ refresh_text clocks least) }
{
    let closing = closing_text(alloc, clocks)?;
    let rp = clocks.rp;
    let rfc = clocks.rfc;
    let refi = clocks.refi;
    format!(in alloc;
        "relation 5: max({closing} + {rp}, {rfc}) + 4 = {least} is above refi {refi}\n"
    )
}

/// The clocks before a precharge, as relation 5 has them.
#[tactic(auto, unfolding(crate::specs::Texts::closing_text))]
fn closing_text(alloc: Global, clocks: RefreshClocks) -> Result<String, AllocError>
    ensures { IfOk result (λ text. string_bytes text ≡ closing_text clocks) }
{
    let ras = clocks.ras;
    let cwl = clocks.cwl;
    let wr = clocks.wr;
    let rtp = clocks.rtp;
    format!(in alloc; "max({ras}, {cwl} + 4 + {wr}, {rtp})")
}

/// The line of a warning, with its line feed.
#[tactic(auto, unfolding(crate::specs::Texts::warning_text))]
pub fn warning_text(alloc: Global, warning: Warning) -> Result<String, AllocError>
    ensures { IfOk result (λ text. string_bytes text ≡ warning_text warning) }
{
    let low = warning.oddity.left();
    let high = warning.oddity.right();
    let reason = warning.oddity.reason();
    let left = warning.left;
    let right = warning.right;
    format!(in alloc; "warning: {low} = {left} is below {high} = {right}: {reason}\n")
}
