//! The sentence of a broken rule, by what that rests on.
//!
//! `state`, `limit` and `names` stand below, and `explain` above.
ghost use Rattle.std.specs.Prelude.{◌≡◌, IfOk, length, string_bytes};
ghost use Rattle.ddr_explain.specs.Sentences.{aside_of, before_start_text, bound_name, close_text, due_text, end_late_text, far_text, in_text_of, late_text, not_above_text, not_before_end_text, outside_text, part_name, sentence_text, start_text};

use crate::limit::limit_text;
use crate::names::{at_text, clocks_text, label_of, line_of};
use crate::state::{Found, state_text};
use ddr_evidence::evidence::{Evidence, Part, Placed};
use ddr_timing::config::Config;
use ddr_timing::timing::Timing;
use ddr_timing::units::LINE_COLUMNS;
use ddr_trace::command::Entry;
use ddr_trace::rule::Rule;
use std::alloc::{AllocError, Global};

/// The sentence of an entry that breaks the rule for this reason, in a trace from `start` to `end`, with its line feed.
#[tactic(auto, unfolding(crate::specs::Sentences::sentence_text))]
pub fn sentence(
    alloc: Global,
    config: &Config,
    start: u64,
    end: u64,
    rule: Rule,
    here: &Placed,
    evidence: &Evidence,
) -> Result<String, AllocError>
    ensures { IfOk result (λ text. string_bytes text
        ≡ sentence_text config.now start end rule here.now.place here.now.entry evidence.now) }
{
    let timing = &config.timing;
    match *evidence {
        Evidence::TooClose {
            earlier,
            distance,
            least,
        } => close_text(alloc, timing, rule, here, &earlier, distance, least),
        Evidence::TooCloseToStart {
            earlier,
            distance,
            least,
        } => start_text(alloc, rule, here, &earlier, distance, least),
        Evidence::Bank {
            group,
            bank,
            opened,
            changed,
        } => {
            let found = Found {
                group,
                bank,
                opened,
                changed,
            };
            state_text(alloc, rule, here, &found, timing)
        }
        Evidence::NotAbove { earlier } => not_above_text(alloc, here, &earlier),
        Evidence::BeforeStart => before_start_text(alloc, start, here),
        Evidence::NotBeforeEnd => not_before_end_text(alloc, end, here),
        Evidence::Outside {
            part,
            number,
            bound,
        } => outside_text(alloc, here, part, number, bound),
        Evidence::TooFar { earlier, distance } => far_text(alloc, timing, here, &earlier, distance),
        Evidence::Late { refreshes, due } => late_text(alloc, timing, start, here, refreshes, due),
    }
}

/// That the entry stands too close behind an earlier one.
#[tactic(auto, unfolding(crate::specs::Sentences::close_text))]
fn close_text(
    alloc: Global,
    timing: &Timing,
    rule: Rule,
    here: &Placed,
    earlier: &Placed,
    distance: u64,
    least: u32,
) -> Result<String, AllocError>
    ensures { IfOk result (λ text. string_bytes text
        ≡ close_text timing.now rule here.now.place here.now.entry earlier.now distance least) }
{
    let at = at_text(alloc, here)?;
    let clocks = clocks_text(alloc, distance)?;
    let before = at_text(alloc, earlier)?;
    let aside = aside_of(rule);
    let label = label_of(rule);
    let limit = limit_text(
        alloc,
        rule,
        &earlier.entry.command,
        &here.entry.command,
        timing,
    )?;
    format!(in alloc; "{at} is {clocks} behind {before}{aside}: {label} wants {limit} = {least}\n")
}

/// What the earlier one is beside its name.
fn aside_of(rule: Rule) -> &'static str
    ensures { result.now ≡ aside_of rule }
{
    match rule {
        Rule::Faw => ", the fourth ACT before it",
        _ => "",
    }
}

/// That the entry stands too close behind the start of an auto-precharge.
#[tactic(auto, unfolding(crate::specs::Sentences::start_text))]
fn start_text(
    alloc: Global,
    rule: Rule,
    here: &Placed,
    earlier: &Placed,
    distance: u64,
    least: u32,
) -> Result<String, AllocError>
    ensures { IfOk result (λ text. string_bytes text
        ≡ start_text rule here.now.place here.now.entry earlier.now distance least) }
{
    let at = at_text(alloc, here)?;
    let clocks = clocks_text(alloc, distance)?;
    let before = at_text(alloc, earlier)?;
    let label = label_of(rule);
    format!(in alloc;
        "{at} is {clocks} behind the start of the auto-precharge of {before}: {label} wants rp = {least}\n"
    )
}

/// That the entry does not stand behind the one before.
#[tactic(auto, unfolding(crate::specs::Sentences::not_above_text))]
fn not_above_text(alloc: Global, here: &Placed, earlier: &Placed) -> Result<String, AllocError>
    ensures { IfOk result (λ text. string_bytes text ≡ not_above_text here.now.place here.now.entry earlier.now) }
{
    let at = at_text(alloc, here)?;
    let before = at_text(alloc, earlier)?;
    format!(in alloc; "{at} is not behind {before}: ORDER wants rising cycles\n")
}

/// That the entry stands before the trace's start.
#[tactic(auto, unfolding(crate::specs::Sentences::before_start_text))]
fn before_start_text(alloc: Global, start: u64, here: &Placed) -> Result<String, AllocError>
    ensures { IfOk result (λ text. string_bytes text ≡ before_start_text start here.now.place here.now.entry) }
{
    let at = at_text(alloc, here)?;
    format!(in alloc; "{at} is before the start: ORDER wants cycle {start} or a later one\n")
}

/// That the entry does not stand before the trace's end.
#[tactic(auto, unfolding(crate::specs::Sentences::not_before_end_text))]
fn not_before_end_text(alloc: Global, end: u64, here: &Placed) -> Result<String, AllocError>
    ensures { IfOk result (λ text. string_bytes text ≡ not_before_end_text end here.now.place here.now.entry) }
{
    let at = at_text(alloc, here)?;
    format!(in alloc; "{at} is not before the end: ORDER wants a cycle below {end}\n")
}

/// That a number of the command is not below its bound.
#[tactic(auto, unfolding(crate::specs::Sentences::outside_text))]
fn outside_text(
    alloc: Global,
    here: &Placed,
    part: Part,
    number: u32,
    bound: u32,
) -> Result<String, AllocError>
    ensures { IfOk result (λ text. string_bytes text ≡ outside_text here.now.place here.now.entry part number bound) }
{
    let at = at_text(alloc, here)?;
    let name = part_name(part);
    let number = in_text_of(part, number);
    let bounding = bound_name(part);
    let bound = in_text_of(part, bound);
    format!(in alloc;
        "{at} has {name} {number}: PLACE (addressing) wants it below {bounding} = {bound}\n"
    )
}

/// The field of a trace's text.
fn part_name(part: Part) -> &'static str
    ensures { result.now ≡ part_name part }
{
    match part {
        Part::Rank => "rank",
        Part::Group => "group",
        Part::Bank => "bank",
        Part::Row => "row",
        Part::Line => "col",
    }
}

/// What bounds the field.
fn bound_name(part: Part) -> &'static str
    ensures { result.now ≡ bound_name part }
{
    match part {
        Part::Rank => "ranks",
        Part::Group => "groups",
        Part::Bank => "the banks of a group",
        Part::Row => "rows",
        Part::Line => "columns",
    }
}

/// A number as the field has it: a line by its first column.
fn in_text_of(part: Part, number: u32) -> u64
    ensures { result ≡ in_text_of part number }
{
    match part {
        Part::Line => u64::from(LINE_COLUMNS) * u64::from(number),
        _ => u64::from(number),
    }
}

/// That a REF stands too far behind the one before.
#[tactic(auto, unfolding(crate::specs::Sentences::far_text))]
fn far_text(
    alloc: Global,
    timing: &Timing,
    here: &Placed,
    earlier: &Placed,
    distance: u64,
) -> Result<String, AllocError>
    ensures { IfOk result (λ text. string_bytes text ≡ far_text timing.now here.now.place here.now.entry earlier.now distance) }
{
    let at = at_text(alloc, here)?;
    let clocks = clocks_text(alloc, distance)?;
    let before = at_text(alloc, earlier)?;
    let refi = timing.refi;
    let most = 9 * u64::from(refi);
    format!(in alloc;
        "{at} is {clocks} behind {before}, the REF of its rank before it: REF_GAP (tREFI) wants at most 9 * refi = 9 * {refi} = {most}\n"
    )
}

/// That a REF comes behind its deadline.
#[tactic(auto, unfolding(crate::specs::Sentences::late_text))]
fn late_text(
    alloc: Global,
    timing: &Timing,
    start: u64,
    here: &Placed,
    refreshes: usize,
    due: u64,
) -> Result<String, AllocError>
    ensures { IfOk result (λ text. string_bytes text ≡ late_text timing.now start here.now.place here.now.entry refreshes due) }
{
    let at = at_text(alloc, here)?;
    let rank = here.entry.command.rank();
    let why = due_text(alloc, timing, start, rank, refreshes, due)?;
    format!(in alloc; "{at}{why}")
}

/// The sentence of a trace whose end comes behind the deadline of the rank's next REF, with its line feed.
#[tactic(auto, unfolding(crate::specs::Sentences::end_late_text))]
pub fn end_sentence(
    alloc: Global,
    entries: &[Entry],
    timing: &Timing,
    start: u64,
    end: u64,
    late: (u32, usize, u64),
) -> Result<String, AllocError>
    ensures { IfOk result (λ text. string_bytes text
        ≡ end_late_text timing.now start end (length entries.now) late.0 late.1 late.2) }
{
    let (rank, refreshes, due) = late;
    let line = line_of(entries.len());
    let why = due_text(alloc, timing, start, rank, refreshes, due)?;
    format!(in alloc; "END at cycle {end} (line {line}){why}")
}

/// That what is told comes behind the deadline of the rank's next REF.
#[tactic(auto, unfolding(crate::specs::Sentences::due_text))]
fn due_text(
    alloc: Global,
    timing: &Timing,
    start: u64,
    rank: u32,
    refreshes: usize,
    due: u64,
) -> Result<String, AllocError>
    ensures { IfOk result (λ text. string_bytes text ≡ due_text timing.now start rank refreshes due) }
{
    let refi = timing.refi;
    format!(in alloc;
        " comes behind {refreshes} REFs of rank {rank}: REF_LATE (tREFI) wants it by cycle start + (REFs + 9) * refi = {start} + ({refreshes} + 9) * {refi} = {due}\n"
    )
}
