//! What is told of a capture: a verdict on each channel.
//!
//! `form` and `ddr_judge` stand below, and `capture` above.
ghost use Rattle.std.specs.Prelude.{◌≡◌, ℕ, ◌+◌, ◌<◌, ◌≤◌, ◌^◌, IfOk, List, length, string_bytes};
ghost use Rattle.ddr_timing.specs.declared.config.Config.{Config};
ghost use Rattle.ddr_judge.specs.Judged.{HasJudged, channels_of, end_of};
ghost use Rattle.ddr_judge.specs.Records.{Record};
ghost use Rattle.ddr_capture.specs.Report.{AreVerdicts, are_legal, channel_text, channels_in, first_told, own_text, report, told_channels, verdict_line};

use crate::form::Form;
use ddr_judge::fault::Fault;
use ddr_judge::judge::Judge;
use ddr_text::command::Format;
use std::alloc::{AllocError, Global};

/// The first channel that is told.
pub(crate) fn first_told(form: Form) -> u32
    ensures { result ≡ first_told form }
{
    form.channel.unwrap_or(0)
}

/// How many channels are told, of so many.
pub(crate) fn told_channels(form: Form, channels: u32) -> u32
    ensures { result ≡ told_channels form channels }
{
    if form.channel.is_some() {
        return 1;
    }
    channels_in(form.format, channels)
}

/// How many channels a capture of all is of: this project's own form has one.
fn channels_in(format: Format, channels: u32) -> u32
    ensures { result ≡ channels_in format channels }
{
    match format {
        Format::Own => 1,
        Format::Dramsim3 | Format::Ramulator2 => channels,
    }
}

/// The verdicts on so many channels from this one on, in a trace that ends at `end`.
pub(crate) fn verdicts(
    alloc: Global,
    judge: &Judge,
    first: u32,
    channels: u32,
    end: u64,
) -> Result<Vec<Option<Fault>>, AllocError>
    requires there { first + channels ≤ channels_of judge.now }
    requires few { first + channels < 2 ^ 32 }
    requires behind { end_of judge.now ≤ end }
    ensures { IfOk result (λ v. (config : Config) (start : ℕ) (records : List Record) → HasJudged judge.now config start records
        → AreVerdicts config start end records first channels v.items) }
{
    let mut verdicts = Vec::new(alloc);
    for at in 0..channels {
        verdicts.push(judge.verdict(first + at, end))?;
    }
    Ok(verdicts)
}

/// Whether every channel is legal.
pub(crate) fn are_legal(verdicts: &[Option<Fault>]) -> bool
    ensures { result ≡ are_legal verdicts.now }
{
    verdicts.iter().all(|verdict| verdict.is_none())
}

/// A line for each verdict.
pub(crate) fn report(
    alloc: Global,
    form: Form,
    verdicts: &[Option<Fault>],
) -> Result<String, AllocError>
    ensures { IfOk result (λ text. string_bytes text ≡ report form verdicts.now) }
{
    let first = first_told(form) as usize;
    let mut text = String::new(alloc);
    for (at, verdict) in verdicts.iter().enumerate() {
        let line = verdict_line(alloc, form.format, first + at, *verdict)?;
        text.push_str(line.as_str())?;
    }
    Ok(text)
}

/// The line of a channel's verdict.
fn verdict_line(
    alloc: Global,
    format: Format,
    channel: usize,
    verdict: Option<Fault>,
) -> Result<String, AllocError>
    ensures { IfOk result (λ text. string_bytes text ≡ verdict_line format channel verdict) }
{
    match format {
        Format::Own => own_text(alloc, verdict),
        Format::Dramsim3 | Format::Ramulator2 => channel_text(alloc, channel, verdict),
    }
}

#[tactic(auto, unfolding(crate::specs::Report::own_text))]
fn own_text(alloc: Global, verdict: Option<Fault>) -> Result<String, AllocError>
    ensures { IfOk result (λ text. string_bytes text ≡ own_text verdict) }
{
    let Some(fault) = verdict else {
        return String::from_str(alloc, "legal\n");
    };
    let place = fault.place;
    let rule = fault.rule.name();
    format!(in alloc; "fault {place} {rule}\n")
}

#[tactic(auto, unfolding(crate::specs::Report::channel_text))]
fn channel_text(alloc: Global, channel: usize, verdict: Option<Fault>) -> Result<String, AllocError>
    ensures { IfOk result (λ text. string_bytes text ≡ channel_text channel verdict) }
{
    let Some(fault) = verdict else {
        return format!(in alloc; "channel {channel} legal\n");
    };
    let place = fault.place;
    let rule = fault.rule.name();
    match fault.line {
        Some(line) => format!(in alloc; "channel {channel} fault {place} {rule} line {line}\n"),
        None => format!(in alloc; "channel {channel} fault {place} {rule}\n"),
    }
}
