//! The bars of commands, while a trace is read: each is kept until it can't be in the picture any more.
//!
//! `bars`, `period` and `scale` stand below, and `sketch` above.
ghost use Rattle.std.specs.Prelude.{◌≡◌, ◌∷◌, ◌++◌, IfOk, List, OnOk, string_bytes, true};
ghost use Rattle.std.specs.List.{list_any};
ghost use Rattle.ddr_trace.specs.declared.command.Entry.{Entry};
ghost use Rattle.ddr_draw.specs.declared.view.View as views;
ghost use Rattle.ddr_draw.specs.Sketch.{IsWithin, are_bars_kept, bar_by, bars_alone, bars_before, behind, burst_by, is_ended_by, is_ending, is_gone, may_have_bar, next_ending, row_by};

use crate::bars::{burst_shape, row_bar};
use crate::period::{burst_end, burst_start, burst_until_next, closed_by, is_closing};
use crate::view::View;
use ddr_timing::config::Config;
use ddr_timing::timing::Timing;
use ddr_trace::command::Entry;
use std::alloc::{AllocError, Global};

/// A command that begins a bar, with the one that ends it, once that is known: what closes a row, or the next read or write.
#[derive(Clone, Copy, Debug)]
pub struct Bar {
    pub entry: Entry,
    pub next: Option<Entry>,
}

/// Ends the bars that the command ends, and lets go those that aren't in the view then.
pub(crate) fn end_bars(
    alloc: Global,
    config: &Config,
    view: &View,
    entry: &Entry,
    bars: &mut Vec<Bar>,
) -> Result<(), AllocError>
    ensures shown { OnOk result ((v : views.View) (later : List Entry) → IsWithin v view.now
        → bars_before config.now v bars.new.items later ≡ bars_before config.now v bars.old.items (entry.now ∷ later)) }
    ensures kept { OnOk result (are_bars_kept config.now view.now bars.old.items ≡ true → are_bars_kept config.now view.now bars.new.items ≡ true) }
{
    if is_any_ended(bars.as_slice(), entry) {
        *bars = ended(alloc, config, view, entry, bars.as_slice())?;
    }
    Ok(())
}

/// Whether the command ends some of the bars.
fn is_any_ended(bars: &[Bar], entry: &Entry) -> bool
    ensures { result ≡ list_any (λ bar. is_ended_by bar.entry bar.next entry.now) bars.now }
{
    bars.iter().any(|bar| is_ended_by(bar, entry))
}

/// The bars behind the command.
fn ended(
    alloc: Global,
    config: &Config,
    view: &View,
    entry: &Entry,
    bars: &[Bar],
) -> Result<Vec<Bar>, AllocError>
    ensures shown { IfOk result (λ kept. (v : views.View) (later : List Entry) → IsWithin v view.now
        → bars_before config.now v kept.items later ≡ bars_before config.now v bars.now (entry.now ∷ later)) }
    ensures kept { IfOk result (λ kept. are_bars_kept config.now view.now bars.now ≡ true → are_bars_kept config.now view.now kept.items ≡ true) }
{
    let mut kept = Vec::new(alloc);
    let mut rest = bars;
    'bars: while let Some((bar, others)) = rest.split_first() {
        let bar = behind(bar, entry);
        if !is_gone(config, view, &bar) {
            kept.push(bar)?;
        }
        rest = others;
    }
    Ok(kept)
}

/// The bar behind the command.
fn behind(bar: &Bar, entry: &Entry) -> Bar
    ensures { result ≡ behind bar.now entry.now }
{
    let next = if is_ended_by(bar, entry) {
        Some(*entry)
    } else {
        bar.next
    };
    Bar {
        entry: bar.entry,
        next,
    }
}

/// Whether the bar has no end so far, and the command ends it.
fn is_ended_by(bar: &Bar, entry: &Entry) -> bool
    ensures { result ≡ is_ended_by bar.now.entry bar.now.next entry.now }
{
    bar.next.is_none() && is_ending(&bar.entry, entry)
}

/// Whether a later command ends the bar of the one: it closes the row, or is a read or a write behind one.
fn is_ending(entry: &Entry, later: &Entry) -> bool
    ensures { result ≡ is_ending entry.now later.now }
{
    if entry.command.is_activate() {
        is_closing(&entry.command, &later.command)
    } else {
        later.command.is_column()
    }
}

/// Whether the row is closed, and none of it in the view.
fn is_gone(config: &Config, view: &View, bar: &Bar) -> bool
    ensures { result ≡ is_gone config.now view.now bar.now.entry bar.now.next }
{
    match bar.next {
        Some(next) => {
            bar.entry.command.is_activate()
                && !view.is_seen(
                    bar.entry.cycle,
                    closed_by(&config.timing, &bar.entry, &next),
                )
        }
        None => false,
    }
}

/// Keeps the bar of a command, if it may be in the view.
pub(crate) fn add_bar(
    config: &Config,
    view: &View,
    entry: &Entry,
    bars: &mut Vec<Bar>,
) -> Result<(), AllocError>
    ensures shown { OnOk result ((v : views.View) (later : List Entry) → IsWithin v view.now
        → bars_before config.now v bars.new.items later ≡ bars_before config.now v bars.old.items later ++ bar_by config.now v entry.now (next_ending entry.now later)) }
    ensures kept { OnOk result (are_bars_kept config.now view.now bars.old.items ≡ true → are_bars_kept config.now view.now bars.new.items ≡ true) }
{
    if !may_have_bar(config, view, entry) {
        return Ok(());
    }
    bars.push(Bar {
        entry: *entry,
        next: None,
    })?;
    Ok(())
}

/// Whether the command may have a bar in the view.
fn may_have_bar(config: &Config, view: &View, entry: &Entry) -> bool
    ensures { result ≡ may_have_bar config.now view.now entry.now }
{
    let timing = &config.timing;
    let command = &entry.command;
    command.is_activate() && command.is_in(&config.geometry) && view.is_seen(entry.cycle, view.to)
        || command.is_column() && view.is_seen(burst_start(timing, entry), burst_end(timing, entry))
}

/// The bars, where no command comes behind them.
#[tactic(auto, unfolding(crate::specs::Sketch::bar_by))]
pub(crate) fn bars_alone(
    alloc: Global,
    config: &Config,
    view: &View,
    bars: &[Bar],
) -> Result<String, AllocError>
    ensures { IfOk result (λ text. string_bytes text ≡ bars_alone config.now view.now bars.now) }
{
    let mut text = String::new(alloc);
    let mut rest = bars;
    'bars: while let Some((bar, others)) = rest.split_first() {
        let row = row_by(alloc, config, view, bar)?;
        text.push_str(row.as_str())?;
        let burst = burst_by(alloc, &config.timing, view, bar)?;
        text.push_str(burst.as_str())?;
        rest = others;
    }
    Ok(text)
}

/// The bar of the row that an ACT opens.
fn row_by(alloc: Global, config: &Config, view: &View, bar: &Bar) -> Result<String, AllocError>
    ensures { IfOk result (λ text. string_bytes text ≡ row_by config.now view.now bar.now.entry bar.now.next) }
{
    let entry = &bar.entry;
    if !(entry.command.is_activate() && entry.command.is_in(&config.geometry)) {
        return Ok(String::new(alloc));
    }
    let closed = match bar.next {
        Some(next) => closed_by(&config.timing, entry, &next),
        None => view.to,
    };
    row_bar(alloc, config, view, entry, closed)
}

/// The burst of a read or a write.
fn burst_by(alloc: Global, timing: &Timing, view: &View, bar: &Bar) -> Result<String, AllocError>
    ensures { IfOk result (λ text. string_bytes text ≡ burst_by timing.now view.now bar.now.entry bar.now.next) }
{
    let entry = &bar.entry;
    let start = burst_start(timing, entry);
    let end = burst_until_next(timing, entry, bar.next);
    if !(entry.command.is_column() && view.is_seen(start, end)) {
        return Ok(String::new(alloc));
    }
    burst_shape(
        alloc,
        view.x_of(start),
        view.width_of(start, end),
        &entry.command,
    )
}
