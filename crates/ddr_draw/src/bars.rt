//! The bars of a picture of lanes: open rows in the lanes of their banks, and bursts in that of the data bus.
//!
//! `period`, `scale`, `colours` and `shapes` stand below, and `lanes` and `kept_bars` above.
ghost use Rattle.std.specs.Prelude.{◌≡◌, ◌<◌, ◌^◌, IfOk, string_bytes, true};
ghost use Rattle.ddr_trace.specs.Rules.{is_in};
ghost use Rattle.ddr_draw.specs.Lanes.{bars, burst, burst_shape, burst_title, open_row, row_bar, row_name, row_shape, row_title, way};

use crate::colours::{OPEN_ROW, fill_of};
use crate::names::name_of_bank;
use crate::period::{burst_start, burst_until, closed_at};
use crate::scale::{DATA_LANE, LANE_HEIGHT, lane_top, top_of};
use crate::shapes::{area, label, rectangle};
use crate::view::View;
use ddr_timing::config::Config;
use ddr_timing::timing::Timing;
use ddr_trace::command::{Command, Entry};
use std::alloc::{AllocError, Global};

/// The bars of all entries.
pub(crate) fn bars(
    alloc: Global,
    config: &Config,
    view: &View,
    entries: &[Entry],
) -> Result<String, AllocError>
    ensures { IfOk result (λ text. string_bytes text ≡ bars config.now view.now entries.now) }
{
    let mut text = String::new(alloc);
    let mut rest = entries;
    'entries: while let Some((entry, later)) = rest.split_first() {
        let row = open_row(alloc, config, view, entry, later)?;
        text.push_str(row.as_str())?;
        let burst = burst(alloc, &config.timing, view, entry, later)?;
        text.push_str(burst.as_str())?;
        rest = later;
    }
    Ok(text)
}

/// The bar of the row that an ACT opens, from its cycle until the row is closed, or to the view's end.
#[tactic(auto, unfolding(crate::specs::Lanes::open_row))]
fn open_row(
    alloc: Global,
    config: &Config,
    view: &View,
    entry: &Entry,
    later: &[Entry],
) -> Result<String, AllocError>
    ensures { IfOk result (λ text. string_bytes text ≡ open_row config.now view.now entry.now later.now) }
{
    if !(entry.command.is_activate() && entry.command.is_in(&config.geometry)) {
        return Ok(String::new(alloc));
    }
    let closed = closed_at(&config.timing, entry, later).unwrap_or(view.to);
    row_bar(alloc, config, view, entry, closed)
}

/// The bar of a row that is open from the ACT on, up to that cycle, as far as it is in the view.
#[tactic(auto, unfolding(crate::specs::Lanes::row_bar))]
pub(crate) fn row_bar(
    alloc: Global,
    config: &Config,
    view: &View,
    entry: &Entry,
    closed: u64,
) -> Result<String, AllocError>
    requires { is_in config.now.geometry entry.now.command ≡ true }
    ensures { IfOk result (λ text. string_bytes text ≡ row_bar config.now view.now entry.now closed) }
{
    if !view.is_seen(entry.cycle, closed) {
        return Ok(String::new(alloc));
    }
    let x = view.x_of(entry.cycle);
    let y = top_of(&config.geometry, &entry.command);
    let width = view.width_of(entry.cycle, closed);
    row_shape(alloc, x, y, width, &entry.command)
}

/// The shape of that bar, with its row's name where it has room for that, below the boxes of the bank's commands.
#[tactic(auto, unfolding(crate::specs::Lanes::row_shape))]
fn row_shape(
    alloc: Global,
    x: u64,
    y: u64,
    width: u64,
    command: &Command,
) -> Result<String, AllocError>
    requires right { x < 2 ^ 40 }
    requires low { y < 2 ^ 40 }
    ensures { IfOk result (λ text. string_bytes text ≡ row_shape x y width command.now) }
{
    let area = area(alloc, x, y + 2, width, LANE_HEIGHT - 4)?;
    let title = row_title(alloc, command)?;
    let bar = rectangle(alloc, area.as_str(), OPEN_ROW, title.as_str())?;
    let name = row_name(alloc, command)?;
    let words = label(alloc, x + 1, y + 25, width, name.as_str())?;
    format!(in alloc; "{bar}{words}")
}

/// The name of the row.
#[tactic(auto, unfolding(crate::specs::Lanes::row_name))]
fn row_name(alloc: Global, command: &Command) -> Result<String, AllocError>
    ensures { IfOk result (λ text. string_bytes text ≡ row_name command.now) }
{
    let row = command.row();
    format!(in alloc; "row {row}")
}

/// The name of the row and of its bank.
#[tactic(auto, unfolding(crate::specs::Lanes::row_title))]
fn row_title(alloc: Global, command: &Command) -> Result<String, AllocError>
    ensures { IfOk result (λ text. string_bytes text ≡ row_title command.now) }
{
    let row = row_name(alloc, command)?;
    let bank = name_of_bank(alloc, command)?;
    format!(in alloc; "{row} of {bank}")
}

/// The burst of a read or a write, as far as it is in the view, and up to where the next one begins.
#[tactic(auto, unfolding(crate::specs::Lanes::burst))]
fn burst(
    alloc: Global,
    timing: &Timing,
    view: &View,
    entry: &Entry,
    later: &[Entry],
) -> Result<String, AllocError>
    ensures { IfOk result (λ text. string_bytes text ≡ burst timing.now view.now entry.now later.now) }
{
    let start = burst_start(timing, entry);
    let end = burst_until(timing, entry, later);
    if !(entry.command.is_column() && view.is_seen(start, end)) {
        return Ok(String::new(alloc));
    }
    burst_shape(
        alloc,
        view.x_of(start),
        view.width_of(start, end),
        &entry.command,
    )
}

/// The shape of a burst, with which way the data go, and the bank, as far as it has room for them.
#[tactic(auto, unfolding(crate::specs::Lanes::burst_shape))]
pub(crate) fn burst_shape(
    alloc: Global,
    x: u64,
    width: u64,
    command: &Command,
) -> Result<String, AllocError>
    requires { x < 2 ^ 40 }
    ensures { IfOk result (λ text. string_bytes text ≡ burst_shape x width command.now) }
{
    let y = lane_top(DATA_LANE);
    let area = area(alloc, x, y + 2, width, LANE_HEIGHT - 4)?;
    let title = burst_title(alloc, command)?;
    let bar = rectangle(alloc, area.as_str(), fill_of(command), title.as_str())?;
    let way = label(alloc, x + 1, y + 12, width, way(command))?;
    let bank = name_of_bank(alloc, command)?;
    let bank = label(alloc, x + 1, y + 25, width, bank.as_str())?;
    format!(in alloc; "{bar}{way}{bank}")
}

/// Which way the data go.
fn way(command: &Command) -> &'static str
    ensures { result.now ≡ way command.now }
{
    if command.is_read() { "RD" } else { "WR" }
}

/// Which way the data go, and the bank.
#[tactic(auto, unfolding(crate::specs::Lanes::burst_title))]
fn burst_title(alloc: Global, command: &Command) -> Result<String, AllocError>
    ensures { IfOk result (λ text. string_bytes text ≡ burst_title command.now) }
{
    let way = way(command);
    let bank = name_of_bank(alloc, command)?;
    format!(in alloc; "{way} {bank}")
}
