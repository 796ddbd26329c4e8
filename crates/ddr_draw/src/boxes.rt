//! The commands in a picture of lanes: a box for each on the command bus, and one in the lane of its bank or over all those of its
//! rank.
//!
//! `waited`, `told`, `scale`, `colours` and `shapes` stand below, and `lanes` and `kept_boxes` above.
ghost use Rattle.std.specs.Prelude.{◌≡◌, ◌<◌, ◌^◌, ◌&&◌, IfOk, string_bytes};
ghost use Rattle.ddr_trace.specs.Rules.{is_in};
ghost use Rattle.ddr_draw.specs.Lanes.{bank_box, bank_shape, box_height, bus_box, bus_shape, busy_until, column_text, command_at, commands, is_of_rank, lasts, place_text, title};
ghost use Rattle.ddr_draw.specs.Names.{after};
ghost use Rattle.ddr_draw.specs.Scale.{is_seen};
ghost use Rattle.ddr_draw.specs.Sketch.{box_by, has_box, title_by};

use crate::colours::fill_of;
use crate::held::Held;
use crate::names::{after, bank_name};
use crate::scale::{CLOCK_WIDTH, COMMAND_LANE, LANE_HEIGHT, lane_top, top_of};
use crate::shapes::{area, label, rectangle};
use crate::told::{at_text, held_text};
use crate::view::View;
use crate::waited::held_by;
use ddr_timing::config::Config;
use ddr_timing::geometry::Geometry;
use ddr_timing::timing::Timing;
use ddr_timing::units::LINE_COLUMNS;
use ddr_trace::command::{Command, Entry};
use std::alloc::{AllocError, Global};

/// The boxes of all commands in the view.
pub(crate) fn commands(
    alloc: Global,
    config: &Config,
    view: &View,
    entries: &[Entry],
) -> Result<String, AllocError>
    ensures { IfOk result (λ text. string_bytes text ≡ commands config.now view.now entries.now) }
{
    let mut text = String::new(alloc);
    for place in 0..entries.len() {
        let entry = entries[place];
        let history = &entries[..place];
        let command = command_at(alloc, config, view, history, place, &entry)?;
        text.push_str(command.as_str())?;
    }
    Ok(text)
}

/// The boxes of the command at that place of the trace, as far as they are in the view: one on the command bus, and one in the lane
/// of its bank or over those of its rank.
#[tactic(auto, unfolding(crate::specs::Lanes::command_at, crate::specs::Lanes::bus_box, crate::specs::Lanes::bank_box))]
fn command_at(
    alloc: Global,
    config: &Config,
    view: &View,
    history: &[Entry],
    place: usize,
    entry: &Entry,
) -> Result<String, AllocError>
    ensures { IfOk result (λ text. string_bytes text ≡ command_at config.now view.now history.now place entry.now) }
{
    if !has_box(config, view, entry) {
        return Ok(String::new(alloc));
    }
    let title = title(alloc, config, history, place, entry)?;
    let bus = bus_box(alloc, view, entry, title.as_str())?;
    let bank = bank_box(alloc, config, view, entry, title.as_str())?;
    format!(in alloc; "{bus}{bank}")
}

/// The boxes of the command at that place, as far as they are in the view, where it is known what it waited for.
#[tactic(auto, unfolding(crate::specs::Sketch::box_by))]
pub(crate) fn box_by(
    alloc: Global,
    config: &Config,
    view: &View,
    place: usize,
    entry: &Entry,
    held: Option<Held>,
) -> Result<String, AllocError>
    ensures { IfOk result (λ text. string_bytes text ≡ box_by config.now view.now place entry.now held) }
{
    let title = title_by(alloc, place, entry, held)?;
    let bus = bus_box(alloc, view, entry, title.as_str())?;
    let bank = bank_box(alloc, config, view, entry, title.as_str())?;
    format!(in alloc; "{bus}{bank}")
}

/// Whether the command has a box in the view.
pub(crate) fn has_box(config: &Config, view: &View, entry: &Entry) -> bool
    ensures { result ≡ has_box config.now view.now entry.now }
{
    is_on_bus(view, entry) || is_in_bank(config, view, entry)
}

/// Whether the command's cycle is in the view.
fn is_on_bus(view: &View, entry: &Entry) -> bool
    ensures { result ≡ is_seen view.now entry.now.cycle (after entry.now.cycle 1) }
{
    view.is_seen(entry.cycle, after(entry.cycle, 1))
}

/// Whether the command is of this memory, and its bank or its rank is busy with it in the view.
fn is_in_bank(config: &Config, view: &View, entry: &Entry) -> bool
    ensures { result ≡ (is_in config.now.geometry entry.now.command && is_seen view.now entry.now.cycle (busy_until config.now.timing entry.now)) }
{
    entry.command.is_in(&config.geometry)
        && view.is_seen(entry.cycle, busy_until(&config.timing, entry))
}

/// The box of a command on the command bus, if it is in the view.
#[tactic(auto, unfolding(crate::specs::Lanes::bus_box))]
fn bus_box(alloc: Global, view: &View, entry: &Entry, title: &str) -> Result<String, AllocError>
    ensures { IfOk result (λ text. string_bytes text ≡ bus_box view.now entry.now title.now) }
{
    if !is_on_bus(view, entry) {
        return Ok(String::new(alloc));
    }
    bus_shape(alloc, view.x_of(entry.cycle), &entry.command, title)
}

/// The shape of that box, with the command's name.
#[tactic(auto, unfolding(crate::specs::Lanes::bus_shape))]
fn bus_shape(alloc: Global, x: u64, command: &Command, title: &str) -> Result<String, AllocError>
    requires { x < 2 ^ 40 }
    ensures { IfOk result (λ text. string_bytes text ≡ bus_shape x command.now title.now) }
{
    let y = lane_top(COMMAND_LANE);
    let area = area(alloc, x, y + 2, CLOCK_WIDTH, LANE_HEIGHT - 4)?;
    let shape = rectangle(alloc, area.as_str(), fill_of(command), title)?;
    let words = label(alloc, x + 1, y + 18, CLOCK_WIDTH, command.name())?;
    format!(in alloc; "{shape}{words}")
}

/// The box of a command in the lane of its bank or over those of its rank, if it is in the view.
#[tactic(auto, unfolding(crate::specs::Lanes::bank_box))]
fn bank_box(
    alloc: Global,
    config: &Config,
    view: &View,
    entry: &Entry,
    title: &str,
) -> Result<String, AllocError>
    ensures { IfOk result (λ text. string_bytes text ≡ bank_box config.now view.now entry.now title.now) }
{
    if !is_in_bank(config, view, entry) {
        return Ok(String::new(alloc));
    }
    let geometry = &config.geometry;
    let x = view.x_of(entry.cycle);
    let y = top_of(geometry, &entry.command);
    let width = view.width_of(entry.cycle, busy_until(&config.timing, entry));
    let height = box_height(geometry, &entry.command);
    bank_shape(alloc, x, y, width, height, &entry.command, title)
}

/// The shape of that box, with the command's name where it has room for it.
#[tactic(auto, unfolding(crate::specs::Lanes::bank_shape))]
fn bank_shape(
    alloc: Global,
    x: u64,
    y: u64,
    width: u64,
    height: u64,
    command: &Command,
    title: &str,
) -> Result<String, AllocError>
    requires right { x < 2 ^ 40 }
    requires low { y < 2 ^ 40 }
    ensures { IfOk result (λ text. string_bytes text ≡ bank_shape x y width height command.now title.now) }
{
    let area = area(alloc, x, y + 2, width, height)?;
    let shape = rectangle(alloc, area.as_str(), fill_of(command), title)?;
    let words = label(alloc, x + 1, y + 12, width, command.name())?;
    format!(in alloc; "{shape}{words}")
}

/// The first cycle in which the command's bank or its rank isn't busy with it any more.
fn busy_until(timing: &Timing, entry: &Entry) -> u64
    ensures { result ≡ busy_until timing.now entry.now }
{
    after(entry.cycle, lasts(timing, &entry.command))
}

/// The clocks for which a bank or a rank is busy with a command: RP with a precharge, RFC with a refresh.
fn lasts(timing: &Timing, command: &Command) -> u32
    ensures { result ≡ lasts timing.now command.now }
{
    match command {
        Command::Pre { .. } | Command::PreAll { .. } => timing.rp,
        Command::Refresh { .. } => timing.rfc,
        _ => 1,
    }
}

/// The height of a command's box: all the lanes of the rank for PREA and REF.
fn box_height(geometry: &Geometry, command: &Command) -> u64
    ensures { result ≡ box_height geometry.now command.now }
{
    if is_of_rank(command) {
        LANE_HEIGHT * u64::from(geometry.rank_banks()) - 4
    } else {
        13
    }
}

/// Whether the command is for a whole rank.
fn is_of_rank(command: &Command) -> bool
    ensures { result ≡ is_of_rank command.now }
{
    matches!(command, Command::PreAll { .. } | Command::Refresh { .. })
}

/// A command with its place, and what it waited for.
#[tactic(auto, unfolding(crate::specs::Lanes::title, crate::specs::Sketch::title_by))]
fn title(
    alloc: Global,
    config: &Config,
    history: &[Entry],
    place: usize,
    entry: &Entry,
) -> Result<String, AllocError>
    ensures { IfOk result (λ text. string_bytes text ≡ title config.now history.now place entry.now) }
{
    title_by(alloc, place, entry, held_by(config, history, entry))
}

/// A command with its place, and what it is known to have waited for.
#[tactic(auto, unfolding(crate::specs::Sketch::title_by))]
fn title_by(
    alloc: Global,
    place: usize,
    entry: &Entry,
    held: Option<Held>,
) -> Result<String, AllocError>
    ensures { IfOk result (λ text. string_bytes text ≡ title_by place entry.now held) }
{
    let command = at_text(alloc, place, entry)?;
    let words = place_text(alloc, &entry.command)?;
    let held = held_text(alloc, entry, held)?;
    format!(in alloc; "{command}: {words}{held}")
}

/// The place that a command is for.
#[tactic(auto, unfolding(crate::specs::Lanes::place_text))]
fn place_text(alloc: Global, command: &Command) -> Result<String, AllocError>
    ensures { IfOk result (λ text. string_bytes text ≡ place_text command.now) }
{
    match *command {
        Command::Act {
            rank,
            group,
            bank,
            row,
        } => {
            let bank = bank_name(alloc, rank, group, bank)?;
            format!(in alloc; "{bank}, row {row}")
        }
        Command::Rd {
            rank,
            group,
            bank,
            row,
            line,
        }
        | Command::Wr {
            rank,
            group,
            bank,
            row,
            line,
        }
        | Command::RdAuto {
            rank,
            group,
            bank,
            row,
            line,
        }
        | Command::WrAuto {
            rank,
            group,
            bank,
            row,
            line,
        } => {
            let bank = bank_name(alloc, rank, group, bank)?;
            column_text(alloc, bank.as_str(), row, line)
        }
        Command::Pre { rank, group, bank } => bank_name(alloc, rank, group, bank),
        Command::PreAll { rank } | Command::Refresh { rank } => { format!(in alloc; "rank {rank}") }
    }
}

/// The place of a read or a write.
#[tactic(auto, unfolding(crate::specs::Lanes::column_text))]
fn column_text(alloc: Global, bank: &str, row: u32, line: u32) -> Result<String, AllocError>
    ensures { IfOk result (λ text. string_bytes text ≡ column_text bank.now row line) }
{
    let column = u64::from(line) * u64::from(LINE_COLUMNS);
    format!(in alloc; "{bank}, row {row}, column {column}")
}
