//! The boxes of commands, while a trace is read: those in the view are kept.
//!
//! `boxes` and `waited` stand below, and `sketch` above.
ghost use Rattle.std.specs.Prelude.{◌≡◌, ◌<◌, ◌^◌, ◌∷◌, ◌++◌, IfOk, List, OnOk, length, string_bytes, true};
ghost use Rattle.ddr_trace.specs.declared.command.Entry.{Entry};
ghost use Rattle.ddr_draw.specs.declared.view.View as views;
ghost use Rattle.ddr_draw.specs.Lanes.{command_at};
ghost use Rattle.ddr_draw.specs.Sketch.{AreLast, IsWithin, are_boxes_kept, box_by, boxes_of};

use crate::boxes::{box_by, has_box};
use crate::held::{Held, MOST_BACK};
use crate::view::View;
use crate::waited::held_among;
use ddr_timing::config::Config;
use ddr_trace::command::Entry;
use std::alloc::{AllocError, Global};

/// A command that has a box, with its place in its trace and what it waited for.
#[derive(Clone, Copy, Debug)]
pub struct CommandBox {
    pub place: usize,
    pub entry: Entry,
    pub held: Option<Held>,
}

/// Keeps the box of the command behind so many, of which these were the last, if it is in the view.
pub(crate) fn add_box(
    config: &Config,
    view: &View,
    place: usize,
    recent: &[Entry],
    entry: &Entry,
    boxes: &mut Vec<CommandBox>,
) -> Result<(), AllocError>
    requires { place < 2 ^ 62 }
    ensures shown { OnOk result ((v : views.View) (entries : List Entry) → IsWithin v view.now → AreLast recent.now entries → place ≡ length entries
        → boxes_of config.now v boxes.new.items ≡ boxes_of config.now v boxes.old.items ++ command_at config.now v entries place entry.now) }
    ensures kept { OnOk result (are_boxes_kept config.now view.now boxes.old.items ≡ true → are_boxes_kept config.now view.now boxes.new.items ≡ true) }
{
    if !has_box(config, view, entry) {
        return Ok(());
    }
    let first = place.saturating_sub(MOST_BACK);
    let back = recent.len().saturating_sub(MOST_BACK);
    let held = held_among(config, first, &recent[back..], entry);
    boxes.push(CommandBox {
        place,
        entry: *entry,
        held,
    })?;
    Ok(())
}

/// The boxes.
pub(crate) fn boxes_of(
    alloc: Global,
    config: &Config,
    view: &View,
    boxes: &[CommandBox],
) -> Result<String, AllocError>
    ensures { IfOk result (λ text. string_bytes text ≡ boxes_of config.now view.now boxes.now) }
{
    let mut text = String::new(alloc);
    let mut rest = boxes;
    'boxes: while let Some((shown, others)) = rest.split_first() {
        let command = box_by(alloc, config, view, shown.place, &shown.entry, shown.held)?;
        text.push_str(command.as_str())?;
        rest = others;
    }
    Ok(text)
}
