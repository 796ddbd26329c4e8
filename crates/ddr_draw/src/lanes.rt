//! A trace as a picture of lanes.
//!
//! `ground`, `bars` and `boxes` stand below, and `draw` above.
ghost use Rattle.std.specs.Prelude.{◌≡◌, IfOk, string_bytes};
ghost use Rattle.ddr_draw.specs.Lanes.{picture_text};

use crate::bars::bars;
use crate::boxes::commands;
use crate::ground::ground;
use crate::view::View;
use ddr_timing::config::Config;
use ddr_trace::command::Entry;
use std::alloc::{AllocError, Global};

/// The whole picture of these cycles of a trace.
#[tactic(auto, unfolding(crate::specs::Lanes::picture_text))]
pub(crate) fn picture_text(
    alloc: Global,
    config: &Config,
    view: &View,
    entries: &[Entry],
) -> Result<String, AllocError>
    ensures { IfOk result (λ text. string_bytes text ≡ picture_text config.now view.now entries.now) }
{
    let ground = ground(alloc, &config.geometry, view)?;
    let bars = bars(alloc, config, view, entries)?;
    let commands = commands(alloc, config, view, entries)?;
    format!(in alloc; "{ground}{bars}{commands}</svg>\n")
}
