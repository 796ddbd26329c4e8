//! A picture of a trace of any length: of the commands read so far what the cycles asked for show of them.
//!
//! `kept_bars`, `kept_boxes` and `ground` stand below, and `part` above.
ghost use Rattle.std.specs.Prelude.{◌≡◌, ◌<◌, ◌≤◌, ◌+◌, ◌-◌, ◌^◌, ◌∷◌, ◌++◌, [], IfOk, List, OnOk, drop, length, string_bytes};
ghost use Rattle.ddr_timing.specs.declared.config.Config.{Config};
ghost use Rattle.ddr_trace.specs.declared.command.Entry.{Entry};
ghost use Rattle.ddr_draw.specs.Sketch.{AreLast, IsSmall, Shows, sketch_text};

use crate::ground::ground;
use crate::held::MOST_BACK;
use crate::kept_bars::{Bar, add_bar, bars_alone, end_bars};
use crate::kept_boxes::{CommandBox, add_box, boxes_of};
use crate::view::View;
use ddr_timing::config::Config;
use ddr_trace::command::Entry;
use std::alloc::{AllocError, Global};

/// The most commands that are kept for the waits of the next ones: twice those that are looked at.
const MOST_RECENT: usize = 512;

/// What is kept of the commands of a trace.
#[derive(Drop)]
pub(crate) struct Sketch {
    /// The cycles that are asked for, as if the trace had no end.
    view: View,
    /// How many commands there were.
    count: usize,
    /// The last of them: all, or `MOST_BACK` and more.
    recent: Vec<Entry>,
    /// The open rows, and the rows and bursts in the view.
    bars: Vec<Bar>,
    /// The commands in the view.
    boxes: Vec<CommandBox>,
}

impl Sketch {
    /// A sketch of no commands, for these cycles.
    pub(crate) fn new(alloc: Global, view: View) -> Sketch
        ensures view { result.view ≡ view }
        ensures count { result.count ≡ 0 }
        ensures none { (config : Config) → Shows config result [] }
        ensures small { (config : Config) → IsSmall config result }
    {
        Sketch {
            view,
            count: 0,
            recent: Vec::new(alloc),
            bars: Vec::new(alloc),
            boxes: Vec::new(alloc),
        }
    }

    /// Takes the next command.
    pub(crate) fn take(
        &mut self,
        alloc: Global,
        config: &Config,
        entry: &Entry,
    ) -> Result<(), AllocError>
        requires { self.old.count < 2 ^ 62 }
        ensures view { OnOk result (self.new.view ≡ self.old.view) }
        ensures count { OnOk result (self.new.count ≡ self.old.count + 1) }
        ensures shows { OnOk result ((entries : List Entry) → Shows config.now self.old entries → Shows config.now self.new (entries ++ entry.now ∷ [])) }
        ensures small { OnOk result (IsSmall config.now self.old → IsSmall config.now self.new) }
    {
        let recent = self.recent.as_slice();
        add_box(
            config,
            &self.view,
            self.count,
            recent,
            entry,
            &mut self.boxes,
        )?;
        end_bars(alloc, config, &self.view, entry, &mut self.bars)?;
        add_bar(config, &self.view, entry, &mut self.bars)?;
        remember(&mut self.recent, entry)?;
        self.count += 1;
        Ok(())
    }

    /// The picture of these cycles of the commands so far, if they are among those of the sketch.
    #[tactic(auto, unfolding(crate::specs::Sketch::sketch_text))]
    pub(crate) fn picture_text(
        &self,
        alloc: Global,
        config: &Config,
        view: &View,
    ) -> Result<String, AllocError>
        ensures { IfOk result (λ text. string_bytes text ≡ sketch_text config.now view.now self.now) }
    {
        let ground = ground(alloc, &config.geometry, view)?;
        let bars = bars_alone(alloc, config, view, self.bars.as_slice())?;
        let boxes = boxes_of(alloc, config, view, self.boxes.as_slice())?;
        format!(in alloc; "{ground}{bars}{boxes}</svg>\n")
    }
}

/// Keeps a command as the last one.
fn remember(recent: &mut Vec<Entry>, entry: &Entry) -> Result<(), AllocError>
    ensures last { OnOk result ((entries : List Entry) → AreLast recent.old.items entries → AreLast recent.new.items (entries ++ entry.now ∷ [])) }
    ensures few { OnOk result (length recent.old.items ≤ MOST_RECENT → length recent.new.items ≤ MOST_RECENT) }
{
    shorten(recent);
    recent.push(*entry)?;
    Ok(())
}

/// Lets go the commands before the `MOST_BACK` that are looked at, once there are as many of them.
fn shorten(recent: &mut Vec<Entry>)
    ensures last { (entries : List Entry) → AreLast recent.old.items entries → AreLast recent.new.items entries }
    ensures few { length recent.old.items ≤ MOST_RECENT → length recent.new.items < MOST_RECENT }
{
    if recent.len() >= MOST_RECENT {
        keep_last(recent, MOST_BACK);
    }
}

/// Lets go all but the last so many.
fn keep_last(recent: &mut Vec<Entry>, count: usize)
    requires { count ≤ length recent.old.items }
    ensures { recent.new.items ≡ drop (length recent.old.items - count) recent.old.items }
{
    let first = recent.len() - count;
    recent.copy_within(first.., 0);
    recent.truncate(count);
}
