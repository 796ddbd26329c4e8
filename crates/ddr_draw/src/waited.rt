//! What a command waited for: of the rules on distances the one that allowed it last.
//!
//! `pairs` and `starts` stand below, and `boxes` and `kept_boxes` above.
ghost use Rattle.std.specs.Prelude.{◌≡◌, ◌<◌, ◌+◌, ◌^◌, length};
ghost use Rattle.ddr_draw.specs.Held.{held_by};
ghost use Rattle.ddr_draw.specs.Sketch.{held_among};

use crate::held::{Held, MOST_BACK};
use crate::pairs::wait_from;
use crate::starts::wait_of_starts;
use ddr_timing::config::Config;
use ddr_trace::command::Entry;

/// What the entry waited for, by the last `MOST_BACK` entries of its history: the one from which a rule on a distance allows the
/// entry last.
#[tactic(auto, unfolding(crate::specs::Held::held_by, crate::specs::Sketch::held_among))]
pub(crate) fn held_by(config: &Config, history: &[Entry], entry: &Entry) -> Option<Held>
    ensures { result ≡ held_by config.now history.now entry.now }
{
    let first = history.len().saturating_sub(MOST_BACK);
    held_among(config, first, &history[first..], entry)
}

/// What the entry waited for, by these entries before it, the first of which stands at the place.
#[tactic(auto, unfolding(crate::specs::Sketch::held_among))]
pub(crate) fn held_among(
    config: &Config,
    first: usize,
    recent: &[Entry],
    entry: &Entry,
) -> Option<Held>
    requires { first + length recent.now < 2 ^ 63 }
    ensures { result ≡ held_among config.now first recent.now entry.now }
{
    let best = wait_from(&config.timing, entry, first, recent);
    wait_of_starts(config, first, recent, &entry.command, best)
}
