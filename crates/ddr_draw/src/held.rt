//! What a command waited for: a rule, and what it counts from.
//!
//! `names` and `ddr_trace` stand below, and `pairs`, `starts` and `told` above.
ghost use Rattle.std.specs.Prelude.{◌≡◌};
ghost use Rattle.ddr_draw.specs.Held.{allowed, later_of};

use crate::names::after;
use ddr_trace::command::Entry;
use ddr_trace::rule::Rule;

/// How many of the commands before it a command may be told to have waited for.
pub const MOST_BACK: usize = 256;

/// A rule on a distance, with the earlier command from which it counts.
#[derive(Clone, Copy, Debug)]
pub struct Held {
    pub rule: Rule,
    /// The place of the earlier command in its trace.
    pub place: usize,
    pub earlier: Entry,
    /// The cycle from which the rule counts: that of the earlier command, or the one in which its auto-precharge starts.
    pub since: u64,
    /// The clocks that the rule asks for.
    pub least: u32,
}

/// What allows later, the second where both allow in one cycle.
pub(crate) fn later_of(best: Option<Held>, held: Held) -> Option<Held>
    ensures { result ≡ later_of best held }
{
    match best {
        Some(best) if allowed(&held) < allowed(&best) => Some(best),
        _ => Some(held),
    }
}

/// The first cycle in which the rule allows the later command.
fn allowed(held: &Held) -> u64
    ensures { result ≡ allowed held.now }
{
    after(held.since, held.least)
}
