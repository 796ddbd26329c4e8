//! The REFs of a rank so far, as much as the two rules on refresh ask of them.
ghost use Rattle.std.specs.Prelude.{◌≡◌, ℕ, ◌+◌, ◌*◌, nat_lt, List, [], ◌∷◌, ◌++◌};
ghost use Rattle.ddr_trace.specs.declared.command.Command.TheVariants.{Refresh};
ghost use Rattle.ddr_trace.specs.declared.command.Entry.{Entry};
ghost use Rattle.ddr_trace.specs.Commands.{rank_of};
ghost use Rattle.ddr_trace.specs.Rules.{refresh_count};
ghost use Rattle.ddr_legality.specs.Refreshes.{HasCounted, breaks_gap, refresh_broken};

use ddr_timing::timing::Timing;
use ddr_trace::command::Entry;
use ddr_trace::refresh::{is_gap_too_long, is_overdue};
use ddr_trace::rule::Rule;

/// How many REFs of a rank there were, and the cycle of the last one. The number stops at the last one that a `usize` holds,
/// behind which no REF is ever late.
#[derive(Clone, Copy)]
pub(crate) struct Refreshes {
    count: usize,
    last: Option<u64>,
}

impl Refreshes {
    /// No REF yet.
    pub const NONE: Refreshes = Refreshes {
        count: 0,
        last: None,
    };

    /// The rule on refresh that an entry of the rank would break.
    pub fn broken_by(&self, entry: &Entry, timing: &Timing, start: u64) -> Option<Rule>
        ensures { (history : List Entry) → HasCounted (rank_of entry.now.command) self.now history
            → result ≡ refresh_broken timing.now start history entry.now }
    {
        if !entry.command.is_refresh() {
            return None;
        }
        if is_overdue(self.count, timing, start, entry.cycle) {
            return Some(Rule::RefLate);
        }
        if self.is_too_far_from(entry.cycle, timing) {
            return Some(Rule::RefGap);
        }
        None
    }

    /// Whether the cycle stands too far behind the last REF.
    fn is_too_far_from(&self, cycle: u64, timing: &Timing) -> bool
        ensures { result ≡ breaks_gap timing.now self.now.last cycle }
    {
        match self.last {
            Some(last) => is_gap_too_long(last, cycle, timing),
            None => false,
        }
    }

    /// Whether a trace that ends here, at `end`, ends after the deadline of the REF that the rank would need next.
    pub fn ends_late(&self, timing: &Timing, start: u64, end: u64) -> bool
        ensures { (rank : ℕ) (history : List Entry) → HasCounted rank self.now history
            → result ≡ nat_lt (start + (refresh_count history (Refresh rank) + 9) * timing.now.refi) end }
    {
        is_overdue(self.count, timing, start, end)
    }

    /// Counts an entry of the rank, where it is a REF.
    pub fn note(&mut self, entry: &Entry)
        ensures { (history : List Entry) → HasCounted (rank_of entry.now.command) self.old history
            → HasCounted (rank_of entry.now.command) self.new (history ++ entry.now ∷ []) }
    {
        if entry.command.is_refresh() {
            self.count = self.count.saturating_add(1);
            self.last = Some(entry.cycle);
        }
    }
}
