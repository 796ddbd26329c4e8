//! The newest commands of a channel.
//!
//! `watch` stands above.
ghost use Rattle.std.specs.Prelude.{◌≡◌, ◌*◌, ◌+◌, ◌-◌, ◌<◌, ◌≤◌, ◌^◌, ◌++◌, [], ◌∷◌, List, IfOk, drop, length, vec_capacity};
ghost use Rattle.ddr_trace.specs.declared.command.Entry.{Entry};
ghost use Rattle.ddr_watch.specs.declared.recent.TheConstants.{MOST_KEPT};

use ddr_trace::command::Entry;
use std::alloc::{AllocError, Global};

/// So many of the newest commands are kept, all of them until there are so many.
pub(crate) const FEWEST_KEPT: usize = 4_096;

/// Once there are so many, all but the `FEWEST_KEPT` newest are let go.
pub(crate) const MOST_KEPT: usize = 8_192;

/// The newest of the commands that were counted. Contracts speak of every history of which they are the last.
#[derive(Drop)]
pub(crate) struct Recent {
    /// How many commands came before these.
    pub first: u64,
    pub entries: Vec<Entry>,
    ghost few: { length entries.items ≤ MOST_KEPT },
    ghost room: { MOST_KEPT ≤ vec_capacity entries },
}

impl Recent {
    ghost use Rattle.ddr_watch.specs.Kept.{AreLast, count_in};

    /// Before the first command. No later call asks for memory.
    pub(crate) fn open(alloc: Global) -> Result<Recent, AllocError>
        ensures none { IfOk result (λ r. count_in r ≡ 0) }
        ensures last { IfOk result (λ r. AreLast r []) }
    {
        let entries = Vec::with_capacity(alloc, MOST_KEPT)?;
        Ok(Recent { first: 0, entries })
    }

    /// How many commands were counted.
    pub(crate) fn count(&self) -> u64
        requires { count_in self.now < 2 ^ 64 }
        ensures { result ≡ count_in self.now }
    {
        self.first + self.entries.len() as u64
    }

    /// Counts one command more.
    pub(crate) fn push(&mut self, entry: &Entry)
        requires { count_in self.old + 1 < 2 ^ 64 }
        ensures count { count_in self.new ≡ count_in self.old + 1 }
        ensures last { (history : List Entry) → AreLast self.old history → AreLast self.new (history ++ entry.now ∷ []) }
    {
        self.shorten();
        self.entries.push_reserved(*entry);
    }

    /// Lets go the oldest, once as many are kept as there is room for.
    fn shorten(&mut self)
        requires { count_in self.old + 1 < 2 ^ 64 }
        ensures count { count_in self.new ≡ count_in self.old }
        ensures room { length self.new.entries.items < MOST_KEPT }
        ensures last { (history : List Entry) → AreLast self.old history → AreLast self.new history }
    {
        if self.entries.len() < MOST_KEPT {
            return;
        }
        keep_last(&mut self.entries, FEWEST_KEPT);
        self.first += (MOST_KEPT - FEWEST_KEPT) as u64;
    }
}

/// Lets go all but the last so many.
fn keep_last(entries: &mut Vec<Entry>, count: usize)
    requires { count ≤ length entries.old.items }
    ensures items { entries.new.items ≡ drop (length entries.old.items - count) entries.old.items }
    ensures capacity { vec_capacity entries.new ≡ vec_capacity entries.old }
{
    let first = entries.len() - count;
    entries.copy_within(first.., 0);
    entries.truncate(count);
}
