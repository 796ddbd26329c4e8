//! How the reads and the writes of ports found their banks.
//!
//! `ddr_statistics` stands below, which says how a read or a write finds its bank, and `ledger` and `ddr_replay` above.
ghost use Rattle.std.specs.Prelude.{◌≡◌};
ghost use Rattle.ddr_ledger.specs.Rows.{all_rows, both_rows, column_counted, counts_together, found_counted};

use ddr_statistics::counts::Finding;
use ddr_trace::command::Command;

/// How so many reads, or so many writes, found their banks. Each number stops at the last one that a `u64` holds.
#[derive(Clone, Copy, Debug, PartialEq, Eq)]
pub struct RowCounts {
    /// Those that are `Finding::Hit`.
    pub hits: u64,
    /// Those that are `Finding::Miss`.
    pub misses: u64,
    /// Those that are `Finding::Conflict`.
    pub conflicts: u64,
}

impl RowCounts {
    const NONE: RowCounts = RowCounts {
        hits: 0,
        misses: 0,
        conflicts: 0,
    };

    /// Counts one more, which found its bank so.
    fn count(&mut self, found: Option<Finding>)
        ensures { self.new ≡ found_counted found self.old }
    {
        match found {
            Some(Finding::Hit) => self.hits = self.hits.saturating_add(1),
            Some(Finding::Miss) => self.misses = self.misses.saturating_add(1),
            Some(Finding::Conflict) => self.conflicts = self.conflicts.saturating_add(1),
            None => {}
        }
    }
}

/// How the reads and the writes of a port's requests found their banks, or those of several ports.
#[derive(Clone, Copy, Debug, PartialEq, Eq)]
pub struct Rows {
    pub reads: RowCounts,
    pub writes: RowCounts,
}

impl Rows {
    /// Before the first read or write.
    pub const NONE: Rows = Rows {
        reads: RowCounts::NONE,
        writes: RowCounts::NONE,
    };

    /// Counts a read or a write more, which found its bank so.
    pub(crate) fn count(&mut self, command: &Command, found: Option<Finding>)
        ensures { self.new ≡ column_counted command.now found self.old }
    {
        if command.is_read() {
            self.reads.count(found);
        } else {
            self.writes.count(found);
        }
    }
}

/// How the reads and the writes of several ports found their banks.
pub fn all_rows(rows: &[Rows]) -> Rows
    ensures { result ≡ all_rows rows.now }
{
    let mut all = Rows::NONE;
    for one in rows {
        all = both_rows(&all, one);
    }
    all
}

fn both_rows(a: &Rows, b: &Rows) -> Rows
    ensures { result ≡ both_rows a.now b.now }
{
    Rows {
        reads: counts_together(&a.reads, &b.reads),
        writes: counts_together(&a.writes, &b.writes),
    }
}

fn counts_together(a: &RowCounts, b: &RowCounts) -> RowCounts
    ensures { result ≡ counts_together a.now b.now }
{
    RowCounts {
        hits: a.hits.saturating_add(b.hits),
        misses: a.misses.saturating_add(b.misses),
        conflicts: a.conflicts.saturating_add(b.conflicts),
    }
}
