//! Commands for bank 0 of group 0 and for ranks, and traces of them.
use ddr_trace::command::{Command, Entry};
use ddr_trace::trace::Trace;

/// ACT at a cycle.
pub fn act(cycle: u64, row: u32) -> Entry {
    let command = Command::Act {
        rank: 0,
        group: 0,
        bank: 0,
        row,
    };
    Entry { cycle, command }
}

/// RD at a cycle.
pub fn rd(cycle: u64, row: u32, line: u32) -> Entry {
    let command = Command::Rd {
        rank: 0,
        group: 0,
        bank: 0,
        row,
        line,
    };
    Entry { cycle, command }
}

/// PRE at a cycle.
pub fn pre(cycle: u64) -> Entry {
    let command = Command::Pre {
        rank: 0,
        group: 0,
        bank: 0,
    };
    Entry { cycle, command }
}

/// WR at a cycle.
pub fn wr(cycle: u64, row: u32, line: u32) -> Entry {
    let command = Command::Wr {
        rank: 0,
        group: 0,
        bank: 0,
        row,
        line,
    };
    Entry { cycle, command }
}

/// PREA at a cycle.
pub fn pre_all(cycle: u64) -> Entry {
    let command = Command::PreAll { rank: 0 };
    Entry { cycle, command }
}

/// REF of a rank at a cycle.
pub fn refresh(cycle: u64, rank: u32) -> Entry {
    let command = Command::Refresh { rank };
    Entry { cycle, command }
}

/// Whether a trace has these commands and this end.
pub fn is_trace(trace: &Trace, entries: &[Entry], end: u64) -> bool {
    trace.entries.as_slice() == entries && trace.end == end
}
