//! That the open rows of a picture are those that the rules of traces speak of.
ghost use Rattle.std.specs.Prelude.{List};
ghost use Rattle.ddr_timing.specs.declared.timing.Timing.{Timing};
ghost use Rattle.ddr_trace.specs.declared.command.Entry.{Entry};
ghost use Rattle.ddr_draw.specs.Rows.{Closes, StaysOpen};

/// Whatever the trace, legal or not: behind an ACT, and up to the first command that closes its row, the open row of its bank is
/// that of the ACT, by the definitions by which traces are checked; and behind a precharge or a read or a write with one it is so up
/// to the cycle in which a picture closes it, and there is none from there on.
///
/// A law: it does nothing.
pub fn rows_are_those_of_the_rules()
    ensures stays { (timing : Timing) (before : List Entry) (act : Entry) (later : List Entry) → StaysOpen timing before act later }
    ensures closes { (timing : Timing) (before : List Entry) (act : Entry) (later : List Entry) (e : Entry) → Closes timing before act later e }
{}
