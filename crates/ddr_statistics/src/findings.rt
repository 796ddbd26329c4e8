//! That a finding is told by looking back.
ghost use Rattle.std.specs.Prelude.{ℕ, List};
ghost use Rattle.ddr_trace.specs.declared.command.Entry.{Entry};
ghost use Rattle.ddr_statistics.specs.Findings.{LooksBack};

/// Whatever the history, legal or not: a read or a write of a bank is a hit exactly where it is not the first since the
/// bank's last ACT, or since the trace's start where there was none; the first one behind an ACT is a conflict where a PRE of
/// the bank stands before that ACT with no PRE, PREA or auto-precharge of it between the two, else a miss.
///
/// A law: it does nothing.
pub fn findings_look_back()
    ensures { (rank group bank : ℕ) (history : List Entry) → LooksBack rank group bank history }
{}
