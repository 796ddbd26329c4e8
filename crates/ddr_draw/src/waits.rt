//! That what a command is told to have waited for is what allowed it last.
ghost use Rattle.std.specs.Prelude.{List};
ghost use Rattle.ddr_timing.specs.declared.config.Config.{Config};
ghost use Rattle.ddr_trace.specs.declared.command.Entry.{Entry};
ghost use Rattle.ddr_draw.specs.Waits.{AllowsLast, ForbidsBefore};

/// Whatever the trace, legal or not: from the cycle on in which the rule that is told allows the command, no rule on distances is
/// broken by it behind the `MOST_BACK` commands before it, and where none is told, in no cycle; and in each cycle before, that rule
/// is. The rules on distances are those on two commands, FAW, RTRS, and RP and RP_REF behind an auto-precharge.
///
/// A law: it does nothing.
pub fn waits_are_the_last()
    ensures last { (config : Config) (history : List Entry) (entry : Entry) → AllowsLast config history entry }
    ensures before { (config : Config) (history : List Entry) (entry : Entry) → ForbidsBefore config history entry }
{}
