//! How far the column commands of a channel stand apart.
ghost use Rattle.std.specs.Prelude.{ℕ, List};
ghost use Rattle.ddr_timing.specs.declared.config.Config.{Config};
ghost use Rattle.ddr_channel.specs.History.{Call, run};
ghost use Rattle.ddr_channel.specs.Promise.{AreCalls};
ghost use Rattle.ddr_bounds.specs.Columns.{AreColumnsApart};

/// Whatever the calls of a channel, any two column commands of its trace, of whichever ranks, stand at least a burst's
/// clocks apart.
///
/// A law: it does nothing. CCD, RTW, WTR and the rank switch ask it (JESD79-4; RTW and the rank switch are this
/// project's).
pub fn columns_stand_apart()
    ensures { (config : Config) (start : ℕ) (calls : List Call) → AreCalls config calls → AreColumnsApart (run config start calls).state.trace }
{}
