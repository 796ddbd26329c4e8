//! How late the refreshes of a channel can come.
ghost use Rattle.std.specs.Prelude.{ℕ, ◌<◌, List};
ghost use Rattle.ddr_timing.specs.declared.config.Config.{Config};
ghost use Rattle.ddr_channel.specs.History.{Call, run};
ghost use Rattle.ddr_channel.specs.Kept.{Kept, state_of};
ghost use Rattle.ddr_channel.specs.Promise.{AreCalls, StandsFor};
ghost use Rattle.ddr_channel.specs.Refresh.{HasNoFault, KeepsRefreshes};

/// Whatever the calls of a channel, after each of them every rank owes at most `postpone + 1` REFs, which is at most 8.
/// From the tick that brings its debt there, its commands are at most one PREA, and PREA and REF come in cycles that the
/// configuration tells.
///
/// A law: it does nothing. It counts the cycles that are made, and says nothing of time.
pub fn refreshes_come_in_time()
    ensures { (config : Config) (start : ℕ) (calls : List Call) → AreCalls config calls → (rank : ℕ) → rank < config.geometry.ranks → KeepsRefreshes (run config start calls).state rank }
{}

/// Whatever the calls of a channel, its trace up to the next cycle is legal and refreshed, so that the checker of a whole
/// trace finds nothing. So it is of every channel that stands for its calls, as each call says of it.
///
/// A law: it does nothing.
pub fn channels_are_refreshed()
    ensures calls { (config : Config) (start : ℕ) (calls : List Call) → AreCalls config calls → HasNoFault (run config start calls).state }
    ensures standing { (channel : Kept) (calls : List Call) → StandsFor channel calls → HasNoFault (state_of channel) }
{}
