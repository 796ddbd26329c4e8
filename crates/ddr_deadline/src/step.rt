//! What a cycle makes of the oldest request, in a channel of one rank.
ghost use Rattle.std.specs.Prelude.{◌≡◌, ℕ, ◌+◌, ◌≤◌, List, [], Some, slice_get};
ghost use Rattle.ddr_timing.specs.declared.config.Config.{Config};
ghost use Rattle.ddr_latency.specs.Latency.{clocks_of, refresh};
ghost use Rattle.ddr_hazards.specs.declared.waiting.Waiting.{Waiting};
ghost use Rattle.ddr_channel.specs.History.{Call, run};
ghost use Rattle.ddr_channel.specs.Promise.{AreCalls};
ghost use Rattle.ddr_deadline.specs.Step.{Step, overdue_at};

/// In a channel of one rank where nothing is done, the next cycle makes one of four things of the oldest request once that has reached the
/// cap. Its rank is overdue and doesn't get its REF yet. Or it gets it, and `close` says by which cycle the request is served, if it is
/// served alone from then on. Or the rank isn't overdue, and the request's own step, or none, doesn't put it off. Or it is read or written.
/// No other request is read or written in any of them. `soon`: whatever is done and pending, a rank that is overdue has its REF before its
/// tick is `refresh` clocks old (`ddr_latency`), with a clock to spare.
///
/// A law: it does nothing.
pub fn oldest_takes_a_step()
    ensures step { (config : Config) (start : ℕ) (calls : List Call) → AreCalls config calls → config.geometry.ranks ≡ 1 → (run config start calls).state.done ≡ [] → (w : Waiting) → slice_get (run config start calls).state.pending 0 ≡ Some w → w.admitted + config.limits.cap ≤ (run config start calls).state.now → Step config (run config start calls).state w }
    ensures soon { (config : Config) (start : ℕ) (calls : List Call) → AreCalls config calls → config.geometry.ranks ≡ 1 → (run config start calls).state.now + 2 ≤ overdue_at config (run config start calls).state 0 + refresh (clocks_of config) }
{}
