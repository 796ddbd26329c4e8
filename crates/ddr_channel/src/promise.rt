//! The channel's promise, as a law over every list of calls.
ghost use Rattle.std.specs.Prelude.{ℕ, List};
ghost use Rattle.ddr_timing.specs.declared.config.Config.{Config};
ghost use Rattle.ddr_channel.specs.History.{Call, run};
ghost use Rattle.ddr_channel.specs.Promise.{AreCalls, KeepsPromise};

/// What any list of `admit`, `cycle` and `pop_done` makes of a channel keeps the promise: each admitted
/// request is pending or owns one column command of the trace; the completions are the right answers to
/// the owners, in order; and what a pending read would see is what the writes admitted before it leave.
///
/// A law: it does nothing. That a channel stands for its calls is a clause of each call.
pub fn channel_promise()
    ensures { (config : Config) (start : ℕ) (calls : List Call) → AreCalls config calls → KeepsPromise (run config start calls) }
{}
