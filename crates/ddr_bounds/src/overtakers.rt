//! How many later requests a request can see served before it.
ghost use Rattle.std.specs.Prelude.{ℕ, List};
ghost use Rattle.ddr_timing.specs.declared.config.Config.{Config};
ghost use Rattle.ddr_channel.specs.History.{Call, run};
ghost use Rattle.ddr_channel.specs.Promise.{AreCalls};
ghost use Rattle.ddr_bounds.specs.Overtakers.{HasFewOvertakers};

/// Whatever the calls of a channel, each accepted request has at most `(cap + 3) / 4` overtakers, the quotient rounded
/// down: column commands of later admitted requests before its own. Those of a pending request stand fewer than `cap`
/// clocks behind its admission.
///
/// A law: it does nothing. It counts column commands, and says nothing of when a request is served.
pub fn overtakers_are_few()
    ensures { (config : Config) (start : ℕ) (calls : List Call) → AreCalls config calls → HasFewOvertakers (run config start calls) }
{}
