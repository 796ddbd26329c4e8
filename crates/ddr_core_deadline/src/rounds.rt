//! That rounds of the core leave nothing done.
ghost use Rattle.std.specs.Prelude.{◌≡◌, ◌++◌, ℕ, true, List, Some, slice_get};
ghost use Rattle.ddr_latency.specs.Bound.{leaves_room};
ghost use Rattle.ddr_rounds.specs.Rounds.{IsRefusedBehind, rounds};
ghost use Rattle.ddr_world.specs.declared.event.Refusal.{Refusal};
ghost use Rattle.ddr_world.specs.History.{Answered, Opening, after, begun, run};
ghost use Rattle.ddr_world.specs.State.{ChannelSide, State};
ghost use Rattle.ddr_core_deadline.specs.InCore.{IsChannelInTime, calls_of};
ghost use Rattle.ddr_core_deadline.specs.InRounds.{AreStretches, IsNoCycle, NoneDone, Stretch, TakesAllTo, events_of_rounds, events_of_stretches};

/// Rounds keep the premise of `core_serves_in_time`: where nothing is done in any channel, each cycle of so many rounds finds nothing done,
/// and nothing is done behind them. `rounds` says it of the events of which the rounds consist, and `refused` of rounds of which one was
/// refused. `begun`: nothing is done before the first event; and `others`: an event that is no `Cycle` leaves nothing done.
///
/// A law: it does nothing.
pub fn rounds_take_all()
    ensures rounds { (opening : Opening) (earlier : List Answered) (count : ℕ) (next : State) → NoneDone (run opening earlier).state → rounds opening.config count (run opening earlier).state ≡ Some next → TakesAllTo (run opening earlier) (events_of_rounds opening.config count (run opening earlier).state) next }
    ensures refused { (opening : Opening) (earlier : List Answered) (cause : Refusal) (made : ℕ) (next : State) → NoneDone (run opening earlier).state → IsRefusedBehind cause opening.config made (run opening earlier).state next → (later : List Answered) × TakesAllTo (run opening earlier) (events_of_rounds opening.config made (run opening earlier).state ++ later) next }
    ensures begun { (opening : Opening) → NoneDone (begun opening).state }
    ensures others { (opening : Opening) (earlier : List Answered) (a : Answered) → IsNoCycle a.event → NoneDone (run opening earlier).state → NoneDone (after (run opening earlier) a).state }
{}

/// So a core whose cycles are all made in rounds serves its requests in time, whatever is submitted, taken and given up between them, where
/// each refresh interval leaves time to serve a request: behind any rounds and events each request that a channel admitted took fewer than
/// `latency` clocks, or has not waited for as long.
///
/// A law: it does nothing. It counts from the request's admission, and does not say how many rounds a request waits whose channel's queues
/// are full, or which its port refuses.
pub fn rounds_serve_in_time()
    ensures { (opening : Opening) (stretches : List Stretch) → AreStretches opening.config (begun opening) stretches → leaves_room opening.config ≡ true → (c : ℕ) (side : ChannelSide) → slice_get (run opening (events_of_stretches opening.config (begun opening) stretches)).state.channels c ≡ Some side → IsChannelInTime opening (run opening (events_of_stretches opening.config (begun opening) stretches)) c (calls_of c (begun opening) (events_of_stretches opening.config (begun opening) stretches)) side }
{}
