//! How long a request takes in a channel of the core.
ghost use Rattle.std.specs.Prelude.{◌≡◌, ℕ, true, List, Some, slice_get};
ghost use Rattle.ddr_latency.specs.Latency.{leaves_time};
ghost use Rattle.ddr_latency.specs.Bound.{leaves_room};
ghost use Rattle.ddr_world.specs.History.{Answered, Opening, begun, run};
ghost use Rattle.ddr_world.specs.State.{ChannelSide};
ghost use Rattle.ddr_core_deadline.specs.InCore.{IsChannelInTime, TakesAllIn, calls_of};

/// Each request that a channel of the core admits takes fewer than `latency` clocks (`ddr_deadline`) from its admission to its completion,
/// whatever the events, in whatever order ports and channels step, where each cycle that is made finds that all that was done in its
/// channel is taken, and each refresh interval leaves time to serve a request (`leaves_room`): `served` is that law. The channel is what
/// the calls make of it that the events make (`calls_of`), by which the cycle of each admission is told. `one_rank`: with one rank
/// `leaves_time` of `ddr_latency` is enough.
///
/// A law: it does nothing. It counts the cycles of the request's channel, and says nothing of time: while no cycle of it is made, a request
/// stays pending. The steps of ports and queues have no clock, so the time that a request waits in the queue that leads to its channel,
/// before a `Take` admits it, is not counted, and neither is that in which its completion waits for the port to collect it, and its reply
/// for those before it.
pub fn core_serves_in_time()
    ensures served { (opening : Opening) (events : List Answered) → TakesAllIn (begun opening) events → leaves_room opening.config ≡ true → (c : ℕ) (side : ChannelSide) → slice_get (run opening events).state.channels c ≡ Some side → IsChannelInTime opening (run opening events) c (calls_of c (begun opening) events) side }
    ensures one_rank { (opening : Opening) (events : List Answered) → TakesAllIn (begun opening) events → leaves_time opening.config ≡ true → opening.config.geometry.ranks ≡ 1 → (c : ℕ) (side : ChannelSide) → slice_get (run opening events).state.channels c ≡ Some side → IsChannelInTime opening (run opening events) c (calls_of c (begun opening) events) side }
{}
