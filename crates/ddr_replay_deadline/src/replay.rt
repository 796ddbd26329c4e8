//! How long the requests of a replay take in their channels.
ghost use Rattle.std.specs.Prelude.{◌≡◌, ◌≤◌, ℕ, true, Bool, Ok, Some, slice_get};
ghost use Rattle.ddr_timing.specs.declared.config.Config.{Config};
ghost use Rattle.ddr_latency.specs.Bound.{leaves_room};
ghost use Rattle.ddr_stream.specs.Stream.{Queues};
ghost use Rattle.ddr_world.specs.State.{ChannelSide};
ghost use Rattle.ddr_replay.specs.declared.order.Order.{Order};
ghost use Rattle.ddr_replay.specs.Runs.{Run, begun, replayed, turns};
ghost use Rattle.ddr_replay_deadline.specs.InReplay.{IsServedIn, events_of_turns};

/// Whatever stream is replayed, each request that a channel admitted took fewer than `latency` clocks (`ddr_deadline`) from its admission
/// to its completion, or has not waited for as long, where each refresh interval leaves time to serve a request (`leaves_room`): behind
/// any number of turns (`turns`), however the replay goes on, and so at the end of one that comes to it, behind as many turns as it made
/// (`replayed`). The events are the replay's own, one by one and in its order (`events_of_turns`): of each turn what each port submits,
/// then what each channel takes, its cycle and what it delivers, then what each port collects and releases. They make the core's state,
/// each answered as it may be, and it is they that tell each request's cycles (`IsServedIn`).
///
/// A law: it does nothing. It counts from the admission: the time that a request waits for its port to accept it, or in the queue that
/// leads to its channel, is not counted, and neither is that in which its reply waits for those before it.
pub fn replay_serves_in_time()
    ensures turns { (config : Config) (keeps : Bool) (order : Order) (queues : Queues) (n : ℕ) (last : Run) → leaves_room config ≡ true → turns config n (begun config keeps order queues) ≡ Some last → (c : ℕ) (side : ChannelSide) → slice_get last.state.channels c ≡ Some side → IsServedIn config (events_of_turns config n (begun config keeps order queues)) last.state c side }
    ensures replayed { (config : Config) (keeps : Bool) (order : Order) (queues : Queues) (n : ℕ) (last : Run) → leaves_room config ≡ true → replayed config n (begun config keeps order queues) ≡ Ok last → (m : ℕ) × (m ≤ n) × (turns config m (begun config keeps order queues) ≡ Some last) × ((c : ℕ) (side : ChannelSide) → slice_get last.state.channels c ≡ Some side → IsServedIn config (events_of_turns config m (begun config keeps order queues)) last.state c side) }
{}
