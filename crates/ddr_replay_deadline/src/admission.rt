//! How long the requests of a replay wait for their channels.
ghost use Rattle.std.specs.Prelude.{◌≡◌, ◌≤◌, ℕ, true, Bool, Ok, Some, slice_get};
ghost use Rattle.ddr_timing.specs.declared.config.Config.{Config};
ghost use Rattle.ddr_latency.specs.Bound.{leaves_room};
ghost use Rattle.ddr_stream.specs.Stream.{Queues};
ghost use Rattle.ddr_world.specs.State.{ChannelSide};
ghost use Rattle.ddr_replay.specs.declared.order.Order.{Order};
ghost use Rattle.ddr_replay.specs.Runs.{Run, begun, replayed, turns};
ghost use Rattle.ddr_replay_deadline.specs.InReplay.{events_of_turns};
ghost use Rattle.ddr_replay_deadline.specs.Waits.{IsAdmittedIn};

/// Whatever stream is replayed, each request that a port accepted waited at most `intake * latency` cycles of its channel in the queue that
/// leads to it (`longest_wait`), from the clock of its acceptance to the cycle of its admission, or has not waited for longer, where each
/// refresh interval leaves time to serve a request (`leaves_room`). With `replay_serves_in_time`, one that is complete took fewer than
/// `(intake + 1) * latency` from its acceptance to its completion. It holds behind any number of turns (`turns`), and at the end of a
/// replay that comes to it (`replayed`); the events are those of `replay_serves_in_time`. They tell the clock of each acceptance
/// (`acceptances`) in the order of the acceptance list, of whose requests the channel admits the first ones, in that order (`ddr_world`):
/// so the request that was accepted at a place of the one list was admitted in the cycle at that place of the other (`IsAdmittedIn`).
///
/// A law: it does nothing. It counts from the acceptance: the time that a request waits for its port to accept it is not counted, and
/// neither is that in which its reply waits for those before it. It counts cycles of the channel, of which each turn makes one.
pub fn replay_admits_in_time()
    ensures turns { (config : Config) (keeps : Bool) (order : Order) (queues : Queues) (n : ℕ) (last : Run) → leaves_room config ≡ true → turns config n (begun config keeps order queues) ≡ Some last → (c : ℕ) (side : ChannelSide) → slice_get last.state.channels c ≡ Some side → IsAdmittedIn config (events_of_turns config n (begun config keeps order queues)) last.state c side }
    ensures replayed { (config : Config) (keeps : Bool) (order : Order) (queues : Queues) (n : ℕ) (last : Run) → leaves_room config ≡ true → replayed config n (begun config keeps order queues) ≡ Ok last → (m : ℕ) × (m ≤ n) × (turns config m (begun config keeps order queues) ≡ Some last) × ((c : ℕ) (side : ChannelSide) → slice_get last.state.channels c ≡ Some side → IsAdmittedIn config (events_of_turns config m (begun config keeps order queues)) last.state c side) }
{}
