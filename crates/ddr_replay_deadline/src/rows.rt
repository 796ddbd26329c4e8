//! What the rows of a replay tell of its requests.
ghost use Rattle.std.specs.Prelude.{◌≡◌, ◌≤◌, ℕ, Bool, Ok, Some};
ghost use Rattle.ddr_timing.specs.declared.config.Config.{Config};
ghost use Rattle.ddr_stream.specs.Stream.{Queues};
ghost use Rattle.ddr_replay.specs.declared.order.Order.{Order};
ghost use Rattle.ddr_replay.specs.Runs.{Run, begun, replayed, turns};
ghost use Rattle.ddr_replay_deadline.specs.InReplay.{events_of_turns};
ghost use Rattle.ddr_replay_deadline.specs.Rows.{TellsRows};

/// Whatever stream is replayed, each row of a served request (`ReleasedRequest`, which `replay` prints, and of which the times of requests
/// are taken) tells of that request what became of it: behind any number of turns (`turns`), and at the end of a replay that comes to it
/// (`replayed`). By the replay's own events, those of `replay_serves_in_time`, it is the row of its port's request of its number, with what
/// that asks for: `accepted` is the clock at which the queue of the request's channel accepted it, `issued` the cycle of its own read or
/// write, and `due` that command's latency and burst later (`IsRowOf`). So they come in order, and `released` is no earlier (`IsInOrder`).
/// Where each refresh interval leaves time to serve a request (`leaves_room`), it took fewer than `(intake + 1) * latency` clocks from its
/// acceptance to its completion (`IsRowInTime`). And where rows are kept each port has one for each reply that it released, in their order.
///
/// A law: it does nothing. Of a request whose reply is not released there is no row; how long those take, and wait for their channels,
/// `replay_serves_in_time` and `replay_admits_in_time` tell.
pub fn replay_tells_in_time()
    ensures turns { (config : Config) (keeps : Bool) (order : Order) (queues : Queues) (n : ℕ) (last : Run) → turns config n (begun config keeps order queues) ≡ Some last → TellsRows config (events_of_turns config n (begun config keeps order queues)) last }
    ensures replayed { (config : Config) (keeps : Bool) (order : Order) (queues : Queues) (n : ℕ) (last : Run) → replayed config n (begun config keeps order queues) ≡ Ok last → (m : ℕ) × (m ≤ n) × (turns config m (begun config keeps order queues) ≡ Some last) × TellsRows config (events_of_turns config m (begun config keeps order queues)) last }
{}
