//! How the reads and writes of a replay found their banks, as its ports count them and as its channels do.
ghost use Rattle.std.specs.Prelude.{◌≡◌, ◌<◌, ◌*◌, ◌^◌, ℕ, Bool, Ok, Some};
ghost use Rattle.ddr_timing.specs.declared.config.Config.{Config};
ghost use Rattle.ddr_stream.specs.Stream.{Queues};
ghost use Rattle.ddr_replay.specs.declared.order.Order.{Order};
ghost use Rattle.ddr_replay.specs.Runs.{Run, begun, replayed, turns};
ghost use Rattle.ddr_replay_counts.specs.Rows.{CountsAddUp, CountsAgree};

/// Whatever stream is replayed, its ports count the same reads and writes as its channels: behind any number of turns (`turns`), however
/// the replay goes on, and so at the end of one that comes to it (`replayed`). A port counts a read or a write as it is issued for one of
/// its requests, by how it finds its bank then (`rows` of `Ledger`); the counts of a channel are those of its whole trace (`numbers_of`).
/// Both are taken together as the tables take them, by sums that stop at the last number of a `u64`; `replay_counts_add_up` says when
/// none does.
///
/// A law: it does nothing. It tells nothing of one port alone, nor which port's request a read or a write of a trace serves.
pub fn replay_counts_agree()
    ensures turns { (config : Config) (keeps : Bool) (order : Order) (queues : Queues) (n : ℕ) (last : Run) → turns config n (begun config keeps order queues) ≡ Some last → CountsAgree config last }
    ensures replayed { (config : Config) (keeps : Bool) (order : Order) (queues : Queues) (n : ℕ) (last : Run) → replayed config n (begun config keeps order queues) ≡ Ok last → CountsAgree config last }
{}

/// And they add up, by a sum that stops nowhere, where the rounds that were made (`round` of `Run`) are fewer for all channels together
/// than 2^64. A replay makes at most `MOST_ROUNDS` rounds, fewer than 2^32, and a `Geometry` has at most 4 channels: so it is in each that
/// the program makes.
///
/// A law: it does nothing.
pub fn replay_counts_add_up()
    ensures turns { (config : Config) (keeps : Bool) (order : Order) (queues : Queues) (n : ℕ) (last : Run) → config.geometry.channels * last.round < 2 ^ 64 → turns config n (begun config keeps order queues) ≡ Some last → CountsAddUp config last }
    ensures replayed { (config : Config) (keeps : Bool) (order : Order) (queues : Queues) (n : ℕ) (last : Run) → config.geometry.channels * last.round < 2 ^ 64 → replayed config n (begun config keeps order queues) ≡ Ok last → CountsAddUp config last }
{}
