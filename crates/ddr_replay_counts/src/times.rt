//! The times of a replay's requests, of all ports and of each.
ghost use Rattle.std.specs.Prelude.{◌≡◌, ℕ, Bool, Ok, Some};
ghost use Rattle.ddr_timing.specs.declared.config.Config.{Config};
ghost use Rattle.ddr_stream.specs.Stream.{Queues};
ghost use Rattle.ddr_replay.specs.declared.order.Order.{Order};
ghost use Rattle.ddr_replay.specs.Runs.{Run, begun, replayed, turns};
ghost use Rattle.ddr_replay_counts.specs.Times.{TimesAgree};

/// Whatever stream is replayed, the times that are kept of all its requests are of those that are kept of each port's: behind any number of
/// turns (`turns`), and at the end of a replay that comes to it (`replayed`). Of reads and of writes, to their commands and to the release
/// of their replies, there are as many, and they took as many clocks, by sums that stop at the last number of a `u64`.
///
/// A law: it does nothing. It says nothing of the least and the most of them, nor of their histograms.
pub fn replay_times_agree()
    ensures turns { (config : Config) (keeps : Bool) (order : Order) (queues : Queues) (n : ℕ) (last : Run) → turns config n (begun config keeps order queues) ≡ Some last → TimesAgree last.ledger.total last.ledger.ports }
    ensures replayed { (config : Config) (keeps : Bool) (order : Order) (queues : Queues) (n : ℕ) (last : Run) → replayed config n (begun config keeps order queues) ≡ Ok last → TimesAgree last.ledger.total last.ledger.ports }
{}
