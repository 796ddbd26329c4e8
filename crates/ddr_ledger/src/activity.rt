//! What channels did in the cycles of a replay, and what they held: in how many cycles they drained writes, and how many requests were
//! pending in them and waited in front of them.
//!
//! `ledger` stands above, and `ddr_replay`, which sees what a channel does and writes it.
ghost use Rattle.std.specs.Prelude.{◌≡◌};
ghost use Rattle.ddr_ledger.specs.Activity.{acted, held, mean_of};

/// How many of something there were in the cycles of a channel.
#[derive(Clone, Copy, Debug, PartialEq, Eq)]
pub struct Held {
    /// The sum over all cycles. It stops at the last number that a `u64` holds.
    pub sum: u64,
    /// The most in any cycle.
    pub most: u64,
}

impl Held {
    const NONE: Held = Held { sum: 0, most: 0 };

    /// Counts so many cycles more, in each of which there were so many.
    fn hold(&mut self, cycles: u64, count: u64)
        ensures { self.new ≡ held cycles count self.old }
    {
        self.sum = self.sum.saturating_add(cycles.saturating_mul(count));
        self.most = self.most.max(count);
    }

    /// A thousand times the mean over so many cycles, rounded down; 0 where there is none.
    pub fn mean(&self, cycles: u32) -> u128
        ensures { result ≡ mean_of cycles self.now }
    {
        if cycles == 0 {
            return 0;
        }
        1000 * u128::from(self.sum) / u128::from(cycles)
    }
}

/// What is seen of a channel behind its part of a round.
#[derive(Clone, Copy, Debug, PartialEq, Eq)]
pub struct Seen {
    /// Whether it drained writes in its cycle.
    pub draining: bool,
    /// How many reads are pending.
    pub reads: u64,
    /// How many writes are.
    pub writes: u64,
    /// How many requests wait in its queue.
    pub waiting: u64,
    /// When the oldest pending request was admitted, if one is pending.
    pub oldest: Option<u64>,
}

impl Seen {
    /// Of a channel that isn't there.
    pub const NOTHING: Seen = Seen {
        draining: false,
        reads: 0,
        writes: 0,
        waiting: 0,
        oldest: None,
    };
}

/// What a channel did in its cycles.
#[derive(Clone, Copy, Debug, PartialEq, Eq)]
pub struct Activity {
    /// In how many of them writes were drained. It stops at the last number that a `u64` holds.
    pub drains: u64,
    /// How many reads were pending.
    pub reads: Held,
    /// How many writes were.
    pub writes: Held,
    /// How many requests waited in its queue.
    pub waiting: Held,
}

impl Activity {
    /// Before the first cycle.
    pub const NONE: Activity = Activity {
        drains: 0,
        reads: Held::NONE,
        writes: Held::NONE,
        waiting: Held::NONE,
    };

    /// Counts so many cycles more, behind each of which this was seen of the channel.
    pub(crate) fn act(&mut self, cycles: u64, seen: &Seen)
        ensures { self.new ≡ acted cycles seen.now self.old }
    {
        if seen.draining {
            self.drains = self.drains.saturating_add(cycles);
        }
        self.reads.hold(cycles, seen.reads);
        self.writes.hold(cycles, seen.writes);
        self.waiting.hold(cycles, seen.waiting);
    }
}
