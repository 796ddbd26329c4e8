//! How long requests take, in clocks.
//!
//! `ddr_stream` stands below, and `ledger` and `times_report` above. A request is accepted in the round before which its port
//! submits it, issued in the cycle of its read or write, and released in the round in which its port releases the reply. A
//! round is a clock cycle of each channel.
ghost use Rattle.std.specs.Prelude.{◌≡◌, ◌≤◌};
ghost use Rattle.ddr_ledger.specs.Times.{bound_of, bucket_of, count_of, least_of, timed, with_bucket, with_time, with_took};

use ddr_address_map::request::Kind;
use ddr_stream::ask::Ask;

/// How many classes a histogram has.
pub const BUCKETS: usize = 33;

/// A request that a port submitted, and whose reply it didn't release.
#[derive(Clone, Copy, Debug, PartialEq, Eq)]
pub struct Accepted {
    pub ask: Ask,
    /// How many rounds were made before it was accepted.
    pub round: u32,
}

/// How long some requests took, in clocks. Each number stops at the last one that a `u64` holds.
#[derive(Clone, Copy, Debug, PartialEq, Eq)]
pub struct Latency {
    /// How many requests.
    pub count: u64,
    /// All of their clocks together.
    pub clocks: u64,
    /// The least of them, 0 where there is none.
    pub least: u64,
    /// The greatest of them.
    pub most: u64,
    /// How many took no clock, then 1, 2 to 3, 4 to 7 and so on, and last 2^31 or more.
    pub histogram: [u64; BUCKETS],
}

/// How long the requests of one kind took.
#[derive(Clone, Copy, Debug, PartialEq, Eq)]
pub struct Waits {
    /// From their acceptance to their read or write.
    pub to_issue: Latency,
    /// From their acceptance to the release of their replies.
    pub to_release: Latency,
}

/// How long the requests of a port took, or of all ports.
#[derive(Clone, Copy, Debug, PartialEq, Eq)]
pub struct Times {
    pub reads: Waits,
    pub writes: Waits,
}

impl Latency {
    /// Of no request.
    pub const NONE: Latency = Latency {
        count: 0,
        clocks: 0,
        least: 0,
        most: 0,
        histogram: [0; BUCKETS],
    };

    /// Notes a request that took so many clocks.
    #[tactic(auto, unfolding(crate::specs::Times::with_time))]
    pub(crate) fn note(&mut self, clocks: u64)
        ensures { self.new ≡ with_time clocks self.old }
    {
        self.least = least_of(self, clocks);
        self.most = self.most.max(clocks);
        self.clocks = self.clocks.saturating_add(clocks);
        self.count = self.count.saturating_add(1);
        add_one(&mut self.histogram, bucket_of(clocks));
    }
}

/// A number of clocks that so many in a hundred of the requests don't pass: the upper end of the class of the histogram that
/// tells it. 0 where there is no request.
pub fn bound_of(percent: u64, latency: &Latency) -> u64
    requires { percent ≤ 100 }
    ensures { result ≡ bound_of percent latency.now }
{
    let wanted = u128::from(percent) * u128::from(latency.count);
    let mut seen: u128 = 0;
    for (bucket, count) in latency.histogram.iter().enumerate() {
        seen += u128::from(*count);
        if wanted <= 100 * seen {
            return (1 << bucket) - 1;
        }
    }
    (1 << BUCKETS) - 1
}

/// The least number of clocks, with one request more.
fn least_of(latency: &Latency, clocks: u64) -> u64
    ensures { result ≡ least_of latency.now clocks }
{
    if latency.count == 0 {
        clocks
    } else {
        latency.least.min(clocks)
    }
}

/// The class of so many clocks: how many binary digits they have, at most 32.
fn bucket_of(clocks: u64) -> usize
    ensures { result ≡ bucket_of clocks }
{
    (64 - clocks.leading_zeros() as usize).min(BUCKETS - 1)
}

/// Counts one more in a class.
fn add_one(histogram: &mut [u64; BUCKETS], bucket: usize)
    ensures { histogram.new ≡ with_bucket bucket histogram.old }
{
    if bucket < histogram.len() {
        histogram[bucket] = histogram[bucket].saturating_add(1);
    }
}

impl Waits {
    pub const NONE: Waits = Waits {
        to_issue: Latency::NONE,
        to_release: Latency::NONE,
    };

    fn note(&mut self, to_issue: u64, to_release: u64)
        ensures { self.new ≡ with_took to_issue to_release self.old }
    {
        self.to_issue.note(to_issue);
        self.to_release.note(to_release);
    }
}

impl Times {
    pub const NONE: Times = Times {
        reads: Waits::NONE,
        writes: Waits::NONE,
    };

    /// How many requests were noted.
    pub fn count(&self) -> u64
        ensures { result ≡ count_of self.now }
    {
        self.reads
            .to_release
            .count
            .saturating_add(self.writes.to_release.count)
    }

    /// Notes a request that was accepted so, issued in that cycle, and whose reply is released in that round.
    #[tactic(auto, unfolding(crate::specs::Times::timed))]
    pub(crate) fn note(&mut self, accepted: Accepted, issued: u64, round: u32)
        ensures { self.new ≡ timed accepted issued round self.old }
    {
        let to_issue = issued.saturating_sub(u64::from(accepted.round));
        let to_release = u64::from(round.saturating_sub(accepted.round));
        match accepted.ask.kind {
            Kind::Read => self.reads.note(to_issue, to_release),
            Kind::Write => self.writes.note(to_issue, to_release),
        }
    }
}
