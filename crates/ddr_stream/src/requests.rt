//! How many requests of each kind there are.
//!
//! `ddr_address_map` stands below, and `stream` and `ddr_replay` above.
ghost use Rattle.std.specs.Prelude.{◌≡◌};
ghost use Rattle.ddr_stream.specs.Requests.{no_requests, with_request};

use ddr_address_map::request::Kind;

/// The requests of a port, or of several. Each number stops at the last one that a `u64` holds.
#[derive(Clone, Copy, Debug, PartialEq, Eq)]
pub struct Requests {
    pub reads: u64,
    pub writes: u64,
}

impl Requests {
    /// None.
    pub const NONE: Requests = Requests {
        reads: 0,
        writes: 0,
    };

    /// Counts a request of this kind.
    pub(crate) fn count(&mut self, kind: Kind)
        ensures { self.new ≡ with_request kind self.old }
    {
        match kind {
            Kind::Read => self.reads = self.reads.saturating_add(1),
            Kind::Write => self.writes = self.writes.saturating_add(1),
        }
    }
}
