//! Which requests are looked at together.
//!
//! `timed`, `span` and `distribution` stand below, and `spread`, `text` and `series` above.
ghost use Rattle.std.specs.Prelude.{◌≡◌, count_by};
ghost use Rattle.ddr_measure.specs.Groups.{distribution_of, holds, name_of, noted};

use crate::distribution::Distribution;
use crate::span::Span;
use crate::timed::Timed;
use ddr_address_map::request::Kind;
use ddr_statistics::counts::Finding;

/// Requests of one kind, or those whose read or write found its bank in one way.
#[derive(Clone, Copy, Debug, PartialEq, Eq)]
pub enum Group {
    Reads,
    Writes,
    Hits,
    Misses,
    Conflicts,
}

impl Group {
    pub const ALL: [Group; 5] = [
        Group::Reads,
        Group::Writes,
        Group::Hits,
        Group::Misses,
        Group::Conflicts,
    ];

    /// Whether a request is one of them.
    pub fn holds(self, request: &Timed) -> bool
        ensures { result ≡ holds self request.now }
    {
        match self {
            Group::Reads => request.kind == Kind::Read,
            Group::Writes => request.kind == Kind::Write,
            Group::Hits => request.found == Some(Finding::Hit),
            Group::Misses => request.found == Some(Finding::Miss),
            Group::Conflicts => request.found == Some(Finding::Conflict),
        }
    }

    /// The name that they have in the text.
    pub fn name(self) -> &'static str
        ensures { result.now ≡ name_of self }
    {
        match self {
            Group::Reads => "read",
            Group::Writes => "write",
            Group::Hits => "hit",
            Group::Misses => "miss",
            Group::Conflicts => "conflict",
        }
    }

    /// How long those of these requests took from one step to another.
    pub fn distribution(self, span: Span, requests: &[Timed]) -> Distribution
        ensures { result ≡ distribution_of self span requests.now }
    {
        let mut spread = Distribution::NONE;
        for request in requests {
            self.note(span, request, &mut spread);
        }
        spread
    }

    /// How many of these requests are of them.
    pub fn count(self, requests: &[Timed]) -> usize
        ensures { result ≡ count_by (holds self) requests.now }
    {
        requests
            .iter()
            .filter(|request| self.holds(request))
            .count()
    }

    /// Notes a request, if it is one of them.
    pub(crate) fn note(self, span: Span, request: &Timed, spread: &mut Distribution)
        ensures { spread.new ≡ noted self span spread.old request.now }
    {
        if self.holds(request) {
            spread.note(span.clocks(request));
        }
    }
}
