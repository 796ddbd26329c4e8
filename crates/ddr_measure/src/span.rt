//! The clocks between two steps of a request.
//!
//! `timed` stands below, and `text` above.
ghost use Rattle.std.specs.Prelude.{◌≡◌};
ghost use Rattle.ddr_measure.specs.Spans.{clocks_of, name_of};

use crate::timed::Timed;

/// From one step of a request to a later one.
#[derive(Clone, Copy, Debug, PartialEq, Eq)]
pub enum Span {
    ArrivedToAccepted,
    AcceptedToIssued,
    IssuedToDone,
    AcceptedToDone,
    DoneToReleased,
    ArrivedToReleased,
}

impl Span {
    pub const ALL: [Span; 6] = [
        Span::ArrivedToAccepted,
        Span::AcceptedToIssued,
        Span::IssuedToDone,
        Span::AcceptedToDone,
        Span::DoneToReleased,
        Span::ArrivedToReleased,
    ];

    /// How many clocks lie between the two steps; 0 where the later one isn't later.
    pub fn clocks(self, request: &Timed) -> u64
        ensures { result ≡ clocks_of self request.now }
    {
        match self {
            Span::ArrivedToAccepted => request.accepted.saturating_sub(request.arrived),
            Span::AcceptedToIssued => request.issued.saturating_sub(request.accepted),
            Span::IssuedToDone => request.done.saturating_sub(request.issued),
            Span::AcceptedToDone => request.done.saturating_sub(request.accepted),
            Span::DoneToReleased => request.released.saturating_sub(request.done),
            Span::ArrivedToReleased => request.released.saturating_sub(request.arrived),
        }
    }

    /// The name that it has in the text.
    pub fn name(self) -> &'static str
        ensures { result.now ≡ name_of self }
    {
        match self {
            Span::ArrivedToAccepted => "arrived_to_accepted",
            Span::AcceptedToIssued => "accepted_to_issued",
            Span::IssuedToDone => "issued_to_done",
            Span::AcceptedToDone => "accepted_to_done",
            Span::DoneToReleased => "done_to_released",
            Span::ArrivedToReleased => "arrived_to_released",
        }
    }
}
