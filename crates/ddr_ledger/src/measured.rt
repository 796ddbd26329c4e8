//! A request that was served, as numbers are taken of it.
//!
//! `released` and `ddr_measure` stand below, and `ddr_replay` above.
ghost use Rattle.std.specs.Prelude.{◌≡◌};
ghost use Rattle.ddr_ledger.specs.Measured.{timed_of};

use crate::released::ReleasedRequest;
use ddr_measure::timed::Timed;

/// A request, with how it found its bank.
pub fn timed_of(served: &ReleasedRequest) -> Timed
    ensures { result ≡ timed_of served.now }
{
    Timed {
        kind: served.ask.kind,
        found: served.found,
        arrived: served.ask.at,
        accepted: u64::from(served.accepted),
        issued: served.issued,
        done: served.due,
        released: u64::from(served.released),
    }
}
