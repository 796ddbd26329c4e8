//! What the data bus was used for: requests, clocks, and the part of it that was used.
//!
//! `timed` stands below, and `measured` and `text` above. Each request is a line of 64 bytes and a burst on its channel's data bus.
ghost use Rattle.std.specs.Prelude.{◌≡◌, [], ◌∷◌, ◌++◌, List};
ghost use Rattle.ddr_measure.specs.Usages.{elapsed, peak_of, quotient, share_of, speed_of, usage_of};
ghost use Rattle.ddr_measure.specs.declared.timed.Timed.{Timed};

use crate::timed::Timed;
use ddr_timing::units::{BURST_CLOCKS, LINE_BYTES};

/// How many picoseconds a second has.
const SECOND: u128 = 1_000_000_000_000;

/// What some requests used.
#[derive(Clone, Copy, Debug, PartialEq, Eq)]
pub struct Usage {
    /// How many requests. Stops at the last number that a `u64` holds.
    pub requests: u64,
    /// The first cycle in which one was accepted, 0 where there is none.
    pub earliest: u64,
    /// The last cycle in which a reply was given, 0 where there is none.
    pub latest: u64,
}

impl Usage {
    /// That of no request.
    pub const NONE: Usage = Usage {
        requests: 0,
        earliest: 0,
        latest: 0,
    };

    /// Notes a request behind those whose usage it is.
    pub fn note(&mut self, request: &Timed)
        ensures { (requests : List Timed) → self.old ≡ usage_of requests → self.new ≡ usage_of (requests ++ request.now ∷ []) }
    {
        if self.requests == 0 {
            self.earliest = request.accepted;
        }
        self.earliest = self.earliest.min(request.accepted);
        self.latest = self.latest.max(request.released);
        self.requests = self.requests.saturating_add(1);
    }

    /// How many clocks passed from the first cycle in which one was accepted to the last in which a reply was given.
    pub fn elapsed(&self) -> u64
        ensures { result ≡ elapsed self.now }
    {
        self.latest.saturating_sub(self.earliest)
    }

    /// How many thousandths of the data buses of so many channels their bursts took; 0 where no clock passed.
    pub fn share(&self, channels: u32) -> u128
        ensures { result ≡ share_of channels self.now }
    {
        let bursts = u128::from(BURST_CLOCKS) * u128::from(self.requests);
        let all = u128::from(channels) * u128::from(self.elapsed());
        quotient(1000 * bursts, all)
    }

    /// How many bytes a second they are, where a clock has so many picoseconds; 0 where no time passed.
    pub fn speed(&self, clock: u32) -> u128
        ensures { result ≡ speed_of clock self.now }
    {
        let requests = self.requests;
        let bytes = LINE_BYTES as u128 * u128::from(requests);
        let time = u128::from(clock) * u128::from(self.elapsed());
        quotient(SECOND * bytes, time)
    }
}

/// How many bytes a second so many channels can move, where a clock has so many picoseconds: a line in each burst; 0 where a clock has
/// none.
pub fn peak_of(channels: u32, clock: u32) -> u128
    ensures { result ≡ peak_of channels clock }
{
    let bytes = LINE_BYTES as u128 * u128::from(channels);
    let time = u128::from(BURST_CLOCKS) * u128::from(clock);
    quotient(SECOND * bytes, time)
}

/// The whole part of a quotient, 0 where there is none.
pub(crate) fn quotient(number: u128, by: u128) -> u128
    ensures { result ≡ quotient number by }
{
    if by == 0 { 0 } else { number / by }
}
