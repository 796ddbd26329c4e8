//! When the outstanding requests of each port were accepted.
//!
//! `host` stands above. A port has a place for each number that may be outstanding at a time, so that none is used twice.
ghost use Rattle.std.specs.Prelude.{◌≡◌, IfOk, slice_get, slice_set, unwrap_or, replicate, ◌*◌};
ghost use Rattle.ddr_timing.specs.declared.units.TheConstants.{MOST_OUTSTANDING};
ghost use Rattle.ddr_c.specs.Stamps.{place_of};

use ddr_timing::units::MOST_OUTSTANDING;
use std::alloc::{AllocError, Global};

/// The clocks when the outstanding requests of all ports were accepted.
#[derive(Drop)]
pub(crate) struct Stamps {
    accepted: Vec<u64>,
}

impl Stamps {
    /// Places for so many ports.
    pub(crate) fn open(alloc: Global, ports: u32) -> Result<Stamps, AllocError>
        ensures { IfOk result (λ s. s.accepted.items ≡ replicate (ports * MOST_OUTSTANDING) 0) }
    {
        Ok(Stamps {
            accepted: vec![in alloc; 0; ports as usize * MOST_OUTSTANDING]?,
        })
    }

    /// The clock when a request of a port was accepted.
    pub(crate) fn at(&self, port: u32, number: u64) -> u64
        ensures { result ≡ unwrap_or (slice_get self.now.accepted.items (place_of port number)) 0 }
    {
        match self.accepted.get(place_of(port, number)) {
            Some(clock) => *clock,
            None => 0,
        }
    }

    /// Notes when a request of a port was accepted.
    pub(crate) fn accept(&mut self, port: u32, number: u64, clock: u64)
        ensures { self.new.accepted.items ≡ slice_set self.old.accepted.items (place_of port number) clock }
    {
        let place = place_of(port, number);
        if place < self.accepted.len() {
            self.accepted[place] = clock;
        }
    }
}

/// The place of a request of a port.
fn place_of(port: u32, number: u64) -> usize
    ensures { result ≡ place_of port number }
{
    port as usize * MOST_OUTSTANDING + number as usize % MOST_OUTSTANDING
}
