//! A request of a stream.
//!
//! `ddr_ports` stands below, and `queue` and `stream` above.
ghost use Rattle.std.specs.Prelude.{◌≡◌};
ghost use Rattle.ddr_ports.specs.Asked.{asked_of};
ghost use Rattle.ddr_stream.specs.Asks.{asked_by};

use ddr_address_map::request::{Kind, Line};
use ddr_ports::request::Request;
use ddr_timing::units::LINE_BYTES;

/// The bytes of a write, none of which is written.
static BLANK: Line = [0; LINE_BYTES];

/// What a line of a stream asks a port for: a whole line of the memory.
#[derive(Clone, Copy, Debug, PartialEq, Eq)]
pub struct Ask {
    /// The line of the stream that asks so, counted from 1.
    pub line: u64,
    /// The first cycle before which the port may submit it.
    pub at: u64,
    pub kind: Kind,
    /// An address of the line.
    pub addr: u64,
}

impl Ask {
    /// The request that the port submits.
    pub fn request(&self) -> Request<'static>
        ensures { asked_of result ≡ asked_by self.now }
    {
        match self.kind {
            Kind::Read => {
                let start = self.addr - self.addr % LINE_BYTES as u64;
                Request::read(start, LINE_BYTES as u32)
            }
            Kind::Write => Request::masked(self.addr, &BLANK, 0),
        }
    }
}
