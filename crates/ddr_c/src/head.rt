//! A reply's head in C's form.
//!
//! `host` stands below, and `lib` above.
ghost use Rattle.std.specs.Prelude.{◌≡◌};
ghost use Rattle.ddr_c.specs.Heads.{head_of, kind_of};

use crate::host::Front;
use ddr_address_map::request::Kind;

/// A reply's head. `kind` is 0 for a read and 1 for a write; `bytes` counts what was copied, none for a write.
#[repr(C)]
#[derive(Clone, Copy)]
pub struct Head {
    pub number: u64,
    pub addr: u64,
    pub bytes: u64,
    pub length: u32,
    pub kind: u32,
    /// The clock when the port accepted the request.
    pub accepted: u64,
    /// The cycle of its column command.
    pub issued: u64,
    /// The cycle of its completion.
    pub due: u64,
    /// The clock when the reply was handed over.
    pub released: u64,
}

pub(crate) const READ: u32 = 0;

pub(crate) const WRITE: u32 = 1;

/// The head of a reply that is handed over at this clock.
pub(crate) fn head_of(front: &Front, clock: u64) -> Head
    ensures { result ≡ head_of front.now clock }
{
    Head {
        number: front.number,
        addr: front.echo.addr,
        bytes: front.length as u64,
        length: front.echo.len,
        kind: match front.echo.kind {
            Kind::Read => READ,
            Kind::Write => WRITE,
        },
        accepted: front.accepted,
        issued: front.service.issued,
        due: front.service.due,
        released: clock,
    }
}
