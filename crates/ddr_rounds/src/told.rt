//! What there is to tell of rounds.
//!
//! `ddr_world` and `ddr_channel` stand below, and `watcher` above.

use ddr_channel::issued::Issued;
use ddr_world::event::Refusal;

/// One thing that came of a call.
#[derive(Clone, Copy, Debug, PartialEq, Eq)]
pub enum Told {
    /// The channel issued this command, with the request that it serves, if it is a column command.
    Issued { channel: u32, issued: Issued },
    /// The port accepted a request, under this number.
    Accepted { port: u32, number: u64 },
    /// The port refused a request.
    Refused { port: u32, cause: Refusal },
    /// The port gave up the reply of this number.
    Released { port: u32, number: u64 },
    /// So many quiet rounds were passed at once: cycles of each channel in which nothing was to be done.
    Passed { rounds: u64 },
}
