//! What a cycle of a channel did: the command that it issued, and the request whose data the command moves.
//!
//! `transfer` tells of the request, and `channel` answers with both. Statistics, a waveform or another program's
//! callbacks need no more than these answers, in the order of the cycles.
ghost use Rattle.std.specs.Prelude.{◌≡◌};
ghost use Rattle.std.specs.Option.{option_map};
ghost use Rattle.ddr_channel.specs.Told.{issued_with};

use ddr_address_map::request::Echo;
use ddr_trace::command::{Command, Entry};

/// A request whose column command was issued.
#[derive(Clone, Copy, Debug, PartialEq, Eq)]
pub struct Served {
    pub port: u32,
    /// The request's number at its port.
    pub number: u64,
    pub echo: Echo,
    /// The cycle that the channel was at when the request was admitted.
    pub admitted: u64,
    /// The cycle of completion: CL or CWL, and the clocks of a burst, behind the column command.
    pub due: u64,
}

/// A command that a cycle issued.
#[derive(Clone, Copy, Debug, PartialEq, Eq)]
pub struct Issued {
    /// The trace's new entry: the cycle, and the command with its place.
    pub entry: Entry,
    /// The request that is served, where the command is RD, WR, RDA or WRA.
    pub served: Option<Served>,
}

/// What a cycle did, by its command, if it has one, and the request that it serves.
pub(crate) fn issued_with(
    cycle: u64,
    command: Option<Command>,
    served: Option<Served>,
) -> Option<Issued>
    ensures { result ≡ option_map (issued_with cycle served) command }
{
    let command = command?;
    Some(Issued {
        entry: Entry { cycle, command },
        served,
    })
}
