//! What is to be told of a replay.
//!
//! Nothing of this crate stands below, and `teller`, `replaying` and `telling` above.
ghost use Rattle.std.specs.Prelude.{◌≡◌};
ghost use Rattle.ddr_replay.specs.Told.{channel_of, keeps_served};

/// What a replay tells.
#[derive(Clone, Copy, Debug, PartialEq, Eq)]
pub enum Wanted {
    Statistics,
    /// Of each request, when it was accepted and served.
    Requests,
    /// The commands of a channel, in this project's own form.
    Trace { channel: u32 },
    /// The commands of a channel, in the form that DRAMPower reads.
    Drampower { channel: u32 },
    /// How long the requests took whose replies were released behind the first `skip` ones, and what they used of the data bus. `clock` is
    /// how many picoseconds a clock has, where that is known.
    Numbers { skip: u32, clock: Option<u32> },
    /// What the requests whose replies were released behind the first `skip` ones come to in each interval of `every` cycles.
    Intervals { skip: u32, every: u32 },
}

/// Whether the requests that were served are to be told of.
pub(crate) fn keeps_served(wanted: Wanted) -> bool
    ensures { result ≡ keeps_served wanted }
{
    match wanted {
        Wanted::Requests | Wanted::Numbers { .. } | Wanted::Intervals { .. } => true,
        _ => false,
    }
}

/// The channel whose commands are asked for.
pub(crate) fn channel_of(wanted: Wanted) -> Option<u32>
    ensures { result ≡ channel_of wanted }
{
    match wanted {
        Wanted::Trace { channel } | Wanted::Drampower { channel } => Some(channel),
        _ => None,
    }
}
