//! How captured commands are read.
//!
//! `ddr_text` stands below; `reading`, `report` and `capture` stand above.
ghost use Rattle.std.specs.Prelude.{◌≡◌, ◌<◌, IfOk, false};
ghost use Rattle.ddr_capture.specs.Form.{channel_of, is_missing, of_all, of_one};

use ddr_text::command::Format;
use ddr_text::fault::LineFault;

/// What captured commands are read as.
#[derive(Clone, Copy, Debug, PartialEq, Eq)]
pub struct Form {
    /// The form of a line.
    pub format: Format,
    /// The channel whose they are, where they are those of one alone.
    pub channel: Option<u32>,
}

impl Form {
    /// Whether the one channel is none of so many.
    pub(crate) fn is_missing(self, channels: u32) -> bool
        ensures { result ≡ is_missing self channels }
    {
        match self.channel {
            Some(only) => channels <= only,
            None => false,
        }
    }

    /// The channel of a command that names this one, or none, of so many channels.
    pub(crate) fn channel_of(self, channels: u32, named: Option<u32>) -> Result<u32, LineFault>
        ensures exact { result ≡ channel_of self channels named }
        ensures there { IfOk result (λ channel. is_missing self channels ≡ false → channel < channels) }
    {
        match self.channel {
            Some(only) => of_one(only, named),
            None => of_all(channels, named),
        }
    }
}

/// The channel of a command in a capture of one channel.
fn of_one(only: u32, named: Option<u32>) -> Result<u32, LineFault>
    ensures exact { result ≡ of_one only named }
    ensures only { IfOk result (λ channel. channel ≡ only) }
{
    match named {
        Some(channel) if channel != only => Err(LineFault::NoSuch),
        _ => Ok(only),
    }
}

/// The channel of a command in a capture of so many.
fn of_all(channels: u32, named: Option<u32>) -> Result<u32, LineFault>
    ensures exact { result ≡ of_all channels named }
    ensures there { IfOk result (λ channel. channel < channels) }
{
    match named {
        Some(channel) if channel < channels => Ok(channel),
        Some(_) => Err(LineFault::NoSuch),
        None if channels == 1 => Ok(0),
        None => Err(LineFault::Number),
    }
}
