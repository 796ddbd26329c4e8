//! Why a call of a port did nothing.
ghost use Rattle.std.specs.Prelude.{◌≡◌};
ghost use Rattle.ddr_workers.specs.declared.refusal.SubmitError.TheVariants.{Refused};

use ddr_ports::refusal::PortError;

/// Why a request was not pushed. The first that applies is answered.
#[derive(Clone, Copy, Debug, PartialEq, Eq)]
pub enum SubmitError {
    /// A completion came that the port did not wait for.
    Broken,
    /// The port prepares no such request now.
    Refused(PortError),
    /// The request queue of this channel was full at some moment of the call.
    Busy { channel: u32 },
}

impl From<PortError> for SubmitError {
    ghost from_gives = { λ cause refusal. refusal ≡ Refused cause };

    fn from(cause: PortError) -> SubmitError {
        SubmitError::Refused(cause)
    }
}

/// Why no completion was put in its place.
#[derive(Clone, Copy, Debug, PartialEq, Eq)]
pub enum PollError {
    /// A completion came before that the port did not wait for.
    Broken,
    /// A completion came that the port does not wait for. Its line is dropped.
    Stray,
}

/// Why a port was not finished. The first that applies is answered.
#[derive(Clone, Copy, Debug, PartialEq, Eq)]
pub enum FinishError {
    /// A completion came that the port did not wait for.
    Broken,
    /// A number is outstanding.
    NotEmpty,
    /// The request queue of this channel was full at some moment of the call. The Ends of the channels below it stay
    /// pushed.
    Busy { channel: u32 },
}
