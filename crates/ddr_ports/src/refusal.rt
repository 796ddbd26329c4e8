//! Why a call of a port did nothing.
ghost use Rattle.std.specs.Prelude.{◌≡◌};
ghost use Rattle.ddr_ports.specs.Refusals.{refusal_from};

use ddr_reorder::refusal::ReorderError;

/// Why a request was not prepared. The first that applies is answered.
#[derive(Clone, Copy, Debug, PartialEq, Eq)]
pub enum PortError {
    /// The port was finished.
    Finished,
    /// The first address is not below the memory's capacity.
    OutOfRange,
    /// No byte is asked for.
    EmptyLength,
    /// The bytes are not all in the line of the first.
    CrossesLine,
    /// The next number is 2^62, which no port gives: this project's choice.
    Spent,
    /// As many numbers are outstanding as the window allows.
    WindowFull,
}

impl From<ReorderError> for PortError {
    ghost from_gives = { λ cause refusal. refusal ≡ refusal_from cause };

    fn from(cause: ReorderError) -> PortError {
        match cause {
            ReorderError::Spent => PortError::Spent,
            ReorderError::WindowFull => PortError::WindowFull,
        }
    }
}

/// A number is still outstanding.
#[derive(Clone, Copy, Debug, PartialEq, Eq)]
pub struct NotEmpty;
