//! Why a call of a reorder buffer did nothing.

/// Why no number was issued. The first that applies is answered.
#[derive(Clone, Copy, Debug, PartialEq, Eq)]
pub enum ReorderError {
    /// The next number is 2^62, which no port gives: this project's choice.
    Spent,
    /// As many numbers are outstanding as the window allows.
    WindowFull,
}

/// No outstanding number waits for a line with that echo.
#[derive(Clone, Copy, Debug, PartialEq, Eq)]
pub struct Stray;
