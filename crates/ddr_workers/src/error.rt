//! Why queues are not opened.
ghost use Rattle.std.specs.Prelude.{◌≡◌};
ghost use Rattle.ddr_workers.specs.declared.error.OpenError.TheVariants.{OutOfMemory};

use std::alloc::{AllocError, AllocFailed};
use thiserror::Error;

/// Why queues are not opened.
#[derive(Clone, Copy, Debug, PartialEq, Eq, Error)]
pub enum OpenError {
    /// Memory was refused. Nothing stays open.
    #[error("out of memory")]
    OutOfMemory,
}

impl From<AllocError> for OpenError {
    ghost from_gives = { λ _ e. e ≡ OutOfMemory };

    fn from(_e: AllocError) -> OpenError {
        OpenError::OutOfMemory
    }
}

impl<T: Drop> From<AllocFailed<T>> for OpenError {
    ghost from_gives = { λ _ e. e ≡ OutOfMemory };

    fn from(_e: AllocFailed<T>) -> OpenError {
        OpenError::OutOfMemory
    }
}
