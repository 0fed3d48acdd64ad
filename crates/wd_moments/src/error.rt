//! Why no tokens are written.

ghost use Rattle.std.specs.Prelude.{◌≡◌};
ghost use Rattle.wd_moments.specs.declared.error.MomentError.TheVariants.{OutOfMemory};

use std::alloc::{AllocError, AllocFailed};
use wd_value::OutOfMemory as NoMemory;

/// Why no tokens are written.
#[derive(Clone, Copy)]
pub enum MomentError {
    /// More than 65,536 tokens.
    TooLong,
    OutOfMemory,
}

impl From<AllocError> for MomentError {
    ghost from_gives = { λ _ e. e ≡ OutOfMemory };

    fn from(_e: AllocError) -> MomentError {
        MomentError::OutOfMemory
    }
}

impl<T: Drop> From<AllocFailed<T>> for MomentError {
    ghost from_gives = { λ _ e. e ≡ OutOfMemory };

    fn from(_e: AllocFailed<T>) -> MomentError {
        MomentError::OutOfMemory
    }
}

impl From<NoMemory> for MomentError {
    ghost from_gives = { λ _ e. e ≡ OutOfMemory };

    fn from(_e: NoMemory) -> MomentError {
        MomentError::OutOfMemory
    }
}
