//! Why a query is not respelled.

ghost use Rattle.wd_clauses.specs.declared.error.RespellError.TheVariants.{OutOfMemory};
ghost use Rattle.std.specs.Prelude.{◌≡◌};

use std::alloc::{AllocError, AllocFailed};

/// Why a query is not respelled.
#[derive(Clone, Copy)]
pub enum RespellError {
    /// More than 65,536 tokens.
    TooLong,
    OutOfMemory,
}

impl From<AllocError> for RespellError {
    ghost from_gives = { λ _ e. e ≡ OutOfMemory };

    fn from(_e: AllocError) -> RespellError {
        RespellError::OutOfMemory
    }
}

impl<T: Drop> From<AllocFailed<T>> for RespellError {
    ghost from_gives = { λ _ e. e ≡ OutOfMemory };

    fn from(_e: AllocFailed<T>) -> RespellError {
        RespellError::OutOfMemory
    }
}
