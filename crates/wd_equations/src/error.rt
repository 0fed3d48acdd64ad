ghost use Rattle.std.specs.Prelude.{◌≡◌};
ghost use Rattle.wd_equations.specs.declared.error.ExpandError.TheVariants.{OutOfMemory};

use std::alloc::{AllocError, AllocFailed};

/// Why tokens are not expanded.
#[derive(Clone, Copy)]
pub enum ExpandError {
    /// More than 65,536 tokens.
    TooLong,
    OutOfMemory,
}

impl From<AllocError> for ExpandError {
    ghost from_gives = { λ _ e. e ≡ OutOfMemory };

    fn from(_e: AllocError) -> ExpandError {
        ExpandError::OutOfMemory
    }
}

impl<T: Drop> From<AllocFailed<T>> for ExpandError {
    ghost from_gives = { λ _ e. e ≡ OutOfMemory };

    fn from(_e: AllocFailed<T>) -> ExpandError {
        ExpandError::OutOfMemory
    }
}
