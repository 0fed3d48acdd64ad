//! Why a step has no outcome.

ghost use Rattle.std.specs.Prelude.{◌≡◌};
ghost use Rattle.wd_join.specs.declared.error.StepError.TheVariants as error;

use std::alloc::AllocFailed;
use wd_value::OutOfMemory;

/// Why a step has no outcome.
#[derive(Clone, Copy, PartialEq, Eq)]
pub enum StepError {
    /// It has more rows than the caller allows.
    TooManyRows,
    OutOfMemory,
}

impl From<OutOfMemory> for StepError {
    ghost from_gives = { λ _ e. e ≡ error.OutOfMemory };

    fn from(_error: OutOfMemory) -> StepError {
        StepError::OutOfMemory
    }
}

impl<T: Drop> From<AllocFailed<T>> for StepError {
    ghost from_gives = { λ _ e. e ≡ error.OutOfMemory };

    fn from(_error: AllocFailed<T>) -> StepError {
        StepError::OutOfMemory
    }
}
