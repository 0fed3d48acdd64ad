//! Why a plan has no outcome.

ghost use Rattle.std.specs.Prelude.{◌≡◌};
ghost use Rattle.wd_eval.specs.Errors.{error_of, number_of, place_of};
ghost use Rattle.wd_eval.specs.declared.error.EvalError.TheVariants as error;

use std::alloc::{AllocError, AllocFailed};
use thiserror::Error;
use wd_join::StepError;
use wd_value::OutOfMemory;

/// Why a plan has no outcome under a choice.
#[derive(Clone, Copy, PartialEq, Eq, Debug, Error)]
pub enum EvalError {
    /// 801: the choice is not valid. The number of the first ordering that is not lawful, is
    /// missing or is left over.
    #[error("the choice is not valid at ordering {0}")]
    NotValid(u64),
    /// 802: a step has more rows than 10,000,000.
    #[error("a step has more than 10,000,000 rows")]
    TooManyRows,
    #[error("out of memory")]
    OutOfMemory,
}

impl EvalError {
    /// The refusal's number; none where memory runs out.
    pub fn number(&self) -> Option<u32>
        ensures { result ≡ number_of self.now }
    {
        match self {
            EvalError::NotValid(_) => Some(801),
            EvalError::TooManyRows => Some(802),
            EvalError::OutOfMemory => None,
        }
    }

    /// The number of the wrong ordering, for 801.
    pub fn place(&self) -> Option<u64>
        ensures { result ≡ place_of self.now }
    {
        match self {
            EvalError::NotValid(ordering) => Some(*ordering),
            EvalError::TooManyRows | EvalError::OutOfMemory => None,
        }
    }
}

impl From<OutOfMemory> for EvalError {
    ghost from_gives = { λ _ e. e ≡ error.OutOfMemory };

    fn from(_error: OutOfMemory) -> EvalError {
        EvalError::OutOfMemory
    }
}

impl From<StepError> for EvalError {
    ghost from_gives = { λ s e. e ≡ error_of s };

    fn from(error: StepError) -> EvalError {
        match error {
            StepError::TooManyRows => EvalError::TooManyRows,
            StepError::OutOfMemory => EvalError::OutOfMemory,
        }
    }
}

impl From<AllocError> for EvalError {
    ghost from_gives = { λ _ e. e ≡ error.OutOfMemory };

    fn from(_error: AllocError) -> EvalError {
        EvalError::OutOfMemory
    }
}

impl<T: Drop> From<AllocFailed<T>> for EvalError {
    ghost from_gives = { λ _ e. e ≡ error.OutOfMemory };

    fn from(_error: AllocFailed<T>) -> EvalError {
        EvalError::OutOfMemory
    }
}
