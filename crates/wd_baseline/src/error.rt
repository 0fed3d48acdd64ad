//! Why a file is no baseline.

ghost use Rattle.std.specs.Prelude.{◌≡◌};
ghost use Rattle.wd_baseline.specs.Refusals.{refusal_at};
ghost use Rattle.wd_baseline.specs.declared.error.BaselineError.TheVariants as error;

use std::alloc::{AllocError, AllocFailed};
use thiserror::Error;
use wd_json::Misread;
use wd_value::OutOfMemory;

/// Why a file is no baseline.
#[derive(Clone, Copy, Debug, Error)]
pub enum BaselineError {
    /// The first line is not `{"version":1}`.
    #[error("line 1 is not {{\"version\":1}}")]
    Version,
    /// A line, counted from 1, is no finding: it is not JSON, or JSON of another form.
    #[error("line {number} is no finding")]
    Line { number: u64 },
    /// The allocator refused a growth.
    #[error("out of memory")]
    OutOfMemory,
}

impl From<OutOfMemory> for BaselineError {
    ghost from_gives = { λ _ e. e ≡ error.OutOfMemory };

    fn from(_error: OutOfMemory) -> BaselineError {
        BaselineError::OutOfMemory
    }
}

impl<T: Drop> From<AllocFailed<T>> for BaselineError {
    ghost from_gives = { λ _ e. e ≡ error.OutOfMemory };

    fn from(_error: AllocFailed<T>) -> BaselineError {
        BaselineError::OutOfMemory
    }
}

/// The error for the line with a number.
pub(crate) fn at_line(misread: Misread, number: u64) -> BaselineError
    ensures { result ≡ refusal_at misread number }
{
    match misread {
        Misread::Shape => BaselineError::Line { number },
        Misread::OutOfMemory => BaselineError::OutOfMemory,
    }
}
