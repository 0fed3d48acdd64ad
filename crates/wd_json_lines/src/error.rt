//! Why lines are not read.

ghost use Rattle.std.specs.Prelude.{◌≡◌};
ghost use Rattle.wd_json_lines.specs.Refusals.{refusal_at};
ghost use Rattle.wd_json_lines.specs.declared.error.LineError.TheVariants as error;

use std::alloc::{AllocError, AllocFailed};
use wd_json::Misread;
use wd_value::OutOfMemory;

/// Why lines are not read.
#[derive(Clone, Copy)]
pub enum LineError {
    /// A line, counted from 1, is not JSON, or is JSON of another form. It is the first such line.
    Unread { number: u64 },
    /// The allocator refused a growth.
    OutOfMemory,
}

impl From<OutOfMemory> for LineError {
    ghost from_gives = { λ _ e. e ≡ error.OutOfMemory };

    fn from(_error: OutOfMemory) -> LineError {
        LineError::OutOfMemory
    }
}

impl From<AllocError> for LineError {
    ghost from_gives = { λ _ e. e ≡ error.OutOfMemory };

    fn from(_error: AllocError) -> LineError {
        LineError::OutOfMemory
    }
}

impl<T: Drop> From<AllocFailed<T>> for LineError {
    ghost from_gives = { λ _ e. e ≡ error.OutOfMemory };

    fn from(_error: AllocFailed<T>) -> LineError {
        LineError::OutOfMemory
    }
}

/// The error for the line with a number.
pub(crate) fn at_line(misread: Misread, number: u64) -> LineError
    ensures { result ≡ refusal_at misread number }
{
    match misread {
        Misread::Shape => LineError::Unread { number },
        Misread::OutOfMemory => LineError::OutOfMemory,
    }
}
