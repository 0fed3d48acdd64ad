//! Why a JSON value is not read as the part of a format that belongs at its place.

ghost use Rattle.std.specs.Prelude.{◌≡◌};
ghost use Rattle.wd_json.specs.declared.misread.Misread.TheVariants as misread;

use std::alloc::{AllocError, AllocFailed};
use wd_value::OutOfMemory;

/// Why a JSON value is not read.
#[derive(Clone, Copy)]
pub enum Misread {
    /// It is not a value of the form that is read there.
    Shape,
    OutOfMemory,
}

impl From<OutOfMemory> for Misread {
    ghost from_gives = { λ _ e. e ≡ misread.OutOfMemory };

    fn from(_error: OutOfMemory) -> Misread {
        Misread::OutOfMemory
    }
}

impl From<AllocError> for Misread {
    ghost from_gives = { λ _ e. e ≡ misread.OutOfMemory };

    fn from(_error: AllocError) -> Misread {
        Misread::OutOfMemory
    }
}

impl<T: Drop> From<AllocFailed<T>> for Misread {
    ghost from_gives = { λ _ e. e ≡ misread.OutOfMemory };

    fn from(_error: AllocFailed<T>) -> Misread {
        Misread::OutOfMemory
    }
}
