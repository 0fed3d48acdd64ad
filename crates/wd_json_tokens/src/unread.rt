//! Why a JSON text is not read.

ghost use Rattle.std.specs.Prelude.{◌≡◌};
ghost use Rattle.wd_json_tokens.specs.declared.unread.Unread.TheVariants as unread;

use json::Invalid;
use std::alloc::{AllocError, AllocFailed};

/// Why a JSON text is not read.
#[derive(Clone, Copy)]
pub enum Unread {
    /// It is no JSON, or nests too deep, or has a number too large for a float.
    NotJson,
    OutOfMemory,
}

impl From<Invalid> for Unread {
    ghost from_gives = { λ _ e. e ≡ unread.NotJson };

    fn from(_error: Invalid) -> Unread {
        Unread::NotJson
    }
}

impl From<AllocError> for Unread {
    ghost from_gives = { λ _ e. e ≡ unread.OutOfMemory };

    fn from(_error: AllocError) -> Unread {
        Unread::OutOfMemory
    }
}

impl<T: Drop> From<AllocFailed<T>> for Unread {
    ghost from_gives = { λ _ e. e ≡ unread.OutOfMemory };

    fn from(_error: AllocFailed<T>) -> Unread {
        Unread::OutOfMemory
    }
}
