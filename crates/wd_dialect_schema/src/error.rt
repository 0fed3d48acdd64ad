//! Why a text of PostgreSQL is not read as a schema.

ghost use Rattle.std.specs.Prelude.{◌≡◌};
ghost use Rattle.wd_dialect_schema.specs.declared.error.DialectError.TheVariants.{OutOfMemory};

use std::alloc::{AllocError, AllocFailed};
use wd_lex::LexError;

/// Why a text of PostgreSQL is not read as a schema.
#[derive(Clone, Copy)]
pub enum DialectError {
    /// The masked text has no tokens.
    Tokens(LexError),
    /// The token with this number cannot come next in a statement.
    Unexpected { place: u64 },
    /// The text of the declared tables would be longer than 65,536 bytes.
    TooLong,
    OutOfMemory,
}

impl From<AllocError> for DialectError {
    ghost from_gives = { λ _ e. e ≡ OutOfMemory };

    fn from(_error: AllocError) -> DialectError {
        DialectError::OutOfMemory
    }
}

impl<T: Drop> From<AllocFailed<T>> for DialectError {
    ghost from_gives = { λ _ e. e ≡ OutOfMemory };

    fn from(_error: AllocFailed<T>) -> DialectError {
        DialectError::OutOfMemory
    }
}
