//! Why a schema is refused.

ghost use Rattle.std.specs.Prelude.{◌≡◌};
ghost use Rattle.wd_schema.specs.Refusals.{number_of, place_of};
ghost use Rattle.wd_schema.specs.declared.error.SchemaError.TheVariants.{OutOfMemory};

use std::alloc::{AllocError, AllocFailed};
use thiserror::Error;
use wd_lex::LexError;

/// A schema's refusal; of several causes, the first in the text is reported.
#[derive(Clone, Copy, Debug, Error)]
pub enum SchemaError {
    /// 101 to 107: the text cannot be split into tokens.
    #[error(transparent)]
    Tokens(LexError),
    /// 301: two tables have one name.
    #[error("a table is declared twice")]
    TableTwice,
    /// 302: two columns of a table have one name.
    #[error("a column is declared twice")]
    ColumnTwice,
    /// 303: a key names a column that the table does not have.
    #[error("a key over an unknown column")]
    UnknownColumn,
    /// 304: a table has two primary keys.
    #[error("a second primary key")]
    SecondPrimaryKey,
    /// 305: a key names one column twice.
    #[error("a column twice in a key")]
    KeyColumnTwice,
    /// 306: more than 64 tables, or more than 256 columns or 64 keys of a table.
    #[error("too many tables, columns or keys")]
    TooMany,
    /// 307: a type's name is unknown.
    #[error("an unknown type")]
    UnknownType,
    /// 308: NULL on a column that is NOT NULL or in the primary key.
    #[error("NULL on a column that takes no NULL")]
    NullForbidden,
    /// 309: no schema continues with the token of this number, or the tokens end too early.
    #[error("unexpected token {place}")]
    Unexpected { place: u64 },
    #[error("out of memory")]
    OutOfMemory,
}

impl SchemaError {
    /// The refusal's number, or `None` where memory ran out.
    pub fn number(&self) -> Option<u32>
        ensures { result ≡ number_of self.now }
    {
        match self {
            SchemaError::Tokens(error) => error.number(),
            SchemaError::TableTwice => Some(301),
            SchemaError::ColumnTwice => Some(302),
            SchemaError::UnknownColumn => Some(303),
            SchemaError::SecondPrimaryKey => Some(304),
            SchemaError::KeyColumnTwice => Some(305),
            SchemaError::TooMany => Some(306),
            SchemaError::UnknownType => Some(307),
            SchemaError::NullForbidden => Some(308),
            SchemaError::Unexpected { .. } => Some(309),
            SchemaError::OutOfMemory => None,
        }
    }

    /// The byte of a refusal of the tokens, or the number of the token of 309; `None` for the others.
    pub fn place(&self) -> Option<u64>
        ensures { result ≡ place_of self.now }
    {
        match self {
            SchemaError::Tokens(error) => error.place(),
            SchemaError::Unexpected { place } => Some(*place),
            _ => None,
        }
    }
}

impl From<AllocError> for SchemaError {
    ghost from_gives = { λ _ e. e ≡ OutOfMemory };

    fn from(_error: AllocError) -> SchemaError {
        SchemaError::OutOfMemory
    }
}

impl<T: Drop> From<AllocFailed<T>> for SchemaError {
    ghost from_gives = { λ _ e. e ≡ OutOfMemory };

    fn from(_error: AllocFailed<T>) -> SchemaError {
        SchemaError::OutOfMemory
    }
}
