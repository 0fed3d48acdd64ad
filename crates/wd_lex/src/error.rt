//! Why a text has no list of tokens.

ghost use Rattle.std.specs.Prelude.{◌≡◌};
ghost use Rattle.wd_lex.specs.Causes.{number_of, place_of};
ghost use Rattle.wd_lex.specs.declared.error.LexError.TheVariants.{OutOfMemory};

use std::alloc::{AllocError, AllocFailed};
use thiserror::Error;

/// A text's refusal. A place is the byte of the text at which the refused piece begins.
#[derive(Clone, Copy, Debug, Error)]
pub enum LexError {
    /// 101: a character outside the alphabet.
    #[error("character outside the alphabet at byte {place}")]
    UnknownCharacter { place: u64 },
    /// 102: a text in single quotes that is not closed.
    #[error("text not closed at byte {place}")]
    TextNotClosed { place: u64 },
    /// 103: a quoted name that is empty or not closed.
    #[error("quoted name empty or not closed at byte {place}")]
    NameNotClosed { place: u64 },
    /// 104: a number past 9223372036854775808, or followed at once by a letter, `_` or `.`.
    #[error("number too large or joined to what follows at byte {place}")]
    BadNumber { place: u64 },
    /// 105: a comment that is not closed.
    #[error("comment not closed at byte {place}")]
    CommentNotClosed { place: u64 },
    /// 106: not UTF-8.
    #[error("not UTF-8")]
    NotUtf8,
    /// 107: more than 65,536 bytes.
    #[error("longer than 65536 bytes")]
    TooLong,
    #[error("out of memory")]
    OutOfMemory,
}

impl LexError {
    /// The refusal's number, or `None` where memory runs out.
    pub fn number(&self) -> Option<u32>
        ensures { result ≡ number_of self.now }
    {
        match self {
            LexError::UnknownCharacter { .. } => Some(101),
            LexError::TextNotClosed { .. } => Some(102),
            LexError::NameNotClosed { .. } => Some(103),
            LexError::BadNumber { .. } => Some(104),
            LexError::CommentNotClosed { .. } => Some(105),
            LexError::NotUtf8 => Some(106),
            LexError::TooLong => Some(107),
            LexError::OutOfMemory => None,
        }
    }

    /// The byte at which the refused piece begins, for 101 to 105; `None` for the others.
    pub fn place(&self) -> Option<u64>
        ensures { result ≡ place_of self.now }
    {
        match self {
            LexError::UnknownCharacter { place }
            | LexError::TextNotClosed { place }
            | LexError::NameNotClosed { place }
            | LexError::BadNumber { place }
            | LexError::CommentNotClosed { place } => Some(*place),
            LexError::NotUtf8 | LexError::TooLong | LexError::OutOfMemory => None,
        }
    }
}

impl From<AllocError> for LexError {
    ghost from_gives = { λ _ e. e ≡ OutOfMemory };

    fn from(_e: AllocError) -> LexError {
        LexError::OutOfMemory
    }
}

impl<T: Drop> From<AllocFailed<T>> for LexError {
    ghost from_gives = { λ _ e. e ≡ OutOfMemory };

    fn from(_e: AllocFailed<T>) -> LexError {
        LexError::OutOfMemory
    }
}
