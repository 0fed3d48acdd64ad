//! Why tokens are not read.

ghost use Rattle.std.specs.Prelude.{◌≡◌};
ghost use Rattle.wd_read_cursor.specs.Given.{left_of};
ghost use Rattle.wd_read_cursor.specs.declared.refusal.Refusal.TheVariants.{OutOfMemory};

use std::alloc::{AllocError, AllocFailed};

/// A refusal while reading: `left` counts the tokens from the refused one on, and is 0 where more tokens are required.
#[derive(Clone, Copy)]
pub enum Refusal {
    /// No query continues with that token.
    Unexpected { left: usize },
    /// That token opens one level too many, or is one operator too many of its chain.
    PastLimit { left: usize },
    OutOfMemory,
}

impl Refusal {
    /// How many tokens there are from the refused one on, or `None` where memory ran out.
    pub fn left(self) -> Option<usize>
        ensures { result ≡ left_of self }
    {
        match self {
            Refusal::Unexpected { left } | Refusal::PastLimit { left } => Some(left),
            Refusal::OutOfMemory => None,
        }
    }
}

impl From<AllocError> for Refusal {
    ghost from_gives = { λ _ e. e ≡ OutOfMemory };

    fn from(_e: AllocError) -> Refusal {
        Refusal::OutOfMemory
    }
}

impl<T: Drop> From<AllocFailed<T>> for Refusal {
    ghost from_gives = { λ _ e. e ≡ OutOfMemory };

    fn from(_e: AllocFailed<T>) -> Refusal {
        Refusal::OutOfMemory
    }
}
