//! Why there is no verdict.

ghost use Rattle.std.specs.Prelude.{◌≡◌};
ghost use Rattle.wd_decide.specs.Verdicts.{decide_number, decide_place};
ghost use Rattle.wd_decide.specs.declared.error.DecideError.TheVariants as refusal;

use thiserror::Error;
use wd_query::TextError;
use wd_value::OutOfMemory;

/// Why there is no verdict.
#[derive(Debug, Drop, Error)]
pub enum DecideError {
    /// The schema's text or the query's is refused.
    #[error(transparent)]
    Texts(TextError),
    #[error("out of memory")]
    OutOfMemory,
}

impl DecideError {
    /// The refusal's number; `None` where memory runs out.
    pub fn number(&self) -> Option<u32>
        ensures { result ≡ decide_number self.now }
    {
        match self {
            DecideError::Texts(error) => error.number(),
            DecideError::OutOfMemory => None,
        }
    }

    /// The byte or the token that the refusal is about; `None` where it is about none.
    pub fn place(&self) -> Option<u64>
        ensures { result ≡ decide_place self.now }
    {
        match self {
            DecideError::Texts(error) => error.place(),
            DecideError::OutOfMemory => None,
        }
    }
}

impl From<OutOfMemory> for DecideError {
    ghost from_gives = { λ _ r. r ≡ refusal.OutOfMemory };

    fn from(_error: OutOfMemory) -> DecideError {
        DecideError::OutOfMemory
    }
}
