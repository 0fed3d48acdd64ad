//! Why tokens are not a query.

ghost use Rattle.std.specs.Prelude.{◌≡◌};
ghost use Rattle.wd_parse.specs.Causes.{number_of, place_of};

use thiserror::Error;

/// A refusal of tokens. A place is the number of the refused token, from 0, or the number of tokens where more of them are required.
#[derive(Clone, Copy, Debug, Error)]
pub enum ParseError {
    /// 201: the first token that no query continues.
    #[error("unexpected token at {place}")]
    Unexpected { place: u64 },
    /// 202: a token that opens a 33rd level at once, or is the 201st operator of one chain.
    #[error("nested too deeply or chained too long at token {place}")]
    PastLimit { place: u64 },
    #[error("out of memory")]
    OutOfMemory,
}

impl ParseError {
    /// The refusal's number, or `None` where memory ran out.
    pub fn number(&self) -> Option<u32>
        ensures { result ≡ number_of self.now }
    {
        match self {
            ParseError::Unexpected { .. } => Some(201),
            ParseError::PastLimit { .. } => Some(202),
            ParseError::OutOfMemory => None,
        }
    }

    /// The number of the refused token, or `None` where memory ran out.
    pub fn place(&self) -> Option<u64>
        ensures { result ≡ place_of self.now }
    {
        match self {
            ParseError::Unexpected { place } | ParseError::PastLimit { place } => Some(*place),
            ParseError::OutOfMemory => None,
        }
    }
}
