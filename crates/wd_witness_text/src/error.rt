//! Why a witness is refused.

ghost use Rattle.std.specs.Prelude.{◌≡◌};
ghost use Rattle.wd_witness_text.specs.Refusals.{number_of, place_of};
ghost use Rattle.wd_witness_text.specs.declared.error.WitnessTextError.TheVariants as error;

use thiserror::Error;
use wd_value::OutOfMemory;

/// A witness's refusal: 601 for its text and the tables that it names.
#[derive(Clone, Copy, Debug, Error)]
pub enum WitnessTextError {
    /// 601: the text is not JSON in UTF-8, or nests more than 127 deep.
    #[error("not JSON")]
    NotJson,
    /// 601: the JSON is not that of a witness.
    #[error("not of the shape of a witness")]
    Shape,
    /// 601: a table is not in the schema.
    #[error("a table that the schema has not")]
    UnknownTable,
    /// 601: a table has more than 64 rows.
    #[error("a table with more than 64 rows")]
    TooManyRows,
    /// 601: a row has another number of values than its table has columns.
    #[error("a row of another length than its table has columns")]
    RowLength,
    /// The allocator refused to allocate.
    #[error("out of memory")]
    OutOfMemory,
}

impl WitnessTextError {
    /// The refusal's number, or `None` where memory ran out.
    pub fn number(&self) -> Option<u32>
        ensures { result ≡ number_of self.now }
    {
        match self {
            WitnessTextError::NotJson
            | WitnessTextError::Shape
            | WitnessTextError::UnknownTable
            | WitnessTextError::TooManyRows
            | WitnessTextError::RowLength => Some(601),
            WitnessTextError::OutOfMemory => None,
        }
    }

    /// Always `None`: 601 names no place.
    pub fn place(&self) -> Option<u64>
        ensures { result ≡ place_of self.now }
    {
        None
    }
}

impl From<OutOfMemory> for WitnessTextError {
    ghost from_gives = { λ _ e. e ≡ error.OutOfMemory };

    fn from(_error: OutOfMemory) -> WitnessTextError {
        WitnessTextError::OutOfMemory
    }
}
