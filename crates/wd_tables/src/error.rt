ghost use Rattle.std.specs.Prelude.{◌≡◌};
ghost use Rattle.wd_tables.specs.Causes.{number_of, place_of};
ghost use Rattle.wd_tables.specs.declared.error.DataError.TheVariants as error;

use std::alloc::{AllocError, AllocFailed};
use thiserror::Error;
use wd_value::OutOfMemory;

/// Why the data of a table is refused. Records are counted from 1, without the header.
#[derive(Debug, Drop, Error)]
pub enum DataError {
    /// 701: there is no header, or it doesn't name each column of the table exactly once.
    #[error("the header doesn't name each column once")]
    Header,
    /// 702: a field is no value of its column's type.
    #[error("record {record} has a value that is not of its column's type")]
    Value { record: u64 },
    /// 703: a field is NULL in a column that is NOT NULL.
    #[error("record {record} has NULL in a column that is NOT NULL")]
    Null { record: u64 },
    /// 704: the first record that repeats an earlier one in a key.
    #[error("record {record} repeats an earlier one in a key")]
    Key { record: u64 },
    /// 705: the text is not CSV in UTF-8 with records of one length.
    #[error("not CSV in UTF-8 with records of one length")]
    Malformed,
    /// 706: more than 1,000,000 records follow the header.
    #[error("more than 1000000 records")]
    TooManyRecords,
    /// The allocator refused to allocate.
    #[error("out of memory")]
    OutOfMemory,
}

impl DataError {
    /// The refusal's number, or `None` where memory ran out.
    pub fn number(&self) -> Option<u32>
        ensures { result ≡ number_of self.now }
    {
        match self {
            DataError::Header => Some(701),
            DataError::Value { .. } => Some(702),
            DataError::Null { .. } => Some(703),
            DataError::Key { .. } => Some(704),
            DataError::Malformed => Some(705),
            DataError::TooManyRecords => Some(706),
            DataError::OutOfMemory => None,
        }
    }

    /// The record that a refusal of one record is about.
    pub fn place(&self) -> Option<u64>
        ensures { result ≡ place_of self.now }
    {
        match self {
            DataError::Value { record } | DataError::Null { record } | DataError::Key { record } =>
                Some(*record),
            _ => None,
        }
    }
}

impl From<AllocError> for DataError {
    ghost from_gives = { λ _ e. e ≡ error.OutOfMemory };

    fn from(_error: AllocError) -> DataError {
        DataError::OutOfMemory
    }
}

impl<T: Drop> From<AllocFailed<T>> for DataError {
    ghost from_gives = { λ _ e. e ≡ error.OutOfMemory };

    fn from(_error: AllocFailed<T>) -> DataError {
        DataError::OutOfMemory
    }
}

impl From<OutOfMemory> for DataError {
    ghost from_gives = { λ _ e. e ≡ error.OutOfMemory };

    fn from(_error: OutOfMemory) -> DataError {
        DataError::OutOfMemory
    }
}
