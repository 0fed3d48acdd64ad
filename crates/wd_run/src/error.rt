//! Why a run is refused.

ghost use Rattle.std.specs.Prelude.{◌≡◌};
ghost use Rattle.wd_run.specs.Causes.{ComesFrom, run_number, run_place};
ghost use Rattle.wd_run.specs.declared.error.RunError.TheVariants as error;

use std::alloc::{AllocError, AllocFailed};
use thiserror::Error;
use wd_eval::EvalError;
use wd_query::TextError;
use wd_tables::DataError;
use wd_value::{OutOfMemory, Text};

/// Why a run is refused.
#[derive(Debug, Drop, Error)]
pub enum RunError {
    /// The schema's text or the query's is refused.
    #[error(transparent)]
    Texts(TextError),
    /// 707: no table has the name, or it is given twice, or the table of this name is read by the query and has no data.
    #[error("no such table, or data given twice or not at all")]
    Given { name: Text },
    /// The data of the table with this name is refused.
    #[error("{error}")]
    Data { name: Text, error: DataError },
    /// 802: a step of the plan has more than 10,000,000 rows.
    #[error(transparent)]
    Evaluation(EvalError),
    /// The allocator refused to allocate.
    #[error("out of memory")]
    OutOfMemory,
}

/// Which of its inputs a run's refusal is about.
#[derive(Clone, Copy)]
pub enum Origin<'a> {
    Schema,
    Query,
    /// The data that was given, or is missing, under this name.
    Data(&'a str),
    Run,
}

impl RunError {
    /// The refusal's number, or `None` where memory ran out.
    pub fn number(&self) -> Option<u32>
        ensures { result ≡ run_number self.now }
    {
        match self {
            RunError::Texts(error) => error.number(),
            RunError::Given { .. } => Some(707),
            RunError::Data { error, .. } => error.number(),
            RunError::Evaluation(error) => error.number(),
            RunError::OutOfMemory => None,
        }
    }

    /// The byte, the token or the record that the refusal is about.
    pub fn place(&self) -> Option<u64>
        ensures { result ≡ run_place self.now }
    {
        match self {
            RunError::Texts(error) => error.place(),
            RunError::Given { .. } => None,
            RunError::Data { error, .. } => error.place(),
            RunError::Evaluation(error) => error.place(),
            RunError::OutOfMemory => None,
        }
    }

    /// Which of the inputs the refusal is about.
    pub fn origin(&self) -> Origin<'_>
        ensures { ComesFrom self.now result }
    {
        match self {
            RunError::Texts(TextError::Schema(_)) => Origin::Schema,
            RunError::Texts(TextError::Query(_)) => Origin::Query,
            RunError::Given { name } => Origin::Data(name.as_str()),
            RunError::Data { name, .. } => Origin::Data(name.as_str()),
            RunError::Evaluation(_) => Origin::Run,
            RunError::OutOfMemory => Origin::Run,
        }
    }
}

impl From<AllocError> for RunError {
    ghost from_gives = { λ _ e. e ≡ error.OutOfMemory };

    fn from(_error: AllocError) -> RunError {
        RunError::OutOfMemory
    }
}

impl<T: Drop> From<AllocFailed<T>> for RunError {
    ghost from_gives = { λ _ e. e ≡ error.OutOfMemory };

    fn from(_error: AllocFailed<T>) -> RunError {
        RunError::OutOfMemory
    }
}

impl From<OutOfMemory> for RunError {
    ghost from_gives = { λ _ e. e ≡ error.OutOfMemory };

    fn from(_error: OutOfMemory) -> RunError {
        RunError::OutOfMemory
    }
}
