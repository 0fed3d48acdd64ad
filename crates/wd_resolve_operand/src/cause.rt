//! Why a query has no plan.

ghost use Rattle.std.specs.Prelude.{◌≡◌};
ghost use Rattle.wd_resolve_operand.specs.Causes.{error_number};
ghost use Rattle.wd_resolve_operand.specs.Causes as spec;
ghost use Rattle.wd_resolve_operand.specs.declared.cause.ResolveError.TheVariants as error;

use std::alloc::{AllocError, AllocFailed};
use thiserror::Error;
use wd_value::OutOfMemory;

/// A cause for which a query has no plan.
#[derive(Clone, Copy, Debug, PartialEq, Eq, Error)]
pub enum Cause {
    /// 401: a table that is not in the schema, or not in FROM.
    #[error("a table that is not in the schema, or not in FROM")]
    UnknownTable,
    /// 402: a column that is not in scope.
    #[error("a column that is not in scope")]
    UnknownColumn,
    /// 403: a name that several columns or outputs carry, or a table name twice in one FROM.
    #[error("an ambiguous name, or a table name twice in one FROM")]
    Ambiguous,
    /// 404: an operand of another type than its place requires, or a number past 9223372036854775807.
    #[error("an operand of the wrong type, or a number that is too large")]
    Types,
    /// 405: an unknown function, wrong arguments, or a function without OVER that is no aggregate.
    #[error("an unknown function, wrong arguments, or a function without OVER that is no aggregate")]
    WrongCall,
    /// 406: a window call outside the select list, or in another window call.
    #[error("a window call outside the select list, or in another window call")]
    CallNotAllowed,
    /// 407: an unknown window, or a window name twice.
    #[error("an unknown window, or a window name twice")]
    UnknownWindow,
    /// 408: a window copies another and repeats a clause that it may not repeat.
    #[error("a window that copies another gives what it may not")]
    WindowCopy,
    /// 409: the bounds of a frame in the wrong order.
    #[error("the bounds of a frame in a wrong order")]
    FrameBounds,
    /// 410: an offset in RANGE without exactly one sort key, of whole numbers.
    #[error("an offset in RANGE without exactly one sort key, of whole numbers")]
    RangeOffset,
    /// 411: GROUPS without ORDER BY.
    #[error("GROUPS without ORDER BY")]
    GroupsWithoutOrder,
    /// 412: an ordinal that names no output, or another bare literal as a final sort key.
    #[error("an ordinal that names no output, or another bare literal as a sort key")]
    WrongSortKey,
    /// 413: WITH TIES without ORDER BY.
    #[error("WITH TIES without ORDER BY")]
    TiesWithoutOrder,
    /// 414: with DISTINCT, a sort key that is not an output.
    #[error("with DISTINCT, a sort key that is no output")]
    ForeignSortKey,
    /// 415: more than 1,024 columns at a node, or more than 8 tables in one FROM.
    #[error("more than 1,024 columns at a node, or more than 8 tables in one FROM")]
    TooMany,
    /// 416: an aggregate or GROUPING where none may appear, or within an aggregate.
    #[error("an aggregate or GROUPING where none may stand, or within an aggregate")]
    GroupCallNotAllowed,
    /// 417: in a grouped query, a column outside an aggregate that the query is not grouped by.
    #[error("in a grouped query, a column that is not grouped by, outside an aggregate")]
    NotGrouped,
    /// 418: GROUPING of a column that the query is not grouped by.
    #[error("GROUPING of a column that is not grouped by")]
    GroupingOfOther,
    /// 419: more than 64 grouping sets.
    #[error("more than 64 grouping sets")]
    TooManySets,
}

impl Cause {
    /// The refusal's number.
    pub fn number(self) -> u32
        ensures { result ≡ spec.number self }
    {
        match self {
            Cause::UnknownTable => 401,
            Cause::UnknownColumn => 402,
            Cause::Ambiguous => 403,
            Cause::Types => 404,
            Cause::WrongCall => 405,
            Cause::CallNotAllowed => 406,
            Cause::UnknownWindow => 407,
            Cause::WindowCopy => 408,
            Cause::FrameBounds => 409,
            Cause::RangeOffset => 410,
            Cause::GroupsWithoutOrder => 411,
            Cause::WrongSortKey => 412,
            Cause::TiesWithoutOrder => 413,
            Cause::ForeignSortKey => 414,
            Cause::TooMany => 415,
            Cause::GroupCallNotAllowed => 416,
            Cause::NotGrouped => 417,
            Cause::GroupingOfOther => 418,
            Cause::TooManySets => 419,
        }
    }
}

/// Why a query is refused.
#[derive(Clone, Copy, Debug, PartialEq, Eq, Error)]
pub enum ResolveError {
    /// 401 to 419: the query has no plan.
    #[error("no plan: {0}")]
    Refused(Cause),
    /// The allocator refused to allocate.
    #[error("out of memory")]
    OutOfMemory,
}

impl ResolveError {
    /// The refusal's number, or `None` where memory ran out.
    pub fn number(&self) -> Option<u32>
        ensures { result ≡ error_number self.now }
    {
        match self {
            ResolveError::Refused(cause) => Some(cause.number()),
            ResolveError::OutOfMemory => None,
        }
    }

    /// Always `None`: no refusal of a query's meaning names a place.
    pub fn place(&self) -> Option<u64>
        ensures { result ≡ None }
    {
        None
    }
}

impl From<AllocError> for ResolveError {
    ghost from_gives = { λ _ e. e ≡ error.OutOfMemory };

    fn from(_error: AllocError) -> ResolveError {
        ResolveError::OutOfMemory
    }
}

impl<T: Drop> From<AllocFailed<T>> for ResolveError {
    ghost from_gives = { λ _ e. e ≡ error.OutOfMemory };

    fn from(_error: AllocFailed<T>) -> ResolveError {
        ResolveError::OutOfMemory
    }
}

impl From<OutOfMemory> for ResolveError {
    ghost from_gives = { λ _ e. e ≡ error.OutOfMemory };

    fn from(_error: OutOfMemory) -> ResolveError {
        ResolveError::OutOfMemory
    }
}
