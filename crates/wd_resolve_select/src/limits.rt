//! The limits of rows.

ghost use Rattle.wd_resolve_operand.specs.Causes.{Gives};
ghost use Rattle.std.specs.Prelude.{option_map};
ghost use Rattle.wd_resolve_select.specs.RowLimits.{row_limit_of};
ghost use Rattle.wd_resolve_select.specs.Sorting as spec;

use wd_resolve_operand::{Cause, ResolveError, number};
use wd_syntax::{Count, Limits, Offset};

/// How many rows are left out, how many are then returned at most, and whether with ties.
#[derive(Clone, Copy)]
pub struct RowLimit {
    pub offset: u64,
    pub count: Option<u64>,
    pub ties: bool,
}

/// The number of rows of FETCH without a number.
const ONE_ROW: u64 = 1;

/// WITH TIES needs ORDER BY.
fn resolve_ties(
    sorted: bool,
    with_ties: bool,
    count: u64,
) -> Result<(Option<u64>, bool), ResolveError>
    ensures { Gives (λ x. x) result (spec.tied sorted with_ties count) }
{
    if with_ties && !sorted {
        Err(ResolveError::Refused(Cause::TiesWithoutOrder))
    } else {
        Ok((Some(count), with_ties))
    }
}

/// The count, and whether with ties.
fn resolve_count(sorted: bool, count: Option<Count>) -> Result<(Option<u64>, bool), ResolveError>
    ensures { Gives (λ x. x) result (spec.count_meant sorted count) }
{
    match count {
        None => Ok((None, false)),
        Some(Count::Limit(n)) => Ok((Some(number(n)?), false)),
        Some(
            Count::Fetch {
                number: n,
                with_ties,
                ..
            },
        ) => {
            let n = match n {
                Some(n) => n,
                None => ONE_ROW,
            };
            resolve_ties(sorted, with_ties, number(n)?)
        }
    }
}

fn resolve_offset(offset: Option<Offset>) -> Result<u64, ResolveError>
    ensures { Gives (λ n. n) result (spec.offset_meant offset) }
{
    match offset {
        None => Ok(0),
        Some(offset) => number(offset.number),
    }
}

/// The limits, from left to right.
pub fn resolve_limits(
    sorted: bool,
    limits: Option<Limits>,
) -> Result<Option<RowLimit>, ResolveError>
    ensures { Gives (λ row_limit. option_map row_limit_of row_limit) result (spec.row_limit_meant sorted limits) }
{
    match limits {
        None => Ok(None),
        Some(Limits::OffsetFirst(offset, count)) => {
            let offset = number(offset.number)?;
            let (count, ties) = resolve_count(sorted, count)?;
            Ok(Some(RowLimit {
                offset,
                count,
                ties,
            }))
        }
        Some(Limits::CountFirst(count, offset)) => {
            let (count, ties) = resolve_count(sorted, Some(count))?;
            let offset = resolve_offset(offset)?;
            Ok(Some(RowLimit {
                offset,
                count,
                ties,
            }))
        }
    }
}
