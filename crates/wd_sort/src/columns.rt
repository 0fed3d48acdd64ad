//! The stable sort of positions by columns, by codes for the columns that have them.

ghost use Rattle.std.specs.Prelude.{◌≡◌, ◌<◌, IfOk, IfSome, drop, length};
ghost use Rattle.wd_sort.specs.Codes.{IsCodingBelow};
ghost use Rattle.wd_sort.specs.Sorting.{IsStableSortOf};

use crate::codes::sort_by_codes;
use crate::coding::{Coding, column_coding, combine};
use crate::sort::sort_by_rows;
use std::alloc::Global;
use wd_columns::RowSource;
use wd_value::{OutOfMemory, SortColumn};

/// The codes by the columns from `start` on.
#[derive(Drop)]
pub struct Last {
    pub start: usize,
    pub coding: Coding,
}

/// Sorts as `sort_positions` does: by the codes of as many of the last columns as fit one number, and then stably by the columns before
/// them. Where a column has no codes, it sorts by rows.
pub fn sort_by_columns(
    alloc: Global,
    rows: &RowSource,
    columns: &[SortColumn],
    positions: &[u64],
) -> Result<Vec<u64>, OutOfMemory>
    ensures { IfOk result (λ v. IsStableSortOf columns.now rows.now positions.now v.items) }
{
    let mut order = positions.to_vec(alloc)?;
    let mut left = columns.len();
    while left > 0 {
        match last_coding(alloc, rows, &columns[..left], &order)? {
            None => return sort_by_rows(alloc, rows, &columns[..left], &order),
            Some(last) => {
                let Last { start, coding } = last;
                order = sort_by_codes(alloc, coding.codes, coding.bound, &order)?;
                left = start;
            }
        }
    }
    Ok(order)
}

/// The codes by the last columns, as many as fit one number of 64 bits; `None` where the last one has no codes.
pub fn last_coding(
    alloc: Global,
    rows: &RowSource,
    columns: &[SortColumn],
    positions: &[u64],
) -> Result<Option<Last>, OutOfMemory>
    requires { 0 < length columns.now }
    ensures { IfOk result (λ o. IfSome o (λ l. (l.start < length columns.now) × IsCodingBelow (drop l.start columns.now) rows.now positions.now l.coding.bound l.coding.codes.items)) }
{
    let mut start = columns.len() - 1;
    let Some(mut coding) = column_coding(alloc, rows, columns[start], positions)? else {
        return Ok(None);
    };
    while start > 0 {
        let Some(first) = column_coding(alloc, rows, columns[start - 1], positions)? else {
            break;
        };
        let Some(more) = combine(first, &coding) else {
            break;
        };
        coding = more;
        start -= 1;
    }
    Ok(Some(Last { start, coding }))
}
