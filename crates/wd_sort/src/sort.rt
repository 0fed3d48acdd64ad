ghost use Rattle.std.specs.Prelude.{◌≡◌, ◌↔◌, IfOk, IsSorted, IsTrue};
ghost use Rattle.wd_sort.specs.Sorting as sorting;
ghost use Rattle.wd_sort.specs.Sorting.{IsSortOf, IsStableSortOf};
ghost use Rattle.wd_value.specs.Rows.{rows_of};

use crate::columns::sort_by_columns;
use crate::rows::{compare_rows_at, compare_source_at};
use std::alloc::Global;
use wd_columns::{RowSource, all_positions};
use wd_value::{OutOfMemory, Row, SortColumn};

/// Fewer positions than these are sorted by their rows: finding codes for them would take longer.
const FEW: usize = 32;

/// The positions of the rows, sorted by the first column and, where rows tie, by the next one; rows that tie on all columns keep their
/// order (a stable sort). Takes n log n comparisons, and linear time for rows that are sorted already.
pub fn sorted_positions(
    alloc: Global,
    rows: &[Row],
    columns: &[SortColumn],
) -> Result<Vec<u64>, OutOfMemory>
    ensures { IfOk result (λ v. IsSortOf columns.now (rows_of rows.now) v.items) }
{
    let all = all_positions(alloc, rows.len())?;
    let order = sort_positions(alloc, rows, columns, &all)?;
    Ok(order)
}

/// The given positions, each as often as it is given, sorted by the columns of their rows; positions whose rows tie on all columns keep
/// the given order (a stable sort). A position past the last row counts as the row without columns. Takes time as `sorted_positions`
/// does.
pub fn sort_positions(
    alloc: Global,
    rows: &[Row],
    columns: &[SortColumn],
    positions: &[u64],
) -> Result<Vec<u64>, OutOfMemory>
    ensures { IfOk result (λ v. IsStableSortOf columns.now (rows_of rows.now) positions.now v.items) }
{
    sort_positions_in(alloc, &RowSource::of_rows(rows), columns, positions)
}

/// As `sort_positions`, for rows in any form.
pub fn sort_positions_in(
    alloc: Global,
    rows: &RowSource,
    columns: &[SortColumn],
    positions: &[u64],
) -> Result<Vec<u64>, OutOfMemory>
    ensures { IfOk result (λ v. IsStableSortOf columns.now rows.now positions.now v.items) }
{
    if positions.len() < FEW {
        sort_by_rows(alloc, rows, columns, positions)
    } else {
        sort_by_columns(alloc, rows, columns, positions)
    }
}

/// The given positions sorted as `sort_positions` does, by comparisons of rows.
pub fn sort_by_rows(
    alloc: Global,
    rows: &RowSource,
    columns: &[SortColumn],
    positions: &[u64],
) -> Result<Vec<u64>, OutOfMemory>
    ensures { IfOk result (λ v. IsStableSortOf columns.now rows.now positions.now v.items) }
{
    let mut order = positions.to_vec(alloc)?;
    order.sort_by(|p, q| compare_source_at(rows, columns, *p, *q))?;
    Ok(order)
}

/// Whether the positions are in the order of the columns; positions whose rows tie may appear in any order.
pub fn is_sorted(rows: &[Row], columns: &[SortColumn], positions: &[u64]) -> bool
    ensures { IsTrue result ↔ IsSorted (sorting.compare_rows_at columns.now (rows_of rows.now)) positions.now }
{
    for i in 1..positions.len() {
        if compare_rows_at(rows, columns, positions[i], positions[i - 1]).is_lt() {
            return false;
        }
    }
    true
}
