//! First occurrences of rows.

ghost use Rattle.std.specs.Prelude.{◌≡◌, ◌≤◌, All, IfOk, length, map, true};
ghost use Rattle.wd_sort.specs.Sorting.{IsSortOf};
ghost use Rattle.wd_value.specs.Bags.{positions};
ghost use Rattle.wd_value.specs.Keys.{ascending};
ghost use Rattle.wd_plan.specs.Outcomes.{distinct};
ghost use Rattle.wd_steps.specs.Repeats as spec;
ghost use Rattle.wd_steps.specs.Repeats.{AreMarked, AreRepeats, IsRowSort};
ghost use Rattle.wd_value.specs.Order as order;
ghost use Rattle.wd_column_store.specs.Moves.{AreDifferent, AreWithin};
ghost use Rattle.wd_value.specs.Rows.{column_of, row_at, rows_at};

use std::alloc::Global;
use std::cmp::Ordering;
use wd_columns::{RowSource, all_positions};
use wd_sort::sort_positions_in;
use wd_value::{OutOfMemory, SortColumn, SortKey, compare};

const ASCENDING: SortKey = SortKey {
    desc: false,
    nulls_first: false,
};

/// The positions of the first of rows that are not distinct, in the order of the rows.
pub fn distinct_positions(alloc: Global, rows: &RowSource) -> Result<Vec<u64>, OutOfMemory>
    ensures first { IfOk result (λ v. rows_at rows.now v.items ≡ distinct rows.now) }
    ensures different { IfOk result (λ v. AreDifferent v.items) }
    ensures within { IfOk result (λ v. AreWithin (length rows.now) v.items) }
{
    let repeats = repeats_in(alloc, rows)?;
    let mut kept = Vec::new(alloc);
    for i in 0..rows.len() {
        if !repeats[i] {
            kept.push(i as u64)?;
        }
    }
    Ok(kept)
}

/// For each row whether it is the same as an earlier one. In the order of all values such rows
/// stand side by side, the first one first.
fn repeats_in(alloc: Global, rows: &RowSource) -> Result<Vec<bool>, OutOfMemory>
    ensures { IfOk result (λ v. AreRepeats rows.now v.items) }
{
    let order = sorted_rows(alloc, rows)?;
    let marks = marked_neighbours(alloc, rows, &order)?;
    Ok(marks)
}

/// Marks each position whose row is the same as the one right before it in the order.
fn marked_neighbours(
    alloc: Global,
    rows: &RowSource,
    order: &[u64],
) -> Result<Vec<bool>, OutOfMemory>
    ensures { IfOk result (λ v. AreMarked rows.now order.now (length order.now) v.items) }
{
    let mut marks = vec![in alloc; false; rows.len()]?;
    for i in 1..order.len() {
        let position = order[i] as usize;
        if position < marks.len() && are_same(rows, order[i - 1], order[i]) {
            marks[position] = true;
        }
    }
    Ok(marks)
}

/// The positions in the order of the rows' values; of rows that are the same the first one first.
fn sorted_rows(alloc: Global, rows: &RowSource) -> Result<Vec<u64>, OutOfMemory>
    ensures { IfOk result (λ v. IsRowSort rows.now v.items) }
{
    let width = rows.width(0);
    if width <= 65536 && have_width(rows, width) {
        let columns = ascending_columns(alloc, width)?;
        let order = sort_by_values(alloc, rows, &columns)?;
        Ok(order)
    } else {
        sort_by_rows(alloc, rows)
    }
}

/// Whether each row has this number of values.
fn have_width(rows: &RowSource, width: usize) -> bool
    ensures { result ≡ true → All (λ row. length row ≡ width) rows.now }
{
    for position in 0..rows.len() {
        if rows.width(position as u64) != width {
            return false;
        }
    }
    true
}

/// The positions of rows that have just these columns, sorted by all of them, which takes a column's values together.
fn sort_by_values(
    alloc: Global,
    rows: &RowSource,
    columns: &[SortColumn],
) -> Result<Vec<u64>, OutOfMemory>
    ensures { IfOk result (λ v. IsSortOf columns.now rows.now v.items) }
{
    let all = all_positions(alloc, rows.len())?;
    let order = sort_positions_in(alloc, rows, columns, &all)?;
    Ok(order)
}

/// The first columns, each ascending.
fn ascending_columns(alloc: Global, count: usize) -> Result<Vec<SortColumn>, OutOfMemory>
    requires { count ≤ 65536 }
    ensures { IfOk result (λ v. v.items ≡ map ascending (positions count)) }
{
    let mut columns = Vec::with_capacity(alloc, count)?;
    for column in 0..count {
        columns.push(SortColumn {
            column: column as u16,
            key: ASCENDING,
        })?;
    }
    Ok(columns)
}

/// The positions of rows of any widths, compared row by row.
fn sort_by_rows(alloc: Global, rows: &RowSource) -> Result<Vec<u64>, OutOfMemory>
    ensures { IfOk result (λ v. IsRowSort rows.now v.items) }
{
    let mut order = all_positions(alloc, rows.len())?;
    order.sort_unstable_by(|p, q| compare_positions(rows, *p, *q));
    Ok(order)
}

fn compare_positions(rows: &RowSource, p: u64, q: u64) -> Ordering
    ensures { result ≡ spec.compare_positions rows.now p q }
{
    compare_rows(rows, p, q).then(p.cmp(&q))
}

/// Rows compare at the first value on which they differ, and then by their length.
fn compare_rows(rows: &RowSource, p: u64, q: u64) -> Ordering
    ensures { result ≡ spec.compare_rows (row_at rows.now p) (row_at rows.now q) }
{
    let (wide, other) = (rows.width(p), rows.width(q));
    for i in 0..wide.min(other) {
        match compare_column(rows, i, p, q) {
            Ordering::Equal => {}
            found => return found,
        }
    }
    wide.cmp(&other)
}

/// Two rows compared by their values in a column.
fn compare_column(rows: &RowSource, column: usize, p: u64, q: u64) -> Ordering
    ensures { result ≡ order.compare spec.ascending (column_of (row_at rows.now p) column) (column_of (row_at rows.now q) column) }
{
    compare(rows.value(p, column), rows.value(q, column), ASCENDING)
}

fn are_same(rows: &RowSource, p: u64, q: u64) -> bool
    ensures { result ≡ spec.are_same (row_at rows.now p) (row_at rows.now q) }
{
    compare_rows(rows, p, q).is_eq()
}
