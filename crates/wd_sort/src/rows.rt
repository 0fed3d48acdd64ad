//! Rows by their positions.

ghost use Rattle.std.specs.Prelude.{◌≡◌};
ghost use Rattle.wd_sort.specs.Sorting as sorting;
ghost use Rattle.wd_value.specs.Order.{compare as order};
ghost use Rattle.wd_value.specs.Rows.{column_of, row_at, rows_of};

use std::cmp::Ordering;
use wd_columns::RowSource;
use wd_value::{Row, SortColumn, compare};

/// The order of the rows at two positions by the columns: the first column on which they differ decides.
pub fn compare_rows_at(rows: &[Row], columns: &[SortColumn], p: u64, q: u64) -> Ordering
    ensures { result ≡ sorting.compare_rows_at columns.now (rows_of rows.now) p q }
{
    compare_source_at(&RowSource::of_rows(rows), columns, p, q)
}

/// As `compare_rows_at`, for rows in any form.
pub fn compare_source_at(rows: &RowSource, columns: &[SortColumn], p: u64, q: u64) -> Ordering
    ensures { result ≡ sorting.compare_rows_at columns.now rows.now p q }
{
    for column in columns {
        match compare_in(rows, *column, p, q) {
            Ordering::Equal => {}
            found => return found,
        }
    }
    Ordering::Equal
}

fn compare_in(rows: &RowSource, column: SortColumn, p: u64, q: u64) -> Ordering
    ensures { result ≡ order column.key (column_of (row_at rows.now p) column.column) (column_of (row_at rows.now q) column.column) }
{
    compare(
        rows.value(p, column.column as usize),
        rows.value(q, column.column as usize),
        column.key,
    )
}
