//! Copies of rows.

ghost use Rattle.std.specs.Prelude.{◌≡◌, ◌++◌, All, IfOk, IfSome, OnOk, length, map, true};
ghost use Rattle.wd_column_store.specs.Along as along;
ghost use Rattle.wd_value.specs.Rows.{column_of, row_at, rows_at, rows_of};

use crate::own::OwnRows;
use crate::source::RowSource;
use std::alloc::Global;
use wd_column_store::{Columns, all_positions};
use wd_joined::JoinedRows;
use wd_value::{OutOfMemory, Row, Value};

/// Copies of the rows at these positions, in their order: kept column by column where they have as many values, and else row by row.
pub fn copy_rows(alloc: Global, rows: &RowSource, positions: &[u64]) -> Result<OwnRows, OutOfMemory>
    ensures { IfOk result (λ r. r ≡ rows_at rows.now positions.now) }
{
    let width = match positions.first() {
        Some(position) => rows.width(*position),
        None => 0,
    };
    if have_width(rows, positions, width) {
        let columns = copied_columns(alloc, rows, positions, width)?;
        Ok(OwnRows::of_columns(columns))
    } else {
        let list = copied_rows(alloc, rows, positions)?;
        Ok(OwnRows::of_rows(list))
    }
}

/// All rows as rows of their own: they share what joined rows are made of, and are copies of other rows, kept likewise.
pub fn copy_all(alloc: Global, rows: &RowSource) -> Result<OwnRows, OutOfMemory>
    ensures { IfOk result (λ r. r ≡ rows.now) }
{
    match share_rows(alloc, rows)? {
        Some(shared) => Ok(shared),
        None => {
            let all = all_positions(alloc, rows.len())?;
            copy_rows(alloc, rows, &all)
        }
    }
}

/// The same rows, where they are joined rows: no value is copied. `None` for other rows.
pub fn share_rows(alloc: Global, rows: &RowSource) -> Result<Option<OwnRows>, OutOfMemory>
    ensures { IfOk result (λ o. IfSome o (λ r. r ≡ rows.now)) }
{
    match rows.joined() {
        Some(joined) => {
            let shared = joined.share(alloc)?;
            Ok(Some(OwnRows::of_joined(shared)))
        }
        None => Ok(None),
    }
}

/// Copies of joined rows as a list.
pub(crate) fn listed(alloc: Global, rows: &JoinedRows) -> Result<Vec<Row>, OutOfMemory>
    ensures { IfOk result (λ v. rows_of v.items ≡ rows.now) }
{
    let all = all_positions(alloc, rows.len())?;
    let list = copied_rows(alloc, &RowSource::of_joined(rows), &all)?;
    Ok(list)
}

/// Whether each row at these positions has this number of values.
fn have_width(rows: &RowSource, positions: &[u64], width: usize) -> bool
    ensures { result ≡ true → All (λ row. length row ≡ width) (rows_at rows.now positions.now) }
{
    positions
        .iter()
        .all(|position| rows.width(*position) == width)
}

/// The rows at these positions, all of this width, column by column.
fn copied_columns(
    alloc: Global,
    rows: &RowSource,
    positions: &[u64],
    width: usize,
) -> Result<Columns, OutOfMemory>
    requires { All (λ row. length row ≡ width) (rows_at rows.now positions.now) }
    ensures { IfOk result (λ c. c ≡ rows_at rows.now positions.now) }
{
    let mut columns = Vec::with_capacity(alloc, width)?;
    for column in 0..width {
        columns.push(copied_column(alloc, rows, positions, column)?)?;
    }
    Ok(Columns::new(columns, positions.len()))
}

/// The values in a column of the rows at these positions.
fn copied_column(
    alloc: Global,
    rows: &RowSource,
    positions: &[u64],
    column: usize,
) -> Result<Vec<Value>, OutOfMemory>
    ensures { IfOk result (λ v. v.items ≡ map (λ row. column_of row column) (rows_at rows.now positions.now)) }
{
    let mut values = Vec::with_capacity(alloc, positions.len())?;
    for position in positions {
        values.push(rows.value(*position, column).copy(alloc)?)?;
    }
    Ok(values)
}

/// Copies of the values that stand so many places before the end of each row.
pub(crate) fn values_before(
    alloc: Global,
    rows: &RowSource,
    after: usize,
) -> Result<Vec<Value>, OutOfMemory>
    ensures { IfOk result (λ v. v.items ≡ along.values_before rows.now after) }
{
    let mut values = Vec::with_capacity(alloc, rows.len())?;
    for position in 0..rows.len() {
        let column = rows.width(position as u64).saturating_sub(after);
        values.push(rows.value(position as u64, column).copy(alloc)?)?;
    }
    Ok(values)
}

/// The rows at these positions as a list.
fn copied_rows(alloc: Global, rows: &RowSource, positions: &[u64]) -> Result<Vec<Row>, OutOfMemory>
    ensures { IfOk result (λ v. rows_of v.items ≡ rows_at rows.now positions.now) }
{
    let mut picked = Vec::with_capacity(alloc, positions.len())?;
    for position in positions {
        picked.push(copied_row(alloc, rows, *position)?)?;
    }
    Ok(picked)
}

/// A copy of the row at a position.
fn copied_row(alloc: Global, rows: &RowSource, position: u64) -> Result<Row, OutOfMemory>
    ensures { IfOk result (λ r. r.items ≡ row_at rows.now position) }
{
    let mut row = Vec::with_capacity(alloc, rows.width(position))?;
    push_values(alloc, &mut row, rows, position)?;
    Ok(row)
}

/// Appends copies of the values of the row at a position.
pub fn push_values(
    alloc: Global,
    row: &mut Row,
    rows: &RowSource,
    position: u64,
) -> Result<(), OutOfMemory>
    ensures { OnOk result (row.new.items ≡ row.old.items ++ row_at rows.now position) }
{
    for column in 0..rows.width(position) {
        row.push(rows.value(position, column).copy(alloc)?)?;
    }
    Ok(())
}
