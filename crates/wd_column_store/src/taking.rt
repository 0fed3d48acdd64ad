//! Rows made of the values of columns, which are moved.

ghost use Rattle.std.specs.Prelude.{◌≡◌, ◌<◌, ℕ, IfOk, OnOk, length, slice_index_or};
ghost use Rattle.wd_column_store.specs.Along.{row_along, rows_along};
ghost use Rattle.wd_value.specs.Rows.{row_at, rows_of};
ghost use Rattle.wd_value.specs.declared.value.Value.TheVariants as value;

use std::alloc::Global;
use std::mem::replace;
use wd_value::{OutOfMemory, Row, Value};

/// The rows at the first positions.
pub fn taken_rows(
    alloc: Global,
    columns: Vec<Vec<Value>>,
    count: usize,
) -> Result<Vec<Row>, OutOfMemory>
    ensures { IfOk result (λ v. rows_of v.items ≡ rows_along (rows_of columns.items) count) }
{
    let mut rows = Vec::with_capacity(alloc, count)?;
    let mut left = columns;
    for position in 0..count {
        let row = take_row(alloc, &mut left, position)?;
        rows.push(row)?;
    }
    Ok(rows)
}

/// Takes the row at a position out.
fn take_row(
    alloc: Global,
    columns: &mut Vec<Vec<Value>>,
    position: usize,
) -> Result<Row, OutOfMemory>
    ensures taken { IfOk result (λ r. r.items ≡ row_along (rows_of columns.old.items) position) }
    ensures others { OnOk result ((p : ℕ) → (p ≡ position → ⊥) → row_along (rows_of columns.new.items) p ≡ row_along (rows_of columns.old.items) p) }
{
    let width = columns.len();
    let mut row = Vec::with_capacity(alloc, width)?;
    for place in 0..width {
        let value = take_value_at(columns, place, position);
        row.push(value)?;
    }
    Ok(row)
}

/// Takes the value at a position of the column at a place out; past the last there is NULL.
fn take_value_at(columns: &mut Vec<Vec<Value>>, place: usize, position: usize) -> Value
    ensures taken { result ≡ slice_index_or (row_at (rows_of columns.old.items) place) position value.Null }
    ensures others { (p : ℕ) → (p ≡ position → ⊥) → row_along (rows_of columns.new.items) p ≡ row_along (rows_of columns.old.items) p }
    ensures after { (k : ℕ) → place < k → row_at (rows_of columns.new.items) k ≡ row_at (rows_of columns.old.items) k }
    ensures long { length columns.new.items ≡ length columns.old.items }
{
    if place >= columns.len() {
        return Value::Null;
    }
    take_value(&mut columns[place], position)
}

/// Takes the value at a position out; past the last there is NULL.
pub fn take_value(column: &mut Vec<Value>, position: usize) -> Value
    ensures taken { result ≡ slice_index_or column.old.items position value.Null }
    ensures others { (p : ℕ) → (p ≡ position → ⊥) → slice_index_or column.new.items p value.Null ≡ slice_index_or column.old.items p value.Null }
{
    if position >= column.len() {
        return Value::Null;
    }
    replace(&mut column[position], Value::Null)
}
