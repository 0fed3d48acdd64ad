//! Columns that grow by a row.

ghost use Rattle.std.specs.Prelude.{◌≡◌, ◌+◌, ◌<◌, ◌≤◌, ◌++◌, [], ◌∷◌, All, IfOk, OnErr, OnOk, drop, length, set};
ghost use Rattle.wd_column_store.specs.Along.{AreLong, with_row};
ghost use Rattle.wd_column_store.specs.Room.{HasRoom};
ghost use Rattle.wd_value.specs.Rows.{row_at, rows_of};

use std::alloc::Global;
use wd_value::{OutOfMemory, Row, Value};

/// So many columns without values.
pub fn empty_columns(alloc: Global, count: usize) -> Result<Vec<Vec<Value>>, OutOfMemory>
    ensures wide { IfOk result (λ v. length (rows_of v.items) ≡ count) }
    ensures empty { IfOk result (λ v. AreLong 0 (rows_of v.items)) }
{
    let mut columns = Vec::with_capacity(alloc, count)?;
    for _ in 0..count {
        columns.push(Vec::new(alloc))?;
    }
    Ok(columns)
}

/// Puts the values of a row after those of the columns, the first one after the first column's. A
/// value without a column is dropped.
///
/// # Errors
/// Where memory runs out; the columns then have the values that they had.
pub fn push_row(columns: &mut Vec<Vec<Value>>, row: Row) -> Result<(), OutOfMemory>
    ensures grown { OnOk result (rows_of columns.new.items ≡ with_row (rows_of columns.old.items) row.items) }
    ensures kept { OnErr result (rows_of columns.new.items ≡ rows_of columns.old.items) }
{
    make_room(columns)?;
    let mut place = 0;
    for value in row {
        push_at(columns, place, value);
        place += 1;
    }
    Ok(())
}

/// Room for a further value in each column.
fn make_room(columns: &mut Vec<Vec<Value>>) -> Result<(), OutOfMemory>
    ensures kept { rows_of columns.new.items ≡ rows_of columns.old.items }
    ensures room { OnOk result (All HasRoom columns.new.items) }
{
    for place in 0..columns.len() {
        columns[place].reserve(1)?;
    }
    Ok(())
}

/// Puts a value after those of the column at a place, if there is one.
fn push_at(columns: &mut Vec<Vec<Value>>, place: usize, value: Value)
    requires { All HasRoom (drop place columns.old.items) }
    ensures within { place < length columns.old.items → rows_of columns.new.items ≡ set (rows_of columns.old.items) place (row_at (rows_of columns.old.items) place ++ value ∷ []) }
    ensures past { length columns.old.items ≤ place → columns.new.items ≡ columns.old.items }
    ensures room { All HasRoom (drop (place + 1) columns.new.items) }
{
    if place < columns.len() {
        push_value(&mut columns[place], value);
    }
}

fn push_value(column: &mut Vec<Value>, value: Value)
    requires { HasRoom column.old }
    ensures { column.new.items ≡ column.old.items ++ value ∷ [] }
{
    column.push_reserved(value);
}
