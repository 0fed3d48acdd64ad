//! Rows that are appended to those of columns.
use crate::tally::Tally;
use std::alloc::Global;
use wd_columns::{empty_columns, push_row};
use wd_value::{OutOfMemory, Row, Value, copy_row, same};

/// Rows of three values, one after another.
pub fn rows_pushed(alloc: Global, rounds: u16) -> Result<Tally, OutOfMemory> {
    let mut tally = Tally::NONE;
    let mut columns = empty_columns(alloc, 3)?;
    for round in 0..rounds {
        let before = copy_columns(alloc, &columns)?;
        let row = row_of(alloc, i64::from(round))?;
        let pushed = push_row(&mut columns, row);
        tally.count(pushed, are_same(&columns, &before));
    }
    Ok(tally)
}

fn row_of(alloc: Global, number: i64) -> Result<Row, OutOfMemory> {
    let mut row = Vec::with_capacity(alloc, 3)?;
    row.push(Value::Int(number))?;
    row.push(Value::Null)?;
    row.push(Value::Bool(true))?;
    Ok(row)
}

fn copy_columns(alloc: Global, columns: &[Vec<Value>]) -> Result<Vec<Vec<Value>>, OutOfMemory> {
    let mut copies = Vec::with_capacity(alloc, columns.len())?;
    for column in columns {
        copies.push(copy_row(alloc, column)?)?;
    }
    Ok(copies)
}

fn are_same(columns: &[Vec<Value>], others: &[Vec<Value>]) -> bool {
    columns.len() == others.len() && columns.iter().zip(others).all(|(a, b)| have_same(a, b))
}

fn have_same(column: &[Value], other: &[Value]) -> bool {
    column.len() == other.len() && column.iter().zip(other).all(|(a, b)| same(a, b))
}
