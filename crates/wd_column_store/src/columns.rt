//! Tables kept column by column.

ghost use Rattle.std.specs.Option.{option_copied};
ghost use Rattle.std.specs.Prelude.{◌≡◌, List, [], ◌∷◌, ◌++◌, All, IfOk, length, map, slice_index_or, unwrap_or};
ghost use Rattle.wd_column_store.specs.Along as along;
ghost use Rattle.wd_column_store.specs.Along.{rows_along, with_values};
ghost use Rattle.wd_column_store.specs.Moves.{AreDifferent, AreWithin};
ghost use Rattle.wd_value.specs.Rows.{Row, column_of, columns_of, row_at, rows_at, rows_of};
ghost use Rattle.wd_value.specs.declared.value.Value.TheVariants as value;

use crate::moved::moved_rows;
use crate::picking::picked_columns;
use crate::taking::taken_rows;
use std::alloc::Global;
use std::marker::Model;
use wd_value::{OutOfMemory, Row, Value};

/// A table kept column by column, without an allocation for each row. Contracts see it as the list
/// of its rows.
#[derive(Drop)]
pub struct Columns {
    /// The values of each column. Past a column's last value stands NULL.
    columns: Vec<Vec<Value>>,
    count: usize,
    /// What is read past the last row or column.
    null: Value,
}

impl Model for Columns {
    ghost Value = { List Row };

    ghost view = { λ c. rows_along (rows_of c.columns.items) c.count };

    ghost invariant = { λ c. c.null ≡ value.Null };
}

impl Columns {
    /// So many rows, with the values that the columns have at their positions.
    pub fn new(columns: Vec<Vec<Value>>, count: usize) -> Columns
        ensures { result ≡ rows_along (rows_of columns.items) count }
    {
        Columns {
            columns,
            count,
            null: Value::Null,
        }
    }

    /// No rows. Takes no memory.
    pub fn empty(alloc: Global) -> Columns
        ensures { result ≡ [] }
    {
        Columns::new(Vec::new(alloc), 0)
    }

    /// How many rows there are.
    pub fn len(&self) -> usize
        ensures { result ≡ length self.now }
    {
        self.count
    }

    /// How many values the row at a position has, and 0 past the last row.
    pub fn width(&self, position: u64) -> usize
        ensures { result ≡ length (row_at self.now position) }
    {
        if position as usize >= self.count {
            return 0;
        }
        self.columns.len()
    }

    /// How many values each row has.
    pub fn column_count(&self) -> usize
        ensures { All (λ row. length row ≡ result) self.now }
    {
        self.columns.len()
    }

    /// The value in a column of the row at a position; none past the last row or column.
    pub fn get(&self, position: u64, column: usize) -> Option<&Value>
        ensures { unwrap_or (option_copied result) value.Null ≡ column_of (row_at self.now position) column }
    {
        if position as usize >= self.count {
            return None;
        }
        value_along(&self.columns, position as usize, column)
    }

    /// The value in a column of the row at a position, and NULL past the last row or column.
    pub fn value(&self, position: u64, column: usize) -> &Value
        ensures { result.now ≡ column_of (row_at self.now position) column }
    {
        self.get(position, column).unwrap_or(&self.null)
    }

    /// Each row with the value beside it after its own; past the last value there is NULL. The values
    /// are moved.
    pub fn with_column(self, values: Vec<Value>) -> Result<Columns, OutOfMemory>
        ensures { IfOk result (λ c. c ≡ with_values self values.items) }
    {
        let Columns { columns, count, .. } = self;
        let grown = push_column(columns, values)?;
        Ok(Columns::new(grown, count))
    }

    /// The rows with these of their columns. Each column is moved: none is named twice.
    pub fn select(self, alloc: Global, columns: &[u64]) -> Result<Columns, OutOfMemory>
        requires { AreDifferent columns.now }
        ensures { IfOk result (λ c. c ≡ map (columns_of columns.now) self) }
    {
        let Columns {
            columns: all,
            count,
            ..
        } = self;
        let picked = moved_rows(alloc, all, columns)?;
        Ok(Columns::new(picked, count))
    }

    /// The rows at these positions, in their order. Values are moved: no position is there twice, and each is one of a row.
    pub fn pick(self, alloc: Global, positions: &[u64]) -> Result<Columns, OutOfMemory>
        requires different { AreDifferent positions.now }
        requires within { AreWithin (length self) positions.now }
        ensures { IfOk result (λ c. c ≡ rows_at self positions.now) }
    {
        let Columns { columns, .. } = self;
        let picked = picked_columns(alloc, columns, positions)?;
        Ok(Columns::new(picked, positions.len()))
    }

    /// The list of the rows. Values are moved.
    pub fn into_rows(self, alloc: Global) -> Result<Vec<Row>, OutOfMemory>
        ensures { IfOk result (λ v. rows_of v.items ≡ self) }
    {
        let Columns { columns, count, .. } = self;
        let rows = taken_rows(alloc, columns, count)?;
        Ok(rows)
    }
}

fn push_column(columns: Vec<Vec<Value>>, column: Vec<Value>) -> Result<Vec<Vec<Value>>, OutOfMemory>
    ensures { IfOk result (λ v. rows_of v.items ≡ rows_of columns.items ++ column.items ∷ []) }
{
    let mut grown = columns;
    grown.push(column)?;
    Ok(grown)
}

/// The value in a column of the row at a position; none past the last of either.
fn value_along(columns: &[Vec<Value>], position: usize, column: usize) -> Option<&Value>
    ensures { unwrap_or (option_copied result) value.Null ≡ column_of (along.row_along (rows_of columns.now) position) column }
{
    value_in(column_in(columns, column), position)
}

/// The column with a number, and one without values past the last.
fn column_in(columns: &[Vec<Value>], column: usize) -> &[Value]
    ensures { result.now ≡ row_at (rows_of columns.now) column }
{
    match columns.get(column) {
        Some(values) => values,
        None => &[],
    }
}

fn value_in(column: &[Value], position: usize) -> Option<&Value>
    ensures { unwrap_or (option_copied result) value.Null ≡ slice_index_or column.now position value.Null }
{
    column.get(position)
}
