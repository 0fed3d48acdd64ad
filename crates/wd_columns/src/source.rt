//! Rows to be read, however they are kept.

ghost use Rattle.std.specs.Option.{option_copied};
ghost use Rattle.std.specs.Prelude.{◌≡◌, IfOk, IfSome, length, unwrap_or};
ghost use Rattle.wd_column_store.specs.Along.{values_before};
ghost use Rattle.wd_columns.specs.Kept.{rows_kept};
ghost use Rattle.wd_joined.specs.Stored.{HasValues, Stores};
ghost use Rattle.wd_value.specs.Rows as table;
ghost use Rattle.wd_value.specs.Rows.{column_of, rows_of};
ghost use Rattle.wd_value.specs.declared.value.Value.TheVariants as value;

use std::marker::Model;
use wd_column_store::Columns;
use wd_joined::{JoinedRows, SharedColumn, StoredColumn};
use wd_value::{OutOfMemory, Row, Value};

/// How rows are kept.
#[derive(Drop)]
enum Kept<'a> {
    ByRow(&'a [Row]),
    ByColumn(&'a Columns),
    ByPosition(&'a JoinedRows),
}

/// Rows to be read, which are kept row by row, column by column or by their positions in other tables. Contracts see the list of them.
#[derive(Drop)]
pub struct RowSource<'a> {
    kept: Kept<'a>,
    /// What is read past the last row or column.
    null: Value,
}

impl<'a> Model for RowSource<'a> {
    ghost use Rattle.std.specs.Prelude.{List};
    ghost use Rattle.wd_value.specs.Rows.{Row};

    ghost Value = { List Row };

    ghost use Rattle.wd_columns.specs.Kept.{rows_kept};

    ghost view = { λ s. rows_kept s.kept };

    ghost use Rattle.std.specs.Prelude.{◌≡◌};
    ghost use Rattle.wd_value.specs.declared.value.Value.TheVariants as value;

    ghost invariant = { λ s. s.null ≡ value.Null };
}

impl<'a> RowSource<'a> {
    /// The rows of a list.
    pub fn of_rows(rows: &'a [Row]) -> RowSource<'a>
        ensures { result ≡ rows_of rows.now }
    {
        RowSource {
            kept: Kept::ByRow(rows),
            null: Value::Null,
        }
    }

    /// The rows that are kept column by column.
    pub fn of_columns(columns: &'a Columns) -> RowSource<'a>
        ensures { result ≡ columns.now }
    {
        RowSource {
            kept: Kept::ByColumn(columns),
            null: Value::Null,
        }
    }

    /// Joined rows.
    pub(crate) fn of_joined(rows: &'a JoinedRows) -> RowSource<'a>
        ensures { result ≡ rows.now }
    {
        RowSource {
            kept: Kept::ByPosition(rows),
            null: Value::Null,
        }
    }

    /// How many rows there are.
    pub fn len(&self) -> usize
        ensures { result ≡ length self.now }
    {
        count_of(&self.kept)
    }

    /// How many values the row at a position has, and 0 past the last row.
    pub fn width(&self, position: u64) -> usize
        ensures { result ≡ length (table.row_at self.now position) }
    {
        width_of(&self.kept, position)
    }

    /// The value in a column of the row at a position, and NULL past the last row or column.
    pub fn value(&self, position: u64, column: usize) -> &Value
        ensures { result.now ≡ column_of (table.row_at self.now position) column }
    {
        value_of(&self.kept, position, column).unwrap_or(&self.null)
    }

    /// The joined rows that are read, if they are such.
    pub(crate) fn joined(&self) -> Option<&JoinedRows>
        ensures { IfSome result (λ rows. rows.now ≡ self.now) }
    {
        match self.kept {
            Kept::ByPosition(rows) => Some(rows),
            Kept::ByRow(_) | Kept::ByColumn(_) => None,
        }
    }

    /// A column as it is stored, where the rows are kept by their positions in other tables.
    pub fn stored_column(&self, column: usize) -> Option<StoredColumn<'_>>
        ensures { IfSome result (Stores self.now column) }
    {
        column_stored(&self.kept, column)
    }

    /// The column that stands so many places before the end of each row, shared, where so many joined rows are read.
    pub(crate) fn shared_column(
        &self,
        count: usize,
        after: usize,
    ) -> Result<Option<SharedColumn>, OutOfMemory>
        ensures { IfOk result (λ o. IfSome o (HasValues count (values_before self.now after))) }
    {
        match self.joined() {
            Some(rows) if rows.len() == count => rows.shared_column(after),
            _ => Ok(None),
        }
    }

    /// NULL, as it is read past the last row or column.
    pub fn null(&self) -> &Value
        ensures { result.now ≡ value.Null }
    {
        &self.null
    }
}

fn count_of(kept: &Kept) -> usize
    ensures { result ≡ length (rows_kept kept.now) }
{
    match kept {
        Kept::ByRow(rows) => rows.len(),
        Kept::ByColumn(columns) => columns.len(),
        Kept::ByPosition(rows) => rows.len(),
    }
}

fn width_of(kept: &Kept, position: u64) -> usize
    ensures { result ≡ length (table.row_at (rows_kept kept.now) position) }
{
    match kept {
        Kept::ByRow(rows) => row_in(rows, position).len(),
        Kept::ByColumn(columns) => columns.width(position),
        Kept::ByPosition(rows) => rows.width(position),
    }
}

/// The value in a column of the row at a position; none past the last row or column.
fn value_of<'a>(kept: &'a Kept, position: u64, column: usize) -> Option<&'a Value>
    ensures { unwrap_or (option_copied result) value.Null ≡ column_of (table.row_at (rows_kept kept.now) position) column }
{
    match kept {
        Kept::ByRow(rows) => row_in(rows, position).get(column),
        Kept::ByColumn(columns) => columns.get(position, column),
        Kept::ByPosition(rows) => rows.get(position, column),
    }
}

fn column_stored<'a>(kept: &'a Kept, column: usize) -> Option<StoredColumn<'a>>
    ensures { IfSome result (Stores (rows_kept kept.now) column) }
{
    match kept {
        Kept::ByPosition(rows) => rows.stored_column(column),
        Kept::ByRow(_) | Kept::ByColumn(_) => None,
    }
}

/// The row at a position, and the empty row past the last.
pub fn row_in(rows: &[Row], position: u64) -> &[Value]
    ensures { result.now ≡ table.row_at (rows_of rows.now) position }
{
    match rows.get(position as usize) {
        Some(row) => row,
        None => &[],
    }
}
