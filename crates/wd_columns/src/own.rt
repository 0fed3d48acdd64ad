//! Rows of their own, however they are kept.

ghost use Rattle.std.specs.Prelude.{◌≡◌, IfOk, length, map};
ghost use Rattle.wd_column_store.specs.Along.{values_before, with_values};
ghost use Rattle.wd_column_store.specs.Moves.{AreDifferent, AreWithin};
ghost use Rattle.wd_columns.specs.Owned.{JoinedOr, rows_owned};
ghost use Rattle.wd_joined.specs.Alike.{AreAlikeIn};
ghost use Rattle.wd_value.specs.Rows.{columns_of, rows_at, rows_of};

use crate::copying;
use crate::source::RowSource;
use std::alloc::Global;
use std::marker::Model;
use wd_column_store::{Columns, moved_rows, picked_columns, with_values_beside};
use wd_joined::JoinedRows;
use wd_value::{OutOfMemory, Row, Value};

/// Of how many joined rows one at most is picked where the picked ones are copied.
const ROWS_FOR_EACH_COPY: usize = 64;

/// How rows are kept.
#[derive(Drop)]
enum Owned {
    ByRow(Vec<Row>),
    ByColumn(Columns),
    ByPosition(JoinedRows),
}

/// Rows of their own, which are kept row by row, column by column or by their positions in tables of their own. Contracts see the list
/// of them. What is picked, selected or extended is kept as it was, but for few rows picked of many joined ones, which are copied.
#[derive(Drop)]
pub struct OwnRows {
    owned: Owned,
}

impl Model for OwnRows {
    ghost use Rattle.std.specs.Prelude.{List};
    ghost use Rattle.wd_value.specs.Rows.{Row};

    ghost Value = { List Row };

    ghost use Rattle.wd_columns.specs.Owned.{rows_owned};

    ghost view = { λ r. rows_owned r.owned };
}

impl OwnRows {
    /// The rows of a list.
    pub fn of_rows(rows: Vec<Row>) -> OwnRows
        ensures { result ≡ rows_of rows.items }
    {
        OwnRows {
            owned: Owned::ByRow(rows),
        }
    }

    /// The rows that are kept column by column.
    pub fn of_columns(columns: Columns) -> OwnRows
        ensures { result ≡ columns }
    {
        OwnRows {
            owned: Owned::ByColumn(columns),
        }
    }

    /// Joined rows.
    pub(crate) fn of_joined(rows: JoinedRows) -> OwnRows
        ensures { result ≡ rows }
    {
        OwnRows {
            owned: Owned::ByPosition(rows),
        }
    }

    /// The rows by their positions in tables; where they are kept row by row, the rows as they are.
    pub(crate) fn into_joined(
        self,
        alloc: Global,
    ) -> Result<Result<JoinedRows, OwnRows>, OutOfMemory>
        ensures { IfOk result (λ r. JoinedOr self r) }
    {
        let OwnRows { owned } = self;
        match owned {
            Owned::ByRow(rows) => Ok(Err(OwnRows::of_rows(rows))),
            Owned::ByColumn(columns) => {
                let joined = JoinedRows::of_columns(alloc, columns)?;
                Ok(Ok(joined))
            }
            Owned::ByPosition(rows) => Ok(Ok(rows)),
        }
    }

    /// The rows to be read where they are.
    pub fn source(&self) -> RowSource<'_>
        ensures { result ≡ self.now }
    {
        match &self.owned {
            Owned::ByRow(rows) => RowSource::of_rows(rows),
            Owned::ByColumn(columns) => RowSource::of_columns(columns),
            Owned::ByPosition(rows) => RowSource::of_joined(rows),
        }
    }

    /// The rows at these positions, in their order. Values are moved: no position is there twice, and each is one of a row.
    pub fn pick(self, alloc: Global, positions: &[u64]) -> Result<OwnRows, OutOfMemory>
        requires different { AreDifferent positions.now }
        requires within { AreWithin (length self) positions.now }
        ensures { IfOk result (λ r. r ≡ rows_at self positions.now) }
    {
        let OwnRows { owned } = self;
        match owned {
            Owned::ByRow(rows) => {
                let picked = moved_rows(alloc, rows, positions)?;
                Ok(OwnRows::of_rows(picked))
            }
            Owned::ByColumn(columns) => {
                let picked = columns.pick(alloc, positions)?;
                Ok(OwnRows::of_columns(picked))
            }
            Owned::ByPosition(rows) => picked_of_joined(alloc, rows, positions),
        }
    }

    /// The rows with these of their columns. Values are moved: no column is named twice.
    pub fn select(self, alloc: Global, columns: &[u64]) -> Result<OwnRows, OutOfMemory>
        requires { AreDifferent columns.now }
        ensures { IfOk result (λ r. r ≡ map (columns_of columns.now) self) }
    {
        let OwnRows { owned } = self;
        match owned {
            Owned::ByRow(rows) => {
                let selected = picked_columns(alloc, rows, columns)?;
                Ok(OwnRows::of_rows(selected))
            }
            Owned::ByColumn(all) => {
                let selected = all.select(alloc, columns)?;
                Ok(OwnRows::of_columns(selected))
            }
            Owned::ByPosition(rows) => {
                let selected = rows.select(alloc, columns)?;
                Ok(OwnRows::of_joined(selected))
            }
        }
    }

    /// Rows that have the same values in each column that is marked, or past the marks; those kept by position have anything in the others.
    pub fn keep(self, alloc: Global, marks: &[bool]) -> Result<OwnRows, OutOfMemory>
        ensures { IfOk result (λ r. AreAlikeIn marks.now r self) }
    {
        let OwnRows { owned } = self;
        match owned {
            Owned::ByPosition(rows) => {
                let kept = rows.keep(alloc, marks)?;
                Ok(OwnRows::of_joined(kept))
            }
            Owned::ByRow(rows) => Ok(OwnRows::of_rows(rows)),
            Owned::ByColumn(columns) => Ok(OwnRows::of_columns(columns)),
        }
    }

    /// Each row with the value beside it after its own; past the last value there is NULL. The values are moved.
    pub fn with_column(self, values: Vec<Value>) -> Result<OwnRows, OutOfMemory>
        ensures { IfOk result (λ r. r ≡ with_values self values.items) }
    {
        let OwnRows { owned } = self;
        match owned {
            Owned::ByRow(rows) => {
                let extended = with_values_beside(rows, values)?;
                Ok(OwnRows::of_rows(extended))
            }
            Owned::ByColumn(columns) => {
                let extended = columns.with_column(values)?;
                Ok(OwnRows::of_columns(extended))
            }
            Owned::ByPosition(rows) => {
                let extended = rows.with_column(values)?;
                Ok(OwnRows::of_joined(extended))
            }
        }
    }

    /// Each row with a further value: that which stands so many places before the end of the other row at its position; where there is no
    /// other row, NULL. Joined rows share the column of as many other joined rows, and else the values are copied.
    pub fn with_column_of(
        self,
        alloc: Global,
        others: &RowSource,
        after: usize,
    ) -> Result<OwnRows, OutOfMemory>
        ensures { IfOk result (λ r. r ≡ with_values self (values_before others.now after)) }
    {
        let OwnRows { owned } = self;
        match owned {
            Owned::ByPosition(rows) => {
                let extended = joined_with_column_of(alloc, rows, others, after)?;
                Ok(OwnRows::of_joined(extended))
            }
            kept => {
                let values = copying::values_before(alloc, others, after)?;
                OwnRows { owned: kept }.with_column(values)
            }
        }
    }

    /// The list of the rows. Values are moved.
    pub fn into_list(self, alloc: Global) -> Result<Vec<Row>, OutOfMemory>
        ensures { IfOk result (λ v. rows_of v.items ≡ self) }
    {
        let OwnRows { owned } = self;
        match owned {
            Owned::ByRow(rows) => Ok(rows),
            Owned::ByColumn(columns) => columns.into_rows(alloc),
            Owned::ByPosition(rows) => copying::listed(alloc, &rows),
        }
    }
}

/// Joined rows at these positions, in their order. Few of many are copied, so that their tables need not stay. Each is one of a row.
fn picked_of_joined(
    alloc: Global,
    rows: JoinedRows,
    positions: &[u64],
) -> Result<OwnRows, OutOfMemory>
    requires { AreWithin (length rows) positions.now }
    ensures { IfOk result (λ r. r ≡ rows_at rows positions.now) }
{
    if positions.len() <= rows.len() / ROWS_FOR_EACH_COPY {
        copying::copy_rows(alloc, &RowSource::of_joined(&rows), positions)
    } else {
        let picked = rows.pick(alloc, positions)?;
        Ok(OwnRows::of_joined(picked))
    }
}

/// Each joined row with a further value: that which stands so many places before the end of the other row at its position. Where the
/// others are as many joined rows, these rows share that column.
fn joined_with_column_of(
    alloc: Global,
    rows: JoinedRows,
    others: &RowSource,
    after: usize,
) -> Result<JoinedRows, OutOfMemory>
    ensures { IfOk result (λ j. j ≡ with_values rows (values_before others.now after)) }
{
    match others.shared_column(rows.len(), after)? {
        Some(shared) => rows.with_shared(shared),
        None => rows.with_column(copying::values_before(alloc, others, after)?),
    }
}
