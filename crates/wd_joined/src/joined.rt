//! Rows joined of rows of several tables, which stay as they are: of each joined row only its position in each table is kept. Rows that are
//! picked or selected, or extended by a column, share the tables.

ghost use Rattle.std.specs.Option.{option_copied};
ghost use Rattle.std.specs.Prelude.{◌≡◌, List, IfOk, IfSome, length, map, unwrap_or};
ghost use Rattle.wd_column_store.specs.Along.{values_before, with_values};
ghost use Rattle.wd_column_store.specs.Moves.{AreWithin};
ghost use Rattle.wd_joined.specs.Alike.{AreAlikeIn};
ghost use Rattle.wd_joined.specs.Joined.{AreOfTables, rows_joined};
ghost use Rattle.wd_joined.specs.Pairs.{AreOf, rows_paired};
ghost use Rattle.wd_joined.specs.Stored.{HasValues, Stores};
ghost use Rattle.wd_value.specs.Rows.{column_of, columns_of, row_at, rows_at};
ghost use Rattle.wd_value.specs.declared.value.Value.{Value};
ghost use Rattle.wd_value.specs.declared.value.Value.TheVariants as value;

use crate::lists::{
    appended, each_position, first_positions, one_column, only, positions_of_all,
    positions_of_pairs, pushed, share_positions, share_tables, shared_in, stored_in, value_along,
};
use crate::needed::Needed;
use crate::origin::{
    Origin, StoredColumn, appended_behind, marked_origins, origin_at, origins_at, own_origins,
};
use crate::pairs::Pair;
use crate::shared::{SharedColumn, SharedPositions, SharedTable};
use std::alloc::Global;
use std::marker::Model;
use wd_column_store::Columns;
use wd_value::{OutOfMemory, Value};

/// Joined rows. Contracts see the list of them.
#[derive(Drop)]
pub struct JoinedRows {
    /// The tables that are joined.
    tables: Vec<SharedTable>,
    /// For each of them the position of its row in each joined row.
    positions: Vec<SharedPositions>,
    /// Where each column stands; one that stands nowhere is NULL.
    origins: Vec<Option<Origin>>,
    count: usize,
}

impl Model for JoinedRows {
    ghost use Rattle.std.specs.Prelude.{List};
    ghost use Rattle.wd_value.specs.Rows.{Row};

    ghost Value = { List Row };

    ghost use Rattle.wd_joined.specs.Joined.{AreOfTables, rows_joined};

    ghost view = { λ j. rows_joined j.tables.items j.positions.items j.origins.items j.count };

    ghost invariant = { λ j. AreOfTables j.tables.items j.positions.items j.origins.items };
}

impl JoinedRows {
    /// The rows of one table.
    pub fn of_columns(alloc: Global, columns: Columns) -> Result<JoinedRows, OutOfMemory>
        ensures { IfOk result (λ j. j ≡ columns) }
    {
        let count = columns.len();
        let origins = own_origins(alloc, columns.column_count())?;
        let positions = only(alloc, first_positions(alloc, count)?)?;
        let tables = only(alloc, SharedTable::new(alloc, columns)?)?;
        Ok(JoinedRows {
            tables,
            positions,
            origins,
            count,
        })
    }

    /// The rows of the pairs. Each pair is one of rows.
    pub fn of_pairs(
        alloc: Global,
        left: JoinedRows,
        right: JoinedRows,
        pairs: &[Pair],
    ) -> Result<JoinedRows, OutOfMemory>
        requires { AreOf (length left) (length right) pairs.now }
        ensures { IfOk result (λ j. j ≡ rows_paired left right pairs.now) }
    {
        let JoinedRows {
            tables: left_tables,
            positions: left_lists,
            origins: left_origins,
            ..
        } = left;
        let JoinedRows {
            tables: right_tables,
            positions: right_lists,
            origins: right_origins,
            ..
        } = right;
        let positions = positions_of_pairs(alloc, &left_lists, &right_lists, pairs)?;
        let before = left_tables.len();
        let tables = appended(left_tables, right_tables)?;
        let origins = appended_behind(left_origins, &right_origins, before)?;
        Ok(JoinedRows {
            tables,
            positions,
            origins,
            count: pairs.len(),
        })
    }

    /// The same rows, which share the tables and positions of these.
    pub fn share(&self, alloc: Global) -> Result<JoinedRows, OutOfMemory>
        ensures { IfOk result (λ j. j ≡ self.now) }
    {
        let tables = share_tables(alloc, &self.tables)?;
        let positions = share_positions(alloc, &self.positions)?;
        let origins = self.origins.to_vec(alloc)?;
        Ok(JoinedRows {
            tables,
            positions,
            origins,
            count: self.count,
        })
    }

    /// How many rows there are.
    pub fn len(&self) -> usize
        ensures { result ≡ length self.now }
    {
        self.count
    }

    /// How many values the row at a position has, and 0 past the last row.
    pub fn width(&self, position: u64) -> usize
        ensures { result ≡ length (row_at self.now position) }
    {
        if position as usize >= self.count {
            return 0;
        }
        self.origins.len()
    }

    /// The value in a column of the row at a position; none past the last row or column.
    pub fn get(&self, position: u64, column: usize) -> Option<&Value>
        ensures { unwrap_or (option_copied result) value.Null ≡ column_of (row_at self.now position) column }
    {
        if position as usize >= self.count {
            return None;
        }
        value_along(
            &self.tables,
            &self.positions,
            position as usize,
            &self.origins,
            column,
        )
    }

    /// The column with a number as it is stored; none where it stands nowhere.
    pub fn stored_column(&self, column: usize) -> Option<StoredColumn<'_>>
        ensures { IfSome result (Stores self.now column) }
    {
        stored_in(&self.tables, &self.positions, &self.origins, column)
    }

    /// The column that stands so many places before the end of each row, shared; none where it stands nowhere.
    pub fn shared_column(&self, after: usize) -> Result<Option<SharedColumn>, OutOfMemory>
        ensures { IfOk result (λ o. IfSome o (HasValues (length self.now) (values_before self.now after))) }
    {
        let column = self.origins.len().saturating_sub(after);
        shared_in(
            &self.tables,
            &self.positions,
            origin_at(&self.origins, column),
        )
    }

    /// The rows at these positions, in their order. Each is one of a row.
    pub fn pick(self, alloc: Global, positions: &[u64]) -> Result<JoinedRows, OutOfMemory>
        requires { AreWithin (length self) positions.now }
        ensures { IfOk result (λ j. j ≡ rows_at self positions.now) }
    {
        let JoinedRows {
            tables,
            positions: all,
            origins,
            ..
        } = self;
        let picked = positions_of_all(alloc, &all, positions)?;
        Ok(JoinedRows {
            tables,
            positions: picked,
            origins,
            count: positions.len(),
        })
    }

    /// The rows with these of their columns.
    pub fn select(self, alloc: Global, columns: &[u64]) -> Result<JoinedRows, OutOfMemory>
        ensures { IfOk result (λ j. j ≡ map (columns_of columns.now) self) }
    {
        let JoinedRows {
            tables,
            positions,
            origins,
            count,
        } = self;
        let picked = origins_at(alloc, &origins, columns)?;
        JoinedRows::of_needed(alloc, &tables, &positions, &picked, count)
    }

    /// Rows that have the same values in each column that is marked, or past the marks, and anything in the others, so that they share no
    /// table in which only such others stand.
    pub fn keep(self, alloc: Global, marks: &[bool]) -> Result<JoinedRows, OutOfMemory>
        ensures { IfOk result (λ j. AreAlikeIn marks.now j self) }
    {
        let JoinedRows {
            tables,
            positions,
            origins,
            count,
        } = self;
        let kept = marked_origins(alloc, &origins, marks)?;
        JoinedRows::of_needed(alloc, &tables, &positions, &kept, count)
    }

    /// So many rows with columns that stand there. They share the tables in which a column stands, and not the others.
    fn of_needed(
        alloc: Global,
        tables: &[SharedTable],
        positions: &[SharedPositions],
        origins: &[Option<Origin>],
        count: usize,
    ) -> Result<JoinedRows, OutOfMemory>
        requires { AreOfTables tables.now positions.now origins.now }
        ensures { IfOk result (λ j. j ≡ rows_joined tables.now positions.now origins.now count) }
    {
        let mut needed = Needed::none(alloc, tables.len())?;
        let mut placed = Vec::with_capacity(alloc, origins.len())?;
        for origin in origins {
            placed.push(needed.origin_of(tables, positions, *origin)?)?;
        }
        Ok(JoinedRows {
            tables: needed.tables,
            positions: needed.positions,
            origins: placed,
            count,
        })
    }

    /// Each row with the value beside it after its own; past the last value there is NULL. The values are a further table.
    pub fn with_column(self, values: Vec<Value>) -> Result<JoinedRows, OutOfMemory>
        ensures { IfOk result (λ j. j ≡ with_values self values.items) }
    {
        let alloc = *values.allocator();
        let positions = each_position(alloc, &self.positions, self.count)?;
        let table = one_column(alloc, values)?;
        self.with_shared(SharedColumn {
            table,
            column: 0,
            positions,
        })
    }

    /// Each row with the value that a shared column has for it after its own.
    pub fn with_shared(self, shared: SharedColumn) -> Result<JoinedRows, OutOfMemory>
        ensures { IfOk result (λ j. (values : List Value) → HasValues (length self) values shared → j ≡ with_values self values) }
    {
        let SharedColumn {
            table,
            column,
            positions: list,
        } = shared;
        let JoinedRows {
            tables,
            positions,
            origins,
            count,
        } = self;
        let number = tables.len();
        let tables = pushed(tables, table)?;
        let positions = pushed(positions, list)?;
        let origins = pushed(
            origins,
            Some(Origin {
                table: number,
                column,
            }),
        )?;
        Ok(JoinedRows {
            tables,
            positions,
            origins,
            count,
        })
    }
}
