//! Rows that a step reads where they are.

ghost use Rattle.std.specs.Prelude.{◌≡◌, IfOk, length};
ghost use Rattle.wd_column_store.specs.Moves.{AreDifferent, AreWithin};
ghost use Rattle.wd_nodes.specs.Relation.{stored_rows_of};
ghost use Rattle.wd_value.specs.Rows.{rows_at};

use crate::tables::Tables;
use std::alloc::Global;
use wd_columns::{OwnRows, RowSource, copy_all, copy_rows, share_rows};
use wd_value::OutOfMemory;

/// Rows that are there: those of a table by its number, which stay where they are, or rows of their own.
#[derive(Drop)]
pub enum StoredRows {
    Table(u16),
    Own(OwnRows),
}

/// Moves stored rows into rows of their own, for which those of a table are copied, or shared where they are joined rows.
pub fn into_own_rows(
    alloc: Global,
    tables: &Tables,
    stored: StoredRows,
) -> Result<OwnRows, OutOfMemory>
    ensures { IfOk result (λ r. r ≡ stored_rows_of tables.now stored) }
{
    match stored {
        StoredRows::Table(number) => copy_all(alloc, &tables.table(number)),
        StoredRows::Own(rows) => Ok(rows),
    }
}

/// Moves out the stored rows at these positions, in their order; only those of a table that has no joined rows are copied. No position is
/// there twice, and each is one of a row.
pub fn pick_rows(
    alloc: Global,
    tables: &Tables,
    stored: StoredRows,
    positions: &[u64],
) -> Result<StoredRows, OutOfMemory>
    requires different { AreDifferent positions.now }
    requires within { AreWithin (length (stored_rows_of tables.now stored)) positions.now }
    ensures { IfOk result (λ s. stored_rows_of tables.now s ≡ rows_at (stored_rows_of tables.now stored) positions.now) }
{
    match stored {
        StoredRows::Table(number) => {
            let picked = pick_of_table(alloc, &tables.table(number), positions)?;
            Ok(StoredRows::Own(picked))
        }
        StoredRows::Own(rows) => {
            let picked = rows.pick(alloc, positions)?;
            Ok(StoredRows::Own(picked))
        }
    }
}

/// The rows of a table at these positions: joined rows are shared, others copied.
fn pick_of_table(
    alloc: Global,
    table: &RowSource,
    positions: &[u64],
) -> Result<OwnRows, OutOfMemory>
    requires different { AreDifferent positions.now }
    requires within { AreWithin (length table.now) positions.now }
    ensures { IfOk result (λ r. r ≡ rows_at table.now positions.now) }
{
    match share_rows(alloc, table)? {
        Some(shared) => shared.pick(alloc, positions),
        None => copy_rows(alloc, table, positions),
    }
}
