//! Both sides of pairs, and the rows of pairs. Where the rows of both sides are kept by their positions, column by column, or in tables
//! that are small beside the pairs, the pairs' rows are their positions and no value is copied.

ghost use Rattle.std.specs.Prelude.{◌≡◌, IfOk, IfSome};
ghost use Rattle.wd_joined.specs.Pairs.{rows_paired};
ghost use Rattle.wd_nodes.specs.Relation.{stored_rows_of};
ghost use Rattle.wd_nodes.specs.Sides.{AreSides, OwnOr};
ghost use Rattle.wd_nodes.specs.declared.stored.StoredRows.TheVariants as spec;
ghost use Rattle.wd_value.specs.Rows.{Instance, table_at};

use crate::stored::StoredRows;
use crate::tables::Tables;
use std::alloc::Global;
use wd_columns::{OwnRows, Pair, Pairing, copy_all, pair_rows, share_rows};
use wd_join::paired_rows;
use wd_value::OutOfMemory;

/// The rows of pairs by their positions, or both sides.
#[derive(Drop)]
pub(crate) enum Sides {
    Joined(OwnRows),
    Apart(StoredRows, StoredRows),
}

/// Stores the rows of pairs that are known by their positions.
pub(crate) fn store_pairs(
    alloc: Global,
    tables: &Tables,
    left: StoredRows,
    right: StoredRows,
    pairs: &[Pair],
) -> Result<StoredRows, OutOfMemory>
    ensures { IfOk result (λ s. stored_rows_of tables.now s ≡ rows_paired (stored_rows_of tables.now left) (stored_rows_of tables.now right) pairs.now) }
{
    match join_sides(alloc, tables, left, right, pairs)? {
        Sides::Joined(rows) => Ok(StoredRows::Own(rows)),
        Sides::Apart(left, right) => {
            let rows = paired_rows(alloc, &tables.source(&left), &tables.source(&right), pairs)?;
            Ok(StoredRows::Own(rows))
        }
    }
}

/// The rows of the pairs by their positions, or both sides where these are not kept so.
pub(crate) fn join_sides(
    alloc: Global,
    tables: &Tables,
    left: StoredRows,
    right: StoredRows,
    pairs: &[Pair],
) -> Result<Sides, OutOfMemory>
    ensures { IfOk result (λ s. AreSides tables.now left right pairs.now s) }
{
    match own_side(alloc, tables, left, pairs)? {
        Ok(first) => join_to(alloc, tables, first, right, pairs),
        Err(first) => Ok(Sides::Apart(first, right)),
    }
}

/// The same where the left rows are rows of their own.
fn join_to(
    alloc: Global,
    tables: &Tables,
    left: OwnRows,
    right: StoredRows,
    pairs: &[Pair],
) -> Result<Sides, OutOfMemory>
    ensures { IfOk result (λ s. AreSides tables.now (spec.Own left) right pairs.now s) }
{
    match own_side(alloc, tables, right, pairs)? {
        Ok(second) => join_own(alloc, left, second, pairs),
        Err(second) => Ok(Sides::Apart(StoredRows::Own(left), second)),
    }
}

/// The same where both sides are rows of their own.
fn join_own(
    alloc: Global,
    left: OwnRows,
    right: OwnRows,
    pairs: &[Pair],
) -> Result<Sides, OutOfMemory>
    ensures { IfOk result (λ s. (instance : Instance) → AreSides instance (spec.Own left) (spec.Own right) pairs.now s) }
{
    match pair_rows(alloc, left, right, pairs)? {
        Pairing::Joined(rows) => Ok(Sides::Joined(rows)),
        Pairing::Apart(left, right) => Ok(Sides::Apart(
            StoredRows::Own(left),
            StoredRows::Own(right),
        )),
    }
}

/// Moves a side of pairs into rows of their own, or gives it back where it is a table that would have to be copied and is not small beside
/// the pairs.
fn own_side(
    alloc: Global,
    tables: &Tables,
    side: StoredRows,
    pairs: &[Pair],
) -> Result<Result<OwnRows, StoredRows>, OutOfMemory>
    ensures { IfOk result (λ r. OwnOr tables.now side r) }
{
    match side {
        StoredRows::Own(rows) => Ok(Ok(rows)),
        StoredRows::Table(number) => match own_table(alloc, tables, number, pairs)? {
            Some(rows) => Ok(Ok(rows)),
            None => Ok(Err(StoredRows::Table(number))),
        },
    }
}

/// A table's rows as rows of their own, which they share, or of which they are copies where the table has at most half as many rows as
/// there are pairs. `None` for other tables.
fn own_table(
    alloc: Global,
    tables: &Tables,
    number: u16,
    pairs: &[Pair],
) -> Result<Option<OwnRows>, OutOfMemory>
    ensures { IfOk result (λ o. IfSome o (λ r. r ≡ table_at tables.now number)) }
{
    let rows = tables.table(number);
    if rows.len() <= pairs.len() / 2 {
        let copied = copy_all(alloc, &rows)?;
        Ok(Some(copied))
    } else {
        share_rows(alloc, &rows)
    }
}
