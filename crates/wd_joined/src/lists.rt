//! The tables of joined rows, and for each table the list of their positions there.

ghost use Rattle.std.specs.Option.{option_copied};
ghost use Rattle.std.specs.Prelude.{◌≡◌, ℕ, ◌++◌, ◌∷◌, [], IfOk, IfSome, IsTrue, None, length, map, slice_index_or, unwrap_or};
ghost use Rattle.wd_column_store.specs.Along.{rows_along};
ghost use Rattle.wd_joined.specs.Joined as joined;
ghost use Rattle.wd_joined.specs.Stored.{shared_value, stored_value};
ghost use Rattle.wd_value.specs.Bags as bags;
ghost use Rattle.wd_value.specs.declared.value.Value.TheVariants as value;

use crate::origin::{Origin, StoredColumn, origin_at};
use crate::pairs::{Pair, left_positions, right_positions};
use crate::shared::{SharedColumn, SharedPositions, SharedTable};
use std::alloc::Global;
use wd_column_store::{Columns, all_positions};
use wd_value::{OutOfMemory, Value};

/// The value of the joined row at a position in the column with a number; none past the last column.
pub(crate) fn value_along<'a>(
    tables: &'a [SharedTable],
    positions: &[SharedPositions],
    position: usize,
    origins: &[Option<Origin>],
    column: usize,
) -> Option<&'a Value>
    ensures { unwrap_or (option_copied result) value.Null ≡ joined.value_in tables.now positions.now position (slice_index_or origins.now column None) }
{
    let origin = origin_at(origins, column)?;
    let table = tables.get(origin.table)?.columns();
    table.get(
        position_in(positions, origin.table, position),
        origin.column,
    )
}

/// The column with a number as it is stored; none where it stands nowhere.
pub(crate) fn stored_in<'a>(
    tables: &'a [SharedTable],
    positions: &'a [SharedPositions],
    origins: &[Option<Origin>],
    column: usize,
) -> Option<StoredColumn<'a>>
    ensures { IfSome result (λ s. (p : ℕ) → stored_value s p ≡ joined.value_in tables.now positions.now p (slice_index_or origins.now column None)) }
{
    let origin = origin_at(origins, column)?;
    let table = tables.get(origin.table)?;
    let list = positions.get(origin.table)?;
    Some(StoredColumn {
        table: table.columns(),
        column: origin.column,
        positions: list.list(),
    })
}

/// The column that stands there, shared; none where it stands nowhere.
pub(crate) fn shared_in(
    tables: &[SharedTable],
    positions: &[SharedPositions],
    origin: Option<Origin>,
) -> Result<Option<SharedColumn>, OutOfMemory>
    ensures { IfOk result (λ o. IfSome o (λ s. (p : ℕ) → shared_value s p ≡ joined.value_in tables.now positions.now p origin)) }
{
    let Some(Origin { table, column }) = origin else {
        return Ok(None);
    };
    match (tables.get(table), positions.get(table)) {
        (Some(table), Some(list)) => {
            let positions = list.share()?;
            let table = table.share()?;
            Ok(Some(SharedColumn {
                table,
                column,
                positions,
            }))
        }
        _ => Ok(None),
    }
}

/// The position in a table of the joined row at a position.
fn position_in(positions: &[SharedPositions], table: usize, position: usize) -> u64
    ensures { result ≡ joined.position_in positions.now table position }
{
    match positions.get(table) {
        Some(shared) => shared.list().get(position).copied().unwrap_or(0),
        None => 0,
    }
}

/// For each list the positions at these places.
pub(crate) fn positions_of_all(
    alloc: Global,
    lists: &[SharedPositions],
    places: &[u64],
) -> Result<Vec<SharedPositions>, OutOfMemory>
    ensures { IfOk result (λ v. v.items ≡ map (joined.positions_at places.now) lists.now) }
{
    let mut picked = Vec::with_capacity(alloc, lists.len())?;
    for shared in lists {
        let at = positions_at(alloc, shared.list(), places)?;
        picked.push(SharedPositions::new(alloc, at)?)?;
    }
    Ok(picked)
}

/// The positions at these places of a list.
fn positions_at(alloc: Global, list: &[u64], places: &[u64]) -> Result<Vec<u64>, OutOfMemory>
    ensures { IfOk result (λ v. v.items ≡ joined.positions_at places.now list.now) }
{
    let mut picked = Vec::with_capacity(alloc, places.len())?;
    for place in places {
        picked.push(list.get(*place as usize).copied().unwrap_or(0))?;
    }
    Ok(picked)
}

/// The positions of the rows of pairs in the tables of either side.
pub(crate) fn positions_of_pairs(
    alloc: Global,
    left: &[SharedPositions],
    right: &[SharedPositions],
    pairs: &[Pair],
) -> Result<Vec<SharedPositions>, OutOfMemory>
    ensures { IfOk result (λ v. v.items ≡ joined.positions_of_pairs left.now right.now pairs.now) }
{
    let lefts = positions_of_all(alloc, left, &left_positions(alloc, pairs)?)?;
    let rights = positions_of_all(alloc, right, &right_positions(alloc, pairs)?)?;
    appended(lefts, rights)
}

/// The first so many positions, in order: those of the last list where it has just these.
pub(crate) fn each_position(
    alloc: Global,
    lists: &[SharedPositions],
    count: usize,
) -> Result<SharedPositions, OutOfMemory>
    ensures { IfOk result (λ p. p ≡ bags.positions count) }
{
    match lists.last() {
        Some(last) if are_first(last.list(), count) => last.share(),
        _ => first_positions(alloc, count),
    }
}

/// Whether these are the first so many positions, in order.
fn are_first(list: &[u64], count: usize) -> bool
    ensures { IsTrue result → list.now ≡ bags.positions count }
{
    if list.len() != count {
        return false;
    }
    for place in 0..count {
        if list[place] as usize != place {
            return false;
        }
    }
    true
}

/// The first so many positions, in order.
pub(crate) fn first_positions(alloc: Global, count: usize) -> Result<SharedPositions, OutOfMemory>
    ensures { IfOk result (λ p. p ≡ bags.positions count) }
{
    let all = all_positions(alloc, count)?;
    SharedPositions::new(alloc, all)
}

/// The first list and the second after it.
pub(crate) fn appended<T: Drop>(first: Vec<T>, second: Vec<T>) -> Result<Vec<T>, OutOfMemory>
    ensures { IfOk result (λ v. v.items ≡ first.items ++ second.items) }
{
    let mut all = first;
    for item in second {
        all.push(item)?;
    }
    Ok(all)
}

/// The list of one item.
pub(crate) fn only<T: Drop>(alloc: Global, item: T) -> Result<Vec<T>, OutOfMemory>
    ensures { IfOk result (λ v. v.items ≡ item ∷ []) }
{
    let mut list = Vec::with_capacity(alloc, 1)?;
    list.push(item)?;
    Ok(list)
}

/// The list with the item after its own.
pub(crate) fn pushed<T: Drop>(items: Vec<T>, item: T) -> Result<Vec<T>, OutOfMemory>
    ensures { IfOk result (λ v. v.items ≡ items.items ++ item ∷ []) }
{
    let mut all = items;
    all.push(item)?;
    Ok(all)
}

/// A table of one column.
pub(crate) fn one_column(alloc: Global, values: Vec<Value>) -> Result<SharedTable, OutOfMemory>
    ensures { IfOk result (λ c. c ≡ rows_along (values.items ∷ []) (length values.items)) }
{
    let count = values.len();
    let columns = only(alloc, values)?;
    SharedTable::new(alloc, Columns::new(columns, count))
}

pub(crate) fn share_tables(
    alloc: Global,
    tables: &[SharedTable],
) -> Result<Vec<SharedTable>, OutOfMemory>
    ensures { IfOk result (λ v. v.items ≡ tables.now) }
{
    let mut shared = Vec::with_capacity(alloc, tables.len())?;
    for table in tables {
        shared.push(table.share()?)?;
    }
    Ok(shared)
}

pub(crate) fn share_positions(
    alloc: Global,
    positions: &[SharedPositions],
) -> Result<Vec<SharedPositions>, OutOfMemory>
    ensures { IfOk result (λ v. v.items ≡ positions.now) }
{
    let mut shared = Vec::with_capacity(alloc, positions.len())?;
    for list in positions {
        shared.push(list.share()?)?;
    }
    Ok(shared)
}
