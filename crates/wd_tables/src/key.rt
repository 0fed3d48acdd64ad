ghost use Rattle.std.specs.Prelude.{◌≡◌, ◌↔◌, IfOk, IsTrue, map};
ghost use Rattle.std.specs.List.{list_any};
ghost use Rattle.wd_schema.specs.Meets as meets;
ghost use Rattle.wd_schema.specs.Tables.{key_of};
ghost use Rattle.wd_sort.specs.Sorting.{IsSortOf};
ghost use Rattle.wd_tables.specs.Causes.{IsLeast, Repeats, RepeatsIn};
ghost use Rattle.wd_tables.specs.Keys as spec;
ghost use Rattle.wd_value.specs.Rows.{column_of, columns_of, row_at, same_row};
ghost use Rattle.wd_value.specs.Values.{same as same_values};

use std::alloc::Global;
use wd_columns::{Columns, RowSource, all_positions};
use wd_schema::{Key, is_null};
use wd_sort::{compare_source_at, sort_positions_in};
use wd_value::{OutOfMemory, SortColumn, SortKey, same};

/// The first row that repeats an earlier one in some key.
pub fn first_repeat(alloc: Global, keys: &[Key], rows: &Columns) -> Result<Option<u64>, OutOfMemory>
    ensures { IfOk result (λ o. IsLeast (Repeats (map key_of keys.now) rows.now) o) }
{
    let mut first = None;
    for key in keys {
        first = least(first, first_repeat_in(alloc, key, rows)?);
    }
    Ok(first)
}

fn least(a: Option<u64>, b: Option<u64>) -> Option<u64>
    ensures { result ≡ spec.least a b }
{
    match (a, b) {
        (Some(m), Some(n)) => if m < n { Some(m) } else { Some(n) },
        (Some(m), None) => Some(m),
        (None, b) => b,
    }
}

// Rows that are the same on the key are next to one another once they are sorted by it.
fn first_repeat_in(alloc: Global, key: &Key, rows: &Columns) -> Result<Option<u64>, OutOfMemory>
    ensures { IfOk result (λ o. IsLeast (RepeatsIn (key_of key.now) rows.now) o) }
{
    let columns = sort_columns(alloc, &key.columns)?;
    let order = sorted_positions(alloc, rows, &columns)?;
    Ok(first_violation(key, rows, &order))
}

fn sort_columns(alloc: Global, columns: &[u16]) -> Result<Vec<SortColumn>, OutOfMemory>
    ensures { IfOk result (λ v. v.items ≡ spec.sort_columns columns.now) }
{
    let key = SortKey {
        desc: false,
        nulls_first: false,
    };
    let mut sorted = Vec::with_capacity(alloc, columns.len())?;
    for column in columns {
        sorted.push(SortColumn {
            column: *column,
            key,
        })?;
    }
    Ok(sorted)
}

// The positions of the rows, sorted by columns; rows that tie on all of them keep their order. Rows that are already sorted, as in most
// exports, take one pass.
fn sorted_positions(
    alloc: Global,
    rows: &Columns,
    columns: &[SortColumn],
) -> Result<Vec<u64>, OutOfMemory>
    ensures { IfOk result (λ v. IsSortOf columns.now rows.now v.items) }
{
    let source = RowSource::of_columns(rows);
    let all = all_positions(alloc, rows.len())?;
    if are_in_order(&source, columns) {
        Ok(all)
    } else {
        let order = sort_positions_in(alloc, &source, columns, &all)?;
        Ok(order)
    }
}

// Whether the rows are in the order of the columns.
fn are_in_order(rows: &RowSource, columns: &[SortColumn]) -> bool
    ensures { IsTrue result ↔ spec.AreInOrder columns.now rows.now }
{
    for i in 1..rows.len() {
        if compare_source_at(rows, columns, i as u64, (i - 1) as u64).is_lt() {
            return false;
        }
    }
    true
}

// The least position whose row violates the key with the row before it in the order.
fn first_violation(key: &Key, rows: &Columns, order: &[u64]) -> Option<u64>
    ensures { IsLeast (spec.ViolatesBefore (key_of key.now) rows.now order.now) result }
{
    let mut first = None;
    for i in 1..order.len() {
        if violates(key, rows, order[i - 1], order[i]) {
            first = least(first, Some(order[i]));
        }
    }
    first
}

// Whether the key forbids the rows at two positions in one table.
fn violates(key: &Key, rows: &Columns, p: u64, q: u64) -> bool
    ensures { result ≡ meets.violates (key_of key.now) (row_at rows.now p) (row_at rows.now q) }
{
    are_same(&key.columns, rows, p, q) && !(key.nulls_distinct && has_null(&key.columns, rows, p))
}

fn are_same(columns: &[u16], rows: &Columns, p: u64, q: u64) -> bool
    ensures { result ≡ same_row (columns_of columns.now (row_at rows.now p)) (columns_of columns.now (row_at rows.now q)) }
{
    for column in columns {
        if !are_same_at(*column, rows, p, q) {
            return false;
        }
    }
    true
}

fn are_same_at(column: u16, rows: &Columns, p: u64, q: u64) -> bool
    ensures { result ≡ same_values (column_of (row_at rows.now p) column) (column_of (row_at rows.now q) column) }
{
    same(
        rows.value(p, column as usize),
        rows.value(q, column as usize),
    )
}

fn has_null(columns: &[u16], rows: &Columns, p: u64) -> bool
    ensures { result ≡ list_any meets.is_null (columns_of columns.now (row_at rows.now p)) }
{
    for column in columns {
        if is_null_at(*column, rows, p) {
            return true;
        }
    }
    false
}

fn is_null_at(column: u16, rows: &Columns, p: u64) -> bool
    ensures { result ≡ meets.is_null (column_of (row_at rows.now p) column) }
{
    is_null(rows.value(p, column as usize))
}
