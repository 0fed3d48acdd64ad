//! The keys of a table.

ghost use Rattle.std.specs.Prelude.{◌≡◌, ◌++◌, true, not, ◌&&◌, map, slice_get, IfOk};
ghost use Rattle.std.specs.List.{list_all};
ghost use Rattle.wd_schema.specs.Schemas.{schema_of};
ghost use Rattle.wd_schema.specs.Tables.{key_of, table_of};
ghost use Rattle.wd_step_facts.specs.declared.facts.Member.TheVariants as member;
ghost use Rattle.wd_step_facts.specs.Facts.{fact_of};
ghost use Rattle.wd_facts.specs.Given as spec;

use crate::columns::is_not_null_column;
use std::alloc::Global;
use wd_schema::{Key, Schema, Table};
use wd_step_facts::{Given, Member, add_key};
use wd_value::OutOfMemory;

/// Whether the key names columns of the table.
fn names_columns(table: &Table, key: &Key) -> bool
    ensures { result ≡ spec.names_columns (table_of table.now) (key_of key.now) }
{
    for column in &key.columns {
        if table.columns.len() <= usize::from(*column) {
            return false;
        }
    }
    true
}

/// Whether all columns of the key are NOT NULL.
fn is_full(table: &Table, key: &Key) -> bool
    ensures { result ≡ list_all (spec.is_not_null_column (table_of table.now).columns) (key_of key.now).columns }
{
    for column in &key.columns {
        if !is_not_null_column(&table.columns, *column) {
            return false;
        }
    }
    true
}

/// Whether rows that are the same on the key are one row.
fn gives_row(table: &Table, key: &Key) -> bool
    ensures { result ≡ spec.gives_row (table_of table.now) (key_of key.now) }
{
    !key.nulls_distinct || is_full(table, key)
}

/// Whether the key names columns of the table and determines the row.
fn is_row_key(table: &Table, key: &Key) -> bool
    ensures { result ≡ (spec.names_columns (table_of table.now) (key_of key.now) && spec.gives_row (table_of table.now) (key_of key.now)) }
{
    names_columns(table, key) && gives_row(table, key)
}

/// Whether the key names columns of the table and does not determine the row.
fn is_null_key(table: &Table, key: &Key) -> bool
    ensures { result ≡ (spec.names_columns (table_of table.now) (key_of key.now) && not (spec.gives_row (table_of table.now) (key_of key.now))) }
{
    names_columns(table, key) && !gives_row(table, key)
}

/// For each key that determines the row, the fact that it does.
fn row_key_facts(alloc: Global, table: &Table) -> Result<Vec<Given>, OutOfMemory>
    ensures { IfOk result (λ v. map fact_of v.items ≡ spec.keys_facts member.Row (spec.row_keys (table_of table.now))) }
{
    let mut list = Vec::new(alloc);
    for key in &table.keys {
        if is_row_key(table, key) {
            add_key(alloc, Member::Row, &key.columns, &mut list)?;
        }
    }
    Ok(list)
}

/// The given facts of a Scan.
pub(crate) fn table_facts(
    alloc: Global,
    schema: &Schema,
    table: u16,
) -> Result<Vec<Given>, OutOfMemory>
    ensures { IfOk result (λ v. map fact_of v.items ≡ spec.keys_facts member.Row (spec.row_keys (spec.table_rule (schema_of schema.now) table))) }
{
    match schema.tables.get_index(usize::from(table)) {
        Some((_, table)) => {
            let list = row_key_facts(alloc, table)?;
            Ok(list)
        }
        None => Ok(Vec::new(alloc)),
    }
}

/// The columns of the keys that do not determine the row.
fn null_keys_of(alloc: Global, table: &Table) -> Result<Vec<Vec<u16>>, OutOfMemory>
    ensures { IfOk result (λ v. map (λ k. k.items) v.items ≡ spec.null_keys (table_of table.now)) }
{
    let mut list = Vec::new(alloc);
    for key in &table.keys {
        if is_null_key(table, key) {
            list.push(Vec::from_slice(alloc, &key.columns)?)?;
        }
    }
    Ok(list)
}

/// The nullable keys of a Scan.
pub(crate) fn table_null_keys(
    alloc: Global,
    schema: &Schema,
    table: u16,
) -> Result<Vec<Vec<u16>>, OutOfMemory>
    ensures { IfOk result (λ v. map (λ k. k.items) v.items ≡ spec.null_keys (spec.table_rule (schema_of schema.now) table)) }
{
    match schema.tables.get_index(usize::from(table)) {
        Some((_, table)) => {
            let list = null_keys_of(alloc, table)?;
            Ok(list)
        }
        None => Ok(Vec::new(alloc)),
    }
}
