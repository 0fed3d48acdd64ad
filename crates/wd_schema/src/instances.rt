//! The instances that meet a schema.

ghost use Rattle.std.specs.Prelude.{◌≡◌, ◌↔◌, ◌<◌, length, map, Some, slice_get, IsTrue, OnOk, OnErr};
ghost use Rattle.std.specs.List.{list_any, list_all};
ghost use Rattle.wd_schema.specs.Meets.{Meets};
ghost use Rattle.wd_schema.specs.Meets as spec;
ghost use Rattle.wd_schema.specs.Schemas.{schema_of};
ghost use Rattle.wd_schema.specs.Tables.{TableRule, key_of, table_of};
ghost use Rattle.wd_value.specs.Rows.{instance_of, rows_of};
ghost use Rattle.wd_value.specs.Rows as values;
ghost use Rattle.wd_value.specs.Values.{same as same_values};
ghost use Rattle.wd_value.specs.declared.value.Value.TheVariants as variants;

use crate::schema::Schema;
use crate::table::{Column, Key, Table};
use wd_value::{ColumnType, Instance, Row, Value, same};

/// The instance does not meet the schema.
#[derive(Clone, Copy)]
pub struct Violation;

/// Whether an instance meets a schema: it has a list of rows for each table, in order of declaration, and no further list. Each row has a
/// value for each column, of its type and range, and no NULL where the column is NOT NULL. No two rows are the same on a key; NULL equals
/// NULL in a primary key and in a key with NULLS NOT DISTINCT, and is distinct in the others.
///
/// Takes no memory; the time is quadratic in the number of rows for each key.
pub fn meets(schema: &Schema, instance: &Instance) -> Result<(), Violation>
    ensures met { OnOk result (Meets (schema_of schema.now) (instance_of instance.now.items)) }
    ensures violated { OnErr result (Meets (schema_of schema.now) (instance_of instance.now.items) → ⊥) }
{
    if instance.len() == schema.tables.len() && each_meets(schema, instance) {
        Ok(())
    } else {
        Err(Violation)
    }
}

/// Whether each list of rows meets the table of the same number.
fn each_meets(schema: &Schema, instance: &[Vec<Row>]) -> bool
    requires { length instance.now ≡ length schema.now.tables.entries }
    ensures { IsTrue result ↔ spec.EachMeets (schema_of schema.now) (instance_of instance.now) }
{
    for (t, rows) in instance.iter().enumerate() {
        if !meets_at(schema, t, rows) {
            return false;
        }
    }
    true
}

/// Whether rows meet the table of this number.
fn meets_at(schema: &Schema, t: usize, rows: &[Row]) -> bool
    requires { t < length schema.now.tables.entries }
    ensures { (table : TableRule) → slice_get (schema_of schema.now) t ≡ Some table → result ≡ spec.is_met table (rows_of rows.now) }
{
    match schema.tables.get_index(t) {
        Some((_, table)) => is_met(table, rows),
        None => true,
    }
}

fn is_met(table: &Table, rows: &[Row]) -> bool
    ensures { result ≡ spec.is_met (table_of table.now) (rows_of rows.now) }
{
    fit_columns(&table.columns, rows) && keep_keys(&table.keys, rows)
}

fn fit_columns(columns: &[Column], rows: &[Row]) -> bool
    ensures { result ≡ list_all (spec.fits_columns columns.now) (rows_of rows.now) }
{
    for row in rows {
        if !fits_columns(columns, row) {
            return false;
        }
    }
    true
}

fn fits_columns(columns: &[Column], row: &[Value]) -> bool
    ensures { result ≡ spec.fits_columns columns.now row.now }
{
    if columns.len() != row.len() {
        return false;
    }
    for i in 0..columns.len() {
        if !may_hold(&columns[i], &row[i]) {
            return false;
        }
    }
    true
}

/// Whether a column may hold a value.
fn may_hold(column: &Column, value: &Value) -> bool
    ensures { result ≡ spec.may_hold column.now value.now }
{
    is_of_type(column.kind, value) && !(column.not_null && is_null(value))
}

/// Whether a value is NULL or of the type, with a number within the type's range.
pub fn is_of_type(kind: ColumnType, value: &Value) -> bool
    ensures { result ≡ spec.is_of_type kind value.now }
{
    match (kind, value) {
        (_, Value::Null) => true,
        (_, Value::Int(n)) => is_in_range(kind, *n),
        (ColumnType::Text, Value::Text(_)) => true,
        (ColumnType::Boolean, Value::Bool(_)) => true,
        _ => false,
    }
}

/// Whether a column of the type may hold the number.
fn is_in_range(kind: ColumnType, number: i64) -> bool
    ensures { result ≡ spec.is_of_type kind (variants.Int number) }
{
    match kind {
        ColumnType::SmallInt => i16::MIN as i64 <= number && number <= i16::MAX as i64,
        ColumnType::Integer => i32::MIN as i64 <= number && number <= i32::MAX as i64,
        ColumnType::BigInt => true,
        ColumnType::Text | ColumnType::Boolean => false,
    }
}

/// Whether a value is NULL.
pub fn is_null(value: &Value) -> bool
    ensures { result ≡ spec.is_null value.now }
{
    matches!(value, Value::Null)
}

fn keep_keys(keys: &[Key], rows: &[Row]) -> bool
    ensures { result ≡ list_all (spec.is_kept (rows_of rows.now)) (map key_of keys.now) }
{
    for key in keys {
        if !is_kept(key, rows) {
            return false;
        }
    }
    true
}

/// Whether no two rows violate the key.
fn is_kept(key: &Key, rows: &[Row]) -> bool
    ensures { result ≡ spec.is_kept (rows_of rows.now) (key_of key.now) }
{
    for (i, row) in rows.iter().enumerate() {
        if violates_any(key, row, &rows[i + 1..]) {
            return false;
        }
    }
    true
}

/// Whether one of the rows violates the key together with the given row.
fn violates_any(key: &Key, row: &[Value], rows: &[Row]) -> bool
    ensures { result ≡ list_any (spec.violates (key_of key.now) row.now) (rows_of rows.now) }
{
    for other in rows {
        if violates(key, row, other) {
            return true;
        }
    }
    false
}

/// Whether the key forbids two rows in one table: they are equal on its columns and, where it takes NULLs as distinct, have no NULL there
/// (SQL, table constraint definition; PostgreSQL, NULLS NOT DISTINCT).
pub fn violates(key: &Key, a: &[Value], b: &[Value]) -> bool
    ensures { result ≡ spec.violates (key_of key.now) a.now b.now }
{
    is_same_on(&key.columns, a, b) && !(key.nulls_distinct && has_null(&key.columns, a))
}

fn is_same_on(columns: &[u16], a: &[Value], b: &[Value]) -> bool
    ensures { result ≡ values.same_row (values.columns_of columns.now a.now) (values.columns_of columns.now b.now) }
{
    for column in columns {
        if !is_same_at(*column, a, b) {
            return false;
        }
    }
    true
}

fn is_same_at(column: u16, a: &[Value], b: &[Value]) -> bool
    ensures { result ≡ same_values (values.column_of a.now column) (values.column_of b.now column) }
{
    let null = Value::Null;
    same(
        a.get(column as usize).unwrap_or(&null),
        b.get(column as usize).unwrap_or(&null),
    )
}

fn has_null(columns: &[u16], a: &[Value]) -> bool
    ensures { result ≡ list_any spec.is_null (values.columns_of columns.now a.now) }
{
    for column in columns {
        if is_null_at(*column, a) {
            return true;
        }
    }
    false
}

fn is_null_at(column: u16, a: &[Value]) -> bool
    ensures { result ≡ spec.is_null (values.column_of a.now column) }
{
    match a.get(column as usize) {
        None | Some(Value::Null) => true,
        Some(_) => false,
    }
}
