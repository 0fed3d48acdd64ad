//! The rows of a candidate.

ghost use Rattle.std.specs.Prelude.{◌≡◌, ◌<◌, ℕ, [], length, map, None, option_map, slice_index_or, IfOk};
ghost use Rattle.wd_candidates.specs.Candidates as spec;
ghost use Rattle.wd_candidates.specs.Marks.{is_marked, marks_of};
ghost use Rattle.wd_candidates.specs.Outlines.{IsCandidate, fixed_in, scanned_in, tied_in};
ghost use Rattle.wd_facts.specs.Given.{table_rule};
ghost use Rattle.wd_schema.specs.Schemas.{schema_of};
ghost use Rattle.wd_schema.specs.Tables.{key_of, table_of};
ghost use Rattle.wd_value.specs.Bags.{positions};
ghost use Rattle.wd_value.specs.Rows.{instance_of, rows_of};

use crate::marks::{is_marked, mark_columns, no_marks};
use crate::outline::Outline;
use crate::shape::{Shape, Style};
use crate::tied::TiedColumns;
use std::alloc::Global;
use wd_schema::{Column, Schema, Table};
use wd_value::{ColumnType, Instance, OutOfMemory, Row, Text, Value};

/// The candidate of a shape: an instance in which each table that the plan scans has the shape's number of rows, and the others
/// have none. It need not meet the schema.
pub fn candidate(
    alloc: Global,
    schema: &Schema,
    outline: &Outline,
    tied: &TiedColumns,
    shape: Shape,
) -> Result<Instance, OutOfMemory>
    ensures { IfOk result (λ instance. IsCandidate (schema_of schema.now) outline.now tied.now shape (instance_of instance.items)) }
{
    let mut instance = Vec::with_capacity(alloc, schema.tables.len())?;
    for number in 0..schema.tables.len() {
        let rows = rows_of_table(alloc, schema, number, outline, tied, shape)?;
        instance.push(rows)?;
    }
    Ok(instance)
}

/// The rows of the table with this number.
fn rows_of_table(
    alloc: Global,
    schema: &Schema,
    number: usize,
    outline: &Outline,
    tied: &TiedColumns,
    shape: Shape,
) -> Result<Vec<Row>, OutOfMemory>
    requires { number < length schema.now.tables.entries }
    ensures { IfOk result (λ v. rows_of v.items ≡ spec.candidate_rows (scanned_in outline.now number) (table_rule (schema_of schema.now) number) (fixed_in outline.now number) (tied_in tied.now number) shape) }
{
    match schema.tables.get_index(number) {
        Some((_, table)) if is_marked(&outline.scanned, number) => {
            let fixed = fixed_columns(outline, number);
            let tied = columns_tied(tied, number);
            candidate_rows(alloc, table, fixed, tied, shape)
        }
        _ => Ok(Vec::new(alloc)),
    }
}

/// What the columns of the table with this number are fixed to.
pub fn fixed_columns(outline: &Outline, table: usize) -> &[Option<Value>]
    ensures { result.now ≡ slice_index_or (map (λ columns. columns.items) outline.now.fixed.items) table [] }
{
    match outline.fixed.get(table) {
        Some(columns) => columns,
        None => &[],
    }
}

/// Which columns of the table with this number are tied.
fn columns_tied(tied: &TiedColumns, table: usize) -> &[bool]
    ensures { result.now ≡ marks_of tied.now.tables.items table }
{
    match tied.tables.get(table) {
        Some(columns) => columns,
        None => &[],
    }
}

/// As many rows of a scanned table as the shape says.
fn candidate_rows(
    alloc: Global,
    table: &Table,
    fixed: &[Option<Value>],
    tied: &[bool],
    shape: Shape,
) -> Result<Vec<Row>, OutOfMemory>
    ensures { IfOk result (λ v. rows_of v.items ≡ map (spec.candidate_row (table_of table.now) (λ c. slice_index_or fixed.now c None) (is_marked tied.now) shape.style) (positions shape.rows)) }
{
    let keyed = keyed_columns(alloc, table)?;
    let mut rows = Vec::new(alloc);
    for number in 0..shape.rows {
        let row = candidate_row(alloc, table, fixed, tied, &keyed, shape.style, number)?;
        rows.push(row)?;
    }
    Ok(rows)
}

/// Which columns of a table are in a key.
pub fn keyed_columns(alloc: Global, table: &Table) -> Result<Vec<bool>, OutOfMemory>
    ensures { IfOk result (λ v. (c : ℕ) → c < length table.now.columns.items → is_marked v.items c ≡ spec.is_keyed (map key_of table.now.keys.items) c) }
{
    let mut keyed = no_marks(alloc, table.columns.len())?;
    for key in &table.keys {
        mark_columns(&mut keyed, &key.columns);
    }
    Ok(keyed)
}

/// The row of a table with this number, where it is known which columns are in a key.
fn candidate_row(
    alloc: Global,
    table: &Table,
    fixed: &[Option<Value>],
    tied: &[bool],
    keyed: &[bool],
    style: Style,
    number: u32,
) -> Result<Row, OutOfMemory>
    requires { (c : ℕ) → c < length table.now.columns.items → is_marked keyed.now c ≡ spec.is_keyed (map key_of table.now.keys.items) c }
    ensures { IfOk result (λ v. v.items ≡ spec.candidate_row (table_of table.now) (λ c. slice_index_or fixed.now c None) (is_marked tied.now) style number) }
{
    let mut row = Vec::with_capacity(alloc, table.columns.len())?;
    for c in 0..table.columns.len() {
        let is_tied = is_marked(tied, c);
        let is_keyed = is_marked(keyed, c);
        let value = cell(
            alloc,
            value_if_fixed(fixed, c),
            style,
            is_tied,
            is_keyed,
            &table.columns[c],
            number,
        )?;
        row.push(value)?;
    }
    Ok(row)
}

/// What the column with this number is fixed to, where it is.
pub fn value_if_fixed(fixed: &[Option<Value>], column: usize) -> Option<&Value>
    ensures { option_map (λ v. v.now) result ≡ slice_index_or fixed.now column None }
{
    match fixed.get(column) {
        Some(Some(value)) => Some(value),
        _ => None,
    }
}

/// What a column holds in the row with this number: what it is fixed to, or else what the style says.
fn cell(
    alloc: Global,
    fixed: Option<&Value>,
    style: Style,
    tied: bool,
    keyed: bool,
    column: &Column,
    number: u32,
) -> Result<Value, OutOfMemory>
    ensures { IfOk result (λ v. v ≡ spec.cell (option_map (λ f. f.now) fixed.entry) (spec.styled_value style tied keyed column.now number)) }
{
    match fixed {
        Some(value) => value.copy(alloc),
        None => styled_value(alloc, style, tied, keyed, column, number),
    }
}

/// What the style gives a column in the row with this number.
fn styled_value(
    alloc: Global,
    style: Style,
    tied: bool,
    keyed: bool,
    column: &Column,
    number: u32,
) -> Result<Value, OutOfMemory>
    ensures { IfOk result (λ v. v ≡ spec.styled_value style tied keyed column.now number) }
{
    match style {
        Style::TiedNull => if tied {
            null_or_first(alloc, column)
        } else {
            value_of_type(alloc, column.kind, number)
        },
        Style::TiedFirst => value_of_type(alloc, column.kind, if tied { 0 } else { number }),
        Style::KeysApart => value_of_type(alloc, column.kind, if keyed { number } else { 0 }),
    }
}

/// NULL where the column may hold it, else the type's first value.
fn null_or_first(alloc: Global, column: &Column) -> Result<Value, OutOfMemory>
    ensures { IfOk result (λ v. v ≡ spec.null_or_first column.now) }
{
    if column.not_null {
        value_of_type(alloc, column.kind, 0)
    } else {
        Ok(Value::Null)
    }
}

/// The value of a type with this number, from 0.
fn value_of_type(alloc: Global, kind: ColumnType, number: u32) -> Result<Value, OutOfMemory>
    ensures { IfOk result (λ v. v ≡ spec.value_of_type kind number) }
{
    match kind {
        ColumnType::SmallInt | ColumnType::Integer | ColumnType::BigInt => {
            Ok(Value::Int(i64::from(number) + 1))
        }
        ColumnType::Text => Ok(Value::Text(Text::from_str(alloc, letter(number))?)),
        ColumnType::Boolean => Ok(Value::Bool(number % 2 == 1)),
    }
}

/// Four texts in turn.
fn letter(number: u32) -> &'static str
    ensures { result.now ≡ spec.letter number }
{
    match number % 4 {
        0 => "a",
        1 => "b",
        2 => "c",
        _ => "d",
    }
}
