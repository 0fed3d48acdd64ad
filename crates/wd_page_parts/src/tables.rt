//! Rows of tables.

ghost use Rattle.std.specs.Prelude.{◌≡◌, length, take, OnErr, OnOk};

use crate::words::value_text;
use std::alloc::Global;
use std::collections::BTreeMap;
use wd_markup::{Class, Page, Tag};
use wd_schema::{Column, Schema};
use wd_ties::{TableColumn, is_among};
use wd_value::{OutOfMemory, Row, Value};

/// Adds tables of a schema with these rows, side by side. The names of the columns in `ties` are marked.
pub fn add_tables(
    alloc: Global,
    page: &mut Page,
    schema: &Schema,
    tables: &BTreeMap<String, Vec<Row>>,
    ties: &[TableColumn],
) -> Result<(), OutOfMemory>
    ensures appended { OnOk result (take (length page.old) page.new ≡ page.old) }
    ensures kept { OnErr result (page.new ≡ page.old) }
{
    let part = tables_part(alloc, schema, tables, ties)?;
    Ok(page.append(&part)?)
}

/// Tables of a schema with these rows, side by side.
fn tables_part(
    alloc: Global,
    schema: &Schema,
    tables: &BTreeMap<String, Vec<Row>>,
    ties: &[TableColumn],
) -> Result<Page, OutOfMemory> {
    let mut page = Page::new(alloc);
    page.open(Tag::Division, Class::Side)?;
    for (number, (name, table)) in schema.tables.iter().enumerate() {
        if let Some(rows) = tables.get(name.as_str()) {
            begin_table(&mut page, table.name.as_str())?;
            add_columns(&mut page, &table.columns, number, ties)?;
            add_rows(alloc, &mut page, rows)?;
            end_table(&mut page)?;
        }
    }
    page.close(Tag::Division)?;
    Ok(page)
}

/// Begins a figure with a table under this caption.
pub(crate) fn begin_table(page: &mut Page, caption: &str) -> Result<(), OutOfMemory> {
    page.open(Tag::Figure, Class::Plain)?;
    page.element(Tag::Caption, Class::Plain, caption.as_bytes())?;
    page.open(Tag::Division, Class::Scroll)?;
    Ok(page.open(Tag::Table, Class::Plain)?)
}

/// Ends a figure with a table.
pub(crate) fn end_table(page: &mut Page) -> Result<(), OutOfMemory> {
    page.close(Tag::Table)?;
    page.close(Tag::Division)?;
    Ok(page.close(Tag::Figure)?)
}

/// Adds the names of the columns of the table with this number, with those marked on which rows tie.
fn add_columns(
    page: &mut Page,
    columns: &[Column],
    number: usize,
    ties: &[TableColumn],
) -> Result<(), OutOfMemory> {
    page.open(Tag::Row, Class::Plain)?;
    for (place, column) in columns.iter().enumerate() {
        let name = column.name.as_bytes();
        if is_among(ties, number, place) {
            page.open(Tag::HeadCell, Class::Plain)?;
            page.element(Tag::Mark, Class::Plain, name)?;
            page.close(Tag::HeadCell)?;
        } else {
            page.element(Tag::HeadCell, Class::Plain, name)?;
        }
    }
    Ok(page.close(Tag::Row)?)
}

/// Adds rows.
fn add_rows(alloc: Global, page: &mut Page, rows: &[Row]) -> Result<(), OutOfMemory> {
    for row in rows {
        add_row(alloc, page, row)?;
    }
    Ok(())
}

/// Adds a row.
fn add_row(alloc: Global, page: &mut Page, row: &[Value]) -> Result<(), OutOfMemory> {
    page.open(Tag::Row, Class::Plain)?;
    for value in row {
        add_cell(alloc, page, value, class_of(value))?;
    }
    Ok(page.close(Tag::Row)?)
}

/// The class of a cell with a value.
pub(crate) fn class_of(value: &Value) -> Class {
    match value {
        Value::Null => Class::Null,
        Value::Int(_) => Class::Number,
        Value::Text(_) | Value::Bool(_) => Class::Plain,
    }
}

/// Adds a cell with a value.
pub(crate) fn add_cell(
    alloc: Global,
    page: &mut Page,
    value: &Value,
    class: Class,
) -> Result<(), OutOfMemory> {
    let text = value_text(alloc, value)?;
    Ok(page.element(Tag::DataCell, class, text.as_bytes())?)
}
