//! A script for PostgreSQL: the tables of a witness, filled in one order and in the other, with the query after each.

ghost use Rattle.std.specs.Prelude.{◌≡◌, length, take, OnErr, OnOk};

use crate::words::{separator, type_word, value_text};
use std::alloc::Global;
use std::collections::BTreeMap;
use wd_markup::{Class, Page, Tag};
use wd_plan::Plan;
use wd_schema::{Column, Schema, Table};
use wd_value::{OutOfMemory, Row, Value};

/// Adds a script for PostgreSQL. Its tables have no keys, so that rows are likely to be read in the order in which they are
/// written.
pub fn add_replay(
    alloc: Global,
    page: &mut Page,
    schema: &Schema,
    plan: &Plan,
    tables: &BTreeMap<String, Vec<Row>>,
    query: &[u8],
) -> Result<(), OutOfMemory>
    ensures appended { OnOk result (take (length page.old) page.new ≡ page.old) }
    ensures kept { OnErr result (page.new ≡ page.old) }
{
    let part = replay_part(alloc, schema, plan, tables, query)?;
    Ok(page.append(&part)?)
}

/// A script for PostgreSQL.
fn replay_part(
    alloc: Global,
    schema: &Schema,
    plan: &Plan,
    tables: &BTreeMap<String, Vec<Row>>,
    query: &[u8],
) -> Result<Page, OutOfMemory> {
    let mut page = Page::new(alloc);
    page.open(Tag::Preformatted, Class::Plain)?;
    page.text(b"BEGIN;\n")?;
    for (number, table) in schema.tables.values().enumerate() {
        if reads(plan, number) {
            add_table(&mut page, table)?;
        }
    }
    page.text(b"-- the rows in one order\n")?;
    add_inserts(alloc, &mut page, tables)?;
    add_query(&mut page, query)?;
    page.text(b"-- and in the other\n")?;
    add_turned(alloc, &mut page, tables)?;
    add_query(&mut page, query)?;
    page.text(b"ROLLBACK;\n")?;
    page.close(Tag::Preformatted)?;
    Ok(page)
}

/// Whether a plan reads the table with this number.
fn reads(plan: &Plan, number: usize) -> bool {
    match plan {
        Plan::Scan { table, .. } => usize::from(*table) == number,
        Plan::Join { left, right, .. } => reads(left, number) || reads(right, number),
        Plan::Filter { input, .. }
        | Plan::Map { input, .. }
        | Plan::Group { input, .. }
        | Plan::Window { input, .. }
        | Plan::Distinct { input }
        | Plan::Limit { input, .. } => reads(input, number),
    }
}

/// Adds the query, in one statement with nothing before it.
fn add_query(page: &mut Page, query: &[u8]) -> Result<(), OutOfMemory> {
    page.text(query)?;
    Ok(page.text(b"\n;\n")?)
}

/// Adds a text between quotes, with each quote in it doubled.
fn add_quoted(page: &mut Page, quote: u8, text: &[u8]) -> Result<(), OutOfMemory> {
    let quotes = [quote];
    page.text(&quotes)?;
    for (number, part) in text.split(|byte| *byte == quote).enumerate() {
        if number > 0 {
            page.text(&quotes)?;
            page.text(&quotes)?;
        }
        page.text(part)?;
    }
    Ok(page.text(&quotes)?)
}

/// Adds the declaration of a table.
fn add_table(page: &mut Page, table: &Table) -> Result<(), OutOfMemory> {
    page.text(b"CREATE TEMPORARY TABLE ")?;
    add_quoted(page, b'"', table.name.as_bytes())?;
    page.text(b" (")?;
    for (number, column) in table.columns.iter().enumerate() {
        page.text(separator(number).as_bytes())?;
        add_column(page, column)?;
    }
    Ok(page.text(b");\n")?)
}

/// Adds the declaration of a column.
fn add_column(page: &mut Page, column: &Column) -> Result<(), OutOfMemory> {
    add_quoted(page, b'"', column.name.as_bytes())?;
    page.text(b" ")?;
    Ok(page.text(type_word(column.kind).as_bytes())?)
}

/// Adds the rows of tables, in order.
fn add_inserts(
    alloc: Global,
    page: &mut Page,
    tables: &BTreeMap<String, Vec<Row>>,
) -> Result<(), OutOfMemory> {
    for (name, rows) in tables {
        for row in rows {
            add_insert(alloc, page, name.as_str(), row)?;
        }
    }
    Ok(())
}

/// Empties tables, and adds their rows in reverse order.
fn add_turned(
    alloc: Global,
    page: &mut Page,
    tables: &BTreeMap<String, Vec<Row>>,
) -> Result<(), OutOfMemory> {
    for (name, rows) in tables {
        page.text(b"TRUNCATE ")?;
        add_quoted(page, b'"', name.as_bytes())?;
        page.text(b";\n")?;
        for row in rows.iter().rev() {
            add_insert(alloc, page, name.as_str(), row)?;
        }
    }
    Ok(())
}

/// Adds a statement that writes a row.
fn add_insert(
    alloc: Global,
    page: &mut Page,
    name: &str,
    row: &[Value],
) -> Result<(), OutOfMemory> {
    page.text(b"INSERT INTO ")?;
    add_quoted(page, b'"', name.as_bytes())?;
    page.text(b" VALUES (")?;
    for (number, value) in row.iter().enumerate() {
        page.text(separator(number).as_bytes())?;
        add_literal(alloc, page, value)?;
    }
    Ok(page.text(b");\n")?)
}

/// Adds a value as a literal of SQL.
fn add_literal(alloc: Global, page: &mut Page, value: &Value) -> Result<(), OutOfMemory> {
    match value {
        Value::Text(text) => add_quoted(page, b'\'', text.as_bytes()),
        _ => {
            let text = value_text(alloc, value)?;
            Ok(page.text(text.as_bytes())?)
        }
    }
}
