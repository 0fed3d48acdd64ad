//! The rows of a witness, by the names of tables and columns.

ghost use Rattle.std.specs.Prelude.{◌≡◌, length, take, string_bytes, OnErr, OnOk};

use crate::values::{add_plain, add_value};
use std::alloc::Global;
use std::collections::BTreeMap;
use wd_schema::{Schema, Table};
use wd_ties::{TableColumn, is_among};
use wd_value::{OutOfMemory, Row, Value};

/// Adds a line for each row of tables of a schema: the table's name, and each value after its column's name, which has a mark where
/// the column is among `ties`; then a line says what the mark means.
pub fn add_tables(
    out: &mut String,
    schema: &Schema,
    tables: &BTreeMap<String, Vec<Row>>,
    ties: &[TableColumn],
) -> Result<(), OutOfMemory>
    ensures appended { OnOk result (take (length (string_bytes out.old)) (string_bytes out.new) ≡ string_bytes out.old) }
    ensures kept { OnErr result (string_bytes out.new ≡ string_bytes out.old) }
{
    let lines = tables_lines(*out.allocator(), schema, tables, ties)?;
    Ok(out.push_str(lines.as_str())?)
}

/// A line for each row of tables of a schema.
fn tables_lines(
    alloc: Global,
    schema: &Schema,
    tables: &BTreeMap<String, Vec<Row>>,
    ties: &[TableColumn],
) -> Result<String, OutOfMemory> {
    let mut lines = String::new(alloc);
    for (number, (name, table)) in schema.tables.iter().enumerate() {
        if let Some(rows) = tables.get(name.as_str()) {
            for row in rows {
                add_row(&mut lines, table, number, ties, row)?;
            }
        }
    }
    if !ties.is_empty() {
        lines.push_str("      = *: rows tie by these columns\n")?;
    }
    Ok(lines)
}

/// Adds a line of a row of the table with this number: each value after its column's name, which has a mark where rows tie by it.
fn add_row(
    out: &mut String,
    table: &Table,
    number: usize,
    ties: &[TableColumn],
    row: &[Value],
) -> Result<(), OutOfMemory> {
    out.push_str("      = ")?;
    add_plain(out, table.name.as_str())?;
    out.push_str(": ")?;
    let mut columns = table.columns.iter();
    for (place, value) in row.iter().enumerate() {
        if place > 0 {
            out.push_str(", ")?;
        }
        if let Some(column) = columns.next() {
            let mark = if is_among(ties, number, place) {
                "*"
            } else {
                ""
            };
            add_plain(out, column.name.as_str())?;
            out.push_str(mark)?;
            out.push(' ')?;
        }
        add_value(out, value)?;
    }
    Ok(out.push('\n')?)
}
