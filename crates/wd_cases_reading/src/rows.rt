//! The rows of a table from its text, and the text of an answer.
use crate::refusal::of_rows;
use std::alloc::Global;
use wd_cases::{Failure, SchemaText, in_one_line, rows_of, text_of, unescape};
use wd_schema::Table;
use wd_tables::{DataError, answer_text, load};
use wd_value::{Row, Text, Value};

fn names_of(alloc: Global, table: &Table) -> Result<Vec<Text>, Failure> {
    let mut names = Vec::new(alloc);
    for column in &table.columns {
        names.push(column.name.copy()?)?;
    }
    Ok(names)
}

/// The text of an answer, in one line.
fn answer_line(alloc: Global, names: &[Text], rows: &[Row]) -> Result<String, Failure> {
    let text = answer_text(alloc, names, rows)?;
    in_one_line(alloc, &text)
}

/// Rows of a table as the text of an answer, or their number where there are many.
fn rows_shown(alloc: Global, table: &Table, rows: &[Row]) -> Result<String, Failure> {
    let count = rows.len();
    if count > 100 {
        return Ok(format!(in alloc; "rows: {count}")?);
    }
    let names = names_of(alloc, table)?;
    answer_line(alloc, &names, rows)
}

fn load_into(alloc: Global, table: &Table, text: &str) -> Result<String, Failure> {
    let text = unescape(alloc, text)?;
    match load(alloc, table, &text) {
        Ok(rows) => rows_shown(alloc, table, &rows),
        Err(error) => Err(of_rows(&error)),
    }
}

/// `load NAME TEXT`: the rows of a table of the schema, from their text.
pub fn load_case(alloc: Global, schema: &SchemaText, text: &str) -> Result<String, Failure> {
    let (name, text) = text.split_once(' ').unwrap_or((text, ""));
    let schema = schema.tables(alloc)?;
    match schema.table(name) {
        Some(table) => load_into(alloc, table, text),
        None => Err(Failure::NoCase),
    }
}

fn refusal_of(alloc: Global, table: &Table, text: &str) -> Result<Option<DataError>, Failure> {
    let text = unescape(alloc, text)?;
    Ok(load(alloc, table, &text).err())
}

fn why_not(alloc: Global, table: &Table, text: &str) -> Result<String, Failure> {
    match refusal_of(alloc, table, text)? {
        None => Ok(String::from_str(alloc, "loaded")?),
        Some(error) => of_rows(&error).explained(alloc, &error),
    }
}

/// `why NAME TEXT`: why such data is refused.
pub fn explain_case(alloc: Global, schema: &SchemaText, text: &str) -> Result<String, Failure> {
    let (name, text) = text.split_once(' ').unwrap_or((text, ""));
    let schema = schema.tables(alloc)?;
    match schema.table(name) {
        Some(table) => why_not(alloc, table, text),
        None => Err(Failure::NoCase),
    }
}

/// Rows of texts as names.
fn names_in(alloc: Global, row: &[Value]) -> Result<Vec<Text>, Failure> {
    let mut names = Vec::new(alloc);
    for value in row {
        match value {
            Value::Text(name) => names.push(name.copy()?)?,
            _ => return Err(Failure::NoCase),
        }
    }
    Ok(names)
}

fn answer_of(alloc: Global, names: &[Value], rows: &[Row]) -> Result<String, Failure> {
    let names = names_in(alloc, names)?;
    answer_line(alloc, &names, rows)
}

fn rows_in(alloc: Global, text: &str) -> Result<Vec<Row>, Failure> {
    let text = text_of(alloc, text)?;
    rows_of(alloc, text.as_str(), ' ')
}

/// `answer NAMES;ROW;..`: the text of an answer.
pub fn answer(alloc: Global, text: &str) -> Result<String, Failure> {
    let rows = rows_in(alloc, text)?;
    match rows.split_first() {
        Some((names, rows)) => answer_of(alloc, names, rows),
        None => Err(Failure::NoCase),
    }
}
