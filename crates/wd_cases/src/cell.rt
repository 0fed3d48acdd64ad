//! Values and rows as lines write them.
use crate::failure::Failure;
use std::alloc::Global;
use wd_value::{Row, Text, Value};

/// `null`, `true`, `7` or `'text'`.
pub fn value_of(alloc: Global, word: &str) -> Result<Value, Failure> {
    match word {
        "null" => Ok(Value::Null),
        "true" => Ok(Value::Bool(true)),
        "false" => Ok(Value::Bool(false)),
        _ => match strip_quotes(word) {
            Some(text) => Ok(Value::Text(Text::from_str(alloc, text)?)),
            None => Ok(Value::Int(word.parse()?)),
        },
    }
}

/// What stands between single quotes.
fn strip_quotes(word: &str) -> Option<&str> {
    word.strip_prefix('\'')?.strip_suffix('\'')
}

/// The row of values with such a mark between two of them.
pub fn row_of(alloc: Global, text: &str, mark: char) -> Result<Row, Failure> {
    let mut row = Vec::new(alloc);
    for word in text.split(mark) {
        row.push(value_of(alloc, word.trim())?)?;
    }
    Ok(row)
}

/// The rows with a `;` between two of them, and such a mark between two values.
pub fn rows_of(alloc: Global, text: &str, mark: char) -> Result<Vec<Row>, Failure> {
    let mut rows = Vec::new(alloc);
    for part in text.split(';') {
        if !is_nothing(part) {
            rows.push(row_of(alloc, part, mark)?)?;
        }
    }
    Ok(rows)
}

/// Whether a text stands for no row, or for a list of nothing.
pub fn is_nothing(text: &str) -> bool {
    matches!(text.trim(), "" | "-")
}
