//! The words of types, faults and values.

use std::alloc::Global;
use std::fmt::Write;
use wd_value::{ColumnType, Fault, OutOfMemory, Value};

/// The words for a fault.
pub(crate) fn fault_words(fault: Fault) -> &'static str {
    match fault {
        Fault::DivisionByZero => "an error: division by zero",
        Fault::OutOfRange => "an error: a number out of range",
    }
}

/// The name of a column's type in SQL.
pub(crate) fn type_word(kind: ColumnType) -> &'static str {
    match kind {
        ColumnType::SmallInt => "SMALLINT",
        ColumnType::Integer => "INTEGER",
        ColumnType::BigInt => "BIGINT",
        ColumnType::Text => "TEXT",
        ColumnType::Boolean => "BOOLEAN",
    }
}

/// A value as a reader of a table sees it.
pub(crate) fn value_text(alloc: Global, value: &Value) -> Result<String, OutOfMemory> {
    let mut text = String::new(alloc);
    match value {
        Value::Null => text.push_str("NULL")?,
        Value::Int(number) => write!(text, "{number}")?,
        Value::Bool(true) => text.push_str("true")?,
        Value::Bool(false) => text.push_str("false")?,
        Value::Text(value) => text.push_str(value.as_str())?,
    }
    Ok(text)
}

/// The separator before the item of a list with this number.
pub(crate) fn separator(number: usize) -> &'static str {
    if number > 0 { ", " } else { "" }
}
