ghost use Rattle.std.specs.Prelude.{◌≡◌, [], IfOk, option_and_then};
ghost use Rattle.wd_tables.specs.Fields as spec;

use crate::recent::RecentTexts;
use std::alloc::Global;
use wd_schema::{Column, is_of_type};
use wd_value::{ColumnType, OutOfMemory, Text, Value};

/// The value that a field stands for in a column, if there is one. A text shares the bytes of an equal text that was read recently.
pub fn field_value(
    alloc: Global,
    column: &Column,
    field: &str,
    recent: &mut RecentTexts,
) -> Result<Option<Value>, OutOfMemory>
    ensures { IfOk result (λ o. o ≡ spec.field_value column.now field.now) }
{
    if field.is_empty() {
        return Ok(Some(empty_value(alloc, column)?));
    }
    let value = match column.kind {
        ColumnType::Text => Some(Value::Text(recent.text_of(alloc, field)?)),
        ColumnType::Boolean => truth_value(field).map(Value::Bool),
        kind => number_value(kind, field),
    };
    Ok(value)
}

// The value of an empty field: NULL, or the empty text in a NOT NULL column of texts.
fn empty_value(alloc: Global, column: &Column) -> Result<Value, OutOfMemory>
    ensures { IfOk result (λ v. Some v ≡ spec.field_value column.now []) }
{
    if column.not_null && column.kind == ColumnType::Text {
        Ok(Value::Text(Text::from_str(alloc, "")?))
    } else {
        Ok(Value::Null)
    }
}

// The truth value of `t`, `f`, `true` or `false` in any ASCII case.
fn truth_value(field: &str) -> Option<bool>
    ensures { result ≡ spec.truth_value field.now }
{
    if field.eq_ignore_ascii_case("t") || field.eq_ignore_ascii_case("true") {
        Some(true)
    } else if field.eq_ignore_ascii_case("f") || field.eq_ignore_ascii_case("false") {
        Some(false)
    } else {
        None
    }
}

// The number of digits with or without a minus before them, if it is in the type's range.
fn number_value(kind: ColumnType, field: &str) -> Option<Value>
    ensures { result ≡ option_and_then (spec.number_in kind) (spec.whole_number field.now) }
{
    if field.starts_with('+') {
        return None;
    }
    match field.parse::<i64>() {
        Ok(number) => number_in(kind, number),
        Err(_) => None,
    }
}

fn number_in(kind: ColumnType, number: i64) -> Option<Value>
    ensures { result ≡ spec.number_in kind number }
{
    let value = Value::Int(number);
    if is_of_type(kind, &value) {
        Some(value)
    } else {
        None
    }
}
