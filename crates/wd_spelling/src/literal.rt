//! Literals as they are written in SQL.

ghost use Rattle.std.specs.Prelude.{◌≡◌, ◌++◌, codes, chars, flat_map, string_bytes, IfOk, OnOk};
ghost use Rattle.wd_spelling.specs.Spelling as spec;

use std::alloc::Global;
use wd_value::{OutOfMemory, Value};

/// A literal.
pub(crate) fn literal(alloc: Global, value: &Value) -> Result<String, OutOfMemory>
    ensures { IfOk result (λ s. string_bytes s ≡ spec.literal_word value.now) }
{
    match value {
        Value::Null => Ok(String::from_str(alloc, "NULL")?),
        Value::Int(number) => Ok(format!(in alloc; "{number}")?),
        Value::Bool(true) => Ok(String::from_str(alloc, "TRUE")?),
        Value::Bool(false) => Ok(String::from_str(alloc, "FALSE")?),
        Value::Text(text) => {
            let inner = double_quotes(alloc, text.as_str())?;
            Ok(format!(in alloc; "'{inner}'")?)
        }
    }
}

/// A text with each quote in it doubled.
fn double_quotes(alloc: Global, text: &str) -> Result<String, OutOfMemory>
    ensures { IfOk result (λ s. string_bytes s ≡ flat_map spec.quoted_char (chars text.now)) }
{
    let mut inner = String::new(alloc);
    for c in text.chars() {
        add_char(&mut inner, c)?;
    }
    Ok(inner)
}

/// Adds a character; a quote is doubled.
fn add_char(inner: &mut String, c: char) -> Result<(), OutOfMemory>
    ensures { OnOk result (string_bytes inner.new ≡ string_bytes inner.old ++ spec.quoted_char c) }
{
    if c == '\'' {
        Ok(inner.push_str("''")?)
    } else {
        Ok(inner.push(c)?)
    }
}
