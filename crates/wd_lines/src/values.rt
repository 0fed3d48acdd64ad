//! Values, rows and texts of inputs, as they are printed.

ghost use Rattle.std.specs.Prelude.{◌≡◌, ◌++◌, string_bytes, IfOk, OnErr, OnOk};
ghost use Rattle.wd_lines.specs.Lines as spec;

use std::alloc::Global;
use std::fmt::Write;
use wd_value::{OutOfMemory, Value};

/// Adds a text of an input on one line: a blank replaces each control character and each mark that turns the direction of what follows.
pub fn add_plain(out: &mut String, text: &str) -> Result<(), OutOfMemory>
    ensures written { OnOk result (string_bytes out.new ≡ string_bytes out.old ++ spec.plain text.now) }
    ensures kept { OnErr result (string_bytes out.new ≡ string_bytes out.old) }
{
    let piece = plain(*out.allocator(), text)?;
    Ok(out.push_str(piece.as_str())?)
}

/// A text of an input on one line, as `add_plain` writes it.
pub(crate) fn plain(alloc: Global, text: &str) -> Result<String, OutOfMemory>
    ensures { IfOk result (λ line. string_bytes line ≡ spec.plain text.now) }
{
    let mut line = String::new(alloc);
    for c in text.chars() {
        add_shown(&mut line, c)?;
    }
    Ok(line)
}

/// Adds a character, or a blank in its place.
pub(crate) fn add_shown(out: &mut String, c: char) -> Result<(), OutOfMemory>
    ensures { OnOk result (string_bytes out.new ≡ string_bytes out.old ++ spec.plain_char c) }
{
    if is_shown(c) {
        Ok(out.push(c)?)
    } else {
        Ok(out.push_str(" ")?)
    }
}

/// Whether a character is printed as it is.
fn is_shown(c: char) -> bool
    ensures { result ≡ spec.is_shown c }
{
    let code = c as u32;
    !(code < 32
        || is_within(127, 159, code)
        || code == 0x61C
        || is_within(0x200E, 0x200F, code)
        || is_within(0x2028, 0x202E, code)
        || is_within(0x2066, 0x2069, code))
}

/// Whether a character is one of those from one to another.
fn is_within(first: u32, last: u32, code: u32) -> bool
    ensures { result ≡ spec.is_within first last code }
{
    first <= code && code <= last
}

/// Adds a value as it is written in SQL.
pub(crate) fn add_value(out: &mut String, value: &Value) -> Result<(), OutOfMemory> {
    match value {
        Value::Null => Ok(out.push_str("NULL")?),
        Value::Int(number) => Ok(write!(out, "{number}")?),
        Value::Bool(true) => Ok(out.push_str("true")?),
        Value::Bool(false) => Ok(out.push_str("false")?),
        Value::Text(text) => {
            out.push('\'')?;
            add_plain(out, text.as_str())?;
            Ok(out.push('\'')?)
        }
    }
}
