//! One finding as JSON.

use serde_json::{Value, json};
use std::alloc::Global;
use wd_source::Position;
use wd_value::OutOfMemory;

/// A line of JSON without white space: an object of what is found (`finding`), the file, line and column, the lines that a person reads
/// (`text`), and the text of the query with which it has one answer (`mended`), or null.
pub fn json_line(
    alloc: Global,
    finding: &str,
    path: &str,
    position: Position,
    text: &str,
    mended: Option<&str>,
) -> Result<String, OutOfMemory> {
    let line = position.line;
    let column = position.column;
    let mended = match mended {
        Some(mended) => json!(in alloc; mended)?,
        None => Value::Null,
    };
    let value = json!(in alloc; {
        "column": column,
        "finding": finding,
        "line": line,
        "mended": &mended,
        "path": path,
        "text": text
    })?;
    let mut written = value.to_string(alloc)?;
    written.push('\n')?;
    Ok(written)
}
