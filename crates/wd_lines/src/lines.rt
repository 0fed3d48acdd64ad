//! The parts of a block.

ghost use Rattle.std.specs.Prelude.{◌≡◌, ◌++◌, [], codes, length, take, string_bytes, IfOk, OnErr, OnOk, if◌then◌else◌};
ghost use Rattle.std.specs.Str.{IsUtf8};
ghost use Rattle.wd_lines.specs.Lines as spec;

use crate::values::{add_plain, add_shown, plain};
use std::alloc::Global;
use std::fmt::Write;
use wd_lex::Span;
use wd_source::{Position, line_around, position_at};
use wd_value::OutOfMemory;

/// Adds where bytes of a text are: the path, the line, the column and `: `.
pub fn add_place(out: &mut String, path: &str, text: &[u8], span: Span) -> Result<(), OutOfMemory>
    ensures written { OnOk result (spec.HasPlace path.now text.now span.start (string_bytes out.old) (string_bytes out.new)) }
    ensures kept { OnErr result (string_bytes out.new ≡ string_bytes out.old) }
{
    let position = position_at(text, (span.start as usize).min(text.len()));
    let mut piece = plain(*out.allocator(), path)?;
    add_position(&mut piece, position)?;
    Ok(out.push_str(piece.as_str())?)
}

/// Adds the numbers of a line and a column, and `: `.
fn add_position(out: &mut String, position: Position) -> Result<(), OutOfMemory>
    ensures { OnOk result (string_bytes out.new ≡ string_bytes out.old ++ spec.position_words position) }
{
    let line = position.line;
    let column = position.column;
    Ok(write!(out, ":{line}:{column}: ")?)
}

/// Adds the line of a text in which bytes begin, and below it a caret for each of these bytes' characters on that line.
pub fn add_excerpt(out: &mut String, text: &[u8], span: Span) -> Result<(), OutOfMemory>
    ensures appended { OnOk result (take (length (string_bytes out.old)) (string_bytes out.new) ≡ string_bytes out.old) }
    ensures kept { OnErr result (string_bytes out.new ≡ string_bytes out.old) }
{
    let piece = excerpt(*out.allocator(), text, span)?;
    Ok(out.push_str(piece.as_str())?)
}

/// The line of a text in which bytes begin, with carets below it.
fn excerpt(alloc: Global, text: &[u8], span: Span) -> Result<String, OutOfMemory> {
    let start = (span.start as usize).min(text.len());
    let position = position_at(text, start);
    let line = line_around(text, start);
    let begin = (line.start as usize).min(start);
    let end = (line.end as usize).min(text.len()).max(start);
    let last = (span.end as usize).min(end).max(start);
    let number = position.line;
    let mut lines = format!(in alloc; "{number:5} | ")?;
    add_bytes(&mut lines, &text[begin..end])?;
    lines.push_str("\n      | ")?;
    for _ in 0..characters(&text[begin..start]) {
        lines.push(' ')?;
    }
    for _ in 0..characters(&text[start..last]).max(1) {
        lines.push('^')?;
    }
    lines.push('\n')?;
    Ok(lines)
}

/// How many characters the bytes are; where they are no UTF-8, how many bytes.
fn characters(bytes: &[u8]) -> usize {
    match str::from_utf8(bytes) {
        Ok(text) => text.chars().count(),
        Err(_) => bytes.len(),
    }
}

/// Adds bytes of a text on one line, without blanks at their end.
fn add_bytes(out: &mut String, bytes: &[u8]) -> Result<(), OutOfMemory> {
    match str::from_utf8(bytes) {
        Ok(text) => add_plain(out, text.trim_end()),
        Err(_) => Ok(()),
    }
}

/// Adds a remark.
pub fn add_remark_line(out: &mut String, remark: &str) -> Result<(), OutOfMemory>
    ensures written { OnOk result (string_bytes out.new ≡ string_bytes out.old ++ spec.remark_line remark.now) }
    ensures kept { OnErr result (string_bytes out.new ≡ string_bytes out.old) }
{
    let line = remark_line(*out.allocator(), remark)?;
    Ok(out.push_str(line.as_str())?)
}

/// The line of a remark.
fn remark_line(alloc: Global, remark: &str) -> Result<String, OutOfMemory>
    ensures { IfOk result (λ line. string_bytes line ≡ spec.remark_line remark.now) }
{
    Ok(format!(in alloc; "      = {remark}\n")?)
}

/// Adds bytes of a text on one line, with one blank for each white space; nothing where they are not UTF-8.
pub fn add_joined(out: &mut String, bytes: &[u8]) -> Result<(), OutOfMemory>
    ensures written { OnOk result (IsUtf8 bytes.now → string_bytes out.new ≡ string_bytes out.old ++ spec.joined bytes.now) }
    ensures no_text { OnOk result (¬ (IsUtf8 bytes.now) → string_bytes out.new ≡ string_bytes out.old) }
    ensures kept { OnErr result (string_bytes out.new ≡ string_bytes out.old) }
{
    match str::from_utf8(bytes) {
        Ok(text) => {
            let piece = join_lines(*out.allocator(), text)?;
            Ok(out.push_str(piece.as_str())?)
        }
        Err(_) => Ok(()),
    }
}

/// A text on one line, with one blank for each white space.
fn join_lines(alloc: Global, text: &str) -> Result<String, OutOfMemory>
    ensures { IfOk result (λ line. string_bytes line ≡ spec.joined text.now) }
{
    let mut line = String::new(alloc);
    let mut is_begun = false;
    let mut is_apart = false;
    for c in text.chars() {
        if c.is_whitespace() {
            is_apart = is_begun;
        } else {
            add_blank(&mut line, is_apart)?;
            add_shown(&mut line, c)?;
            is_begun = true;
            is_apart = false;
        }
    }
    Ok(line)
}

/// Adds a blank, where one is asked for.
fn add_blank(out: &mut String, is_asked: bool) -> Result<(), OutOfMemory>
    ensures { OnOk result (string_bytes out.new ≡ string_bytes out.old ++ (if is_asked then codes " " else [])) }
{
    if is_asked {
        out.push_str(" ")?;
    }
    Ok(())
}
