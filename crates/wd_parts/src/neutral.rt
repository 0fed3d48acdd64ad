//! A text with parts replaced.

ghost use Rattle.std.specs.Prelude.{IfSome};
ghost use Rattle.wd_parts.specs.Whole.{IsWhole};

use crate::part::{Neutral, Part};
use std::alloc::Global;
use std::fmt::Write;
use wd_keys::Change;
use wd_lex::{Span, Token};
use wd_value::OutOfMemory;

/// The bytes from the beginning of one token up to the end of the token before another one.
pub fn bytes_of(tokens: &[Token], first: usize, end: usize) -> Option<Span>
    ensures { IfSome result (IsWhole tokens.now) }
{
    let last = end.checked_sub(1)?;
    if first > last {
        return None;
    }
    let start = tokens.get(first)?.span.start;
    let end = tokens.get(last)?.span.end;
    Some(Span { start, end })
}

/// The changes that replace these parts in a text, except those within others; `table` is the name of a table.
pub fn changes(
    alloc: Global,
    text: &[u8],
    tokens: &[Token],
    parts: &[Part],
    table: &str,
) -> Result<Vec<Change>, OutOfMemory> {
    let longest = longest(alloc, tokens.len(), parts)?;
    let mut changes = Vec::new(alloc);
    let mut next = 0;
    for (number, part) in longest.iter().enumerate() {
        if number < next {
            continue;
        }
        if let Some(part) = part {
            if let Some(span) = bytes_of(tokens, part.first, part.end.min(tokens.len())) {
                changes.push(change(alloc, text, *part, span, table)?)?;
                next = part.end;
            }
        }
    }
    Ok(changes)
}

/// For each of the tokens the longest part that begins there.
fn longest(alloc: Global, tokens: usize, parts: &[Part]) -> Result<Vec<Option<Part>>, OutOfMemory> {
    let mut longest: Vec<Option<Part>> = Vec::with_capacity(alloc, tokens)?;
    for _ in 0..tokens {
        longest.push(None)?;
    }
    for part in parts {
        if let Some(place) = longest.get_mut(part.first) {
            let is_longer = match place {
                Some(other) => other.end < part.end,
                None => true,
            };
            if is_longer {
                *place = Some(*part);
            }
        }
    }
    Ok(longest)
}

/// The change that replaces a part, which takes these bytes.
fn change(
    alloc: Global,
    text: &[u8],
    part: Part,
    span: Span,
    table: &str,
) -> Result<Change, OutOfMemory> {
    let mut put = String::from_str(alloc, " ")?;
    add_neutral(&mut put, text, part, span, table)?;
    put.push(' ')?;
    Ok(Change {
        at: span.start,
        end: span.end,
        text: put,
        keys: String::new(alloc),
    })
}

/// Adds the replacement of a part.
fn add_neutral(
    put: &mut String,
    text: &[u8],
    part: Part,
    span: Span,
    table: &str,
) -> Result<(), OutOfMemory> {
    let number = part.first;
    match part.neutral {
        Neutral::Null => Ok(put.push_str("NULL")?),
        Neutral::Brackets => Ok(put.push_str("()")?),
        Neutral::Nothing => Ok(()),
        Neutral::Only => Ok(put.push_str("ONLY")?),
        Neutral::One => Ok(put.push_str("1")?),
        Neutral::Table => add_quoted(put, table),
        Neutral::Name => Ok(write!(put, "\"wdreport {number}\"")?),
        Neutral::Called => {
            add_bytes(put, text, span)?;
            Ok(write!(put, " AS \"wdreport {number}\"")?)
        }
        Neutral::Column => Ok(write!(put, "\"wdreport {number}\" TEXT")?),
        Neutral::Type => Ok(put.push_str("TEXT")?),
    }
}

/// Adds a name in quotes.
fn add_quoted(put: &mut String, name: &str) -> Result<(), OutOfMemory> {
    put.push('"')?;
    for c in name.chars() {
        if c == '"' {
            put.push('"')?;
        }
        put.push(c)?;
    }
    Ok(put.push('"')?)
}

/// Adds the bytes of a text at a span.
fn add_bytes(put: &mut String, text: &[u8], span: Span) -> Result<(), OutOfMemory> {
    let end = (span.end as usize).min(text.len());
    let start = (span.start as usize).min(end);
    match str::from_utf8(&text[start..end]) {
        Ok(words) => Ok(put.push_str(words)?),
        Err(_) => Ok(()),
    }
}
