//! How a line writes a text that has several lines, parts that repeat, or bytes that are no UTF-8.
use crate::failure::Failure;
use std::alloc::{AllocError, Global};
use wd_lex::{Token, lex};

/// The bytes that a line stands for. `\n` is a line feed and `\xFF` the byte FF; `\3{ab}` is
/// ababab, and so is `\3[ab]`, which may stand within the braces. In a part that repeats, `\#` is
/// the number of the time, from 0.
pub fn unescape(alloc: Global, line: &str) -> Result<Vec<u8>, AllocError> {
    let inner = repeat_groups(alloc, line, '[', ']')?;
    let outer = repeat_groups(alloc, inner.as_str(), '{', '}')?;
    bytes_of(alloc, outer.as_str())
}

/// The text that a line stands for.
pub fn text_of(alloc: Global, line: &str) -> Result<String, Failure> {
    String::from_utf8(unescape(alloc, line)?).map_err(|_| Failure::NoCase)
}

/// The tokens of the text that a line stands for.
pub fn tokens_of(alloc: Global, line: &str) -> Result<Vec<Token>, Failure> {
    let text = unescape(alloc, line)?;
    Ok(lex(alloc, &text)?)
}

/// The text with each group between such brackets as often as the number before it says.
fn repeat_groups(alloc: Global, text: &str, open: char, close: char) -> Result<String, AllocError> {
    let mut out = String::new(alloc);
    for piece in text.split_inclusive(close) {
        match group_after(piece, open, close) {
            Some((front, times, part)) => {
                out.push_str(front)?;
                push_times(&mut out, times, part)?;
            }
            None => out.push_str(piece)?,
        }
    }
    Ok(out)
}

/// What stands before the group that ends a piece, its number, and what is between its brackets.
fn group_after(piece: &str, open: char, close: char) -> Option<(&str, u32, &str)> {
    let (front, part) = piece.strip_suffix(close)?.rsplit_once(open)?;
    let (front, times) = front.rsplit_once('\\')?;
    Some((front, times.parse().ok()?, part))
}

fn push_times(out: &mut String, times: u32, part: &str) -> Result<(), AllocError> {
    for number in 0..times {
        push_numbered(out, part, number)?;
    }
    Ok(())
}

fn push_numbered(out: &mut String, part: &str, number: u32) -> Result<(), AllocError> {
    for (place, piece) in part.split("\\#").enumerate() {
        if place > 0 {
            write!(out, "{number}")?;
        }
        out.push_str(piece)?;
    }
    Ok(())
}

fn bytes_of(alloc: Global, text: &str) -> Result<Vec<u8>, AllocError> {
    let mut out = Vec::new(alloc);
    for (place, piece) in text.split('\\').enumerate() {
        if place == 0 {
            out.extend_from_slice(piece.as_bytes())?;
        } else {
            push_escaped(&mut out, piece)?;
        }
    }
    Ok(out)
}

/// What stands after a backslash.
fn push_escaped(out: &mut Vec<u8>, piece: &str) -> Result<(), AllocError> {
    let (byte, rest) = first_byte(piece).unwrap_or((b'\\', piece));
    out.push(byte)?;
    out.extend_from_slice(rest.as_bytes())
}

fn first_byte(piece: &str) -> Option<(u8, &str)> {
    if let Some(rest) = piece.strip_prefix('n') {
        return Some((b'\n', rest));
    }
    let rest = piece.strip_prefix('x')?;
    let byte = u8::from_str_radix(rest.get(..2)?, 16).ok()?;
    Some((byte, rest.get(2..)?))
}

/// A text in one line, each line feed as `\n`.
pub fn in_one_line(alloc: Global, text: &[u8]) -> Result<String, Failure> {
    let text = std::str::from_utf8(text).map_err(|_| Failure::NoCase)?;
    let mut out = String::new(alloc);
    for (place, line) in text.split('\n').enumerate() {
        if place > 0 {
            out.push_str("\\n")?;
        }
        out.push_str(line)?;
    }
    Ok(out)
}
