//! Colours of what a terminal shows.

use std::alloc::Global;
use wd_value::OutOfMemory;

/// The lines of blocks in colours: the line with a block's place in bold, its carets in red, its help in green.
pub(crate) fn colour(alloc: Global, text: &[u8]) -> Result<Vec<u8>, OutOfMemory> {
    let mut out = Vec::new(alloc);
    let mut is_head = true;
    for line in text.split_inclusive(|b| *b == b'\n') {
        let words = match line.split_last() {
            Some((b'\n', words)) => words,
            _ => line,
        };
        match code_of(words, is_head) {
            Some(code) => {
                out.extend_from_slice(code)?;
                out.extend_from_slice(words)?;
                out.extend_from_slice(b"\x1b[0m")?;
            }
            None => out.extend_from_slice(words)?,
        }
        if words.len() < line.len() {
            out.push(b'\n')?;
        }
        is_head = words.is_empty();
    }
    Ok(out)
}

/// The code that turns on the colour of a line, if it has one.
fn code_of(line: &[u8], is_head: bool) -> Option<&'static [u8]> {
    if line.is_empty() {
        None
    } else if is_head {
        Some(b"\x1b[1m")
    } else if line.starts_with(b"      | ") {
        Some(b"\x1b[31m")
    } else if line.starts_with(b"      help: ") {
        Some(b"\x1b[32m")
    } else {
        None
    }
}
