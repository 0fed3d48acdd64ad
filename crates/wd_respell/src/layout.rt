//! Tokens as a text, each as near as possible to its place in the source.

use std::alloc::Global;
use wd_lex::Token;
use wd_token_text::push_token;
use wd_value::OutOfMemory;

/// A text that is being written, and its current line.
#[derive(Drop)]
struct Layout {
    text: String,
    /// The line of the next token, counted from 0.
    line: usize,
    /// The byte at which that line begins in the text.
    line_start: usize,
}

/// The text of tokens from a source: what comes before its first token, followed by the tokens. A token whose place in the source is
/// further down or further to the right than the end of the text is written at that place, any other one after a blank. At the end lines
/// are added until there are as many as in the source.
pub(crate) fn lay_out(
    alloc: Global,
    source: &[u8],
    start: usize,
    tokens: &[Token],
) -> Result<String, OutOfMemory> {
    let breaks = line_breaks(alloc, source)?;
    let before = &source[..start.min(source.len())];
    let mut layout = Layout::new(alloc, before)?;
    for token in tokens {
        layout.move_to(&breaks, token.span.start as usize)?;
        layout.add(token)?;
    }
    layout.end_on(breaks.len())?;
    Ok(layout.text)
}

/// The bytes at which the lines of a text end.
fn line_breaks(alloc: Global, text: &[u8]) -> Result<Vec<usize>, OutOfMemory> {
    let mut breaks = Vec::new(alloc);
    for at in 0..text.len() {
        if text[at] == b'\n' {
            breaks.push(at)?;
        }
    }
    Ok(breaks)
}

impl Layout {
    /// A text that begins with these bytes, if they are UTF-8.
    fn new(alloc: Global, before: &[u8]) -> Result<Layout, OutOfMemory> {
        let mut text = String::new(alloc);
        text.push_str(str::from_utf8(before).unwrap_or(""))?;
        let breaks = line_breaks(alloc, text.as_bytes())?;
        let line_start = match breaks.last() {
            Some(at) => at.saturating_add(1),
            None => 0,
        };
        Ok(Layout {
            text,
            line: breaks.len(),
            line_start,
        })
    }

    /// Continues to the place of a token that began at a byte of the source, if that is further on; otherwise adds one blank.
    fn move_to(&mut self, breaks: &[usize], at: usize) -> Result<(), OutOfMemory> {
        let line = breaks.partition_point(|end| *end < at);
        if line > self.line {
            self.end_on(line)?;
        }
        let start = match line.checked_sub(1) {
            Some(last) => breaks[last].saturating_add(1),
            None => 0,
        };
        let column = at.saturating_sub(start);
        let mut here = self.text.len().saturating_sub(self.line_start);
        if here > 0
            && !self
                .text
                .as_bytes()
                .last()
                .is_some_and(|byte| byte.is_ascii_whitespace())
        {
            self.text.push(' ')?;
            here = here.saturating_add(1);
        }
        if line == self.line {
            for _ in here..column {
                self.text.push(' ')?;
            }
        }
        Ok(())
    }

    /// Begins lines up to the given number.
    fn end_on(&mut self, line: usize) -> Result<(), OutOfMemory> {
        for ended in self.line..line {
            self.text.push('\n')?;
            self.line = ended.saturating_add(1);
            self.line_start = self.text.len();
        }
        Ok(())
    }

    /// Adds a token.
    fn add(&mut self, token: &Token) -> Result<(), OutOfMemory> {
        let mut piece = String::new(*self.text.allocator());
        push_token(&mut piece, token)?;
        for letter in piece.as_str().trim_end().chars() {
            self.text.push(letter)?;
            if letter == '\n' {
                self.line = self.line.saturating_add(1);
                self.line_start = self.text.len();
            }
        }
        Ok(())
    }
}
