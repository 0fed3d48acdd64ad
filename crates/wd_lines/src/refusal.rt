//! Blocks of what is not read.

ghost use Rattle.std.specs.Prelude.{◌≡◌, ◌++◌, length, take, string_bytes, IfOk, OnErr, OnOk};
ghost use Rattle.wd_lines.specs.Lines as spec;

use crate::lines::{add_excerpt, add_place};
use crate::remedy::remedy_at;
use crate::values::{add_plain, plain};
use crate::words::refusal_words;
use std::alloc::Global;
use std::fmt::Write;
use wd_lex::Span;
use wd_value::OutOfMemory;

/// The sentence of a refusal of this number in a text, and what to write in place of what is refused: by the word at which the refusal
/// is, where that word tells what was meant.
pub fn refusal_words_at(
    number: u32,
    text: &[u8],
    span: Option<Span>,
) -> (&'static str, &'static str) {
    let (sentence, usual) = refusal_words(number);
    let meant = span.and_then(|span| remedy_at(number, text, span));
    (sentence, meant.unwrap_or(usual))
}

/// Adds the block of a refusal of this number in the text of a path, with its place where that is known.
pub fn add_refusal(
    out: &mut String,
    path: &str,
    text: &[u8],
    number: u32,
    span: Option<Span>,
) -> Result<(), OutOfMemory>
    ensures appended { OnOk result (take (length (string_bytes out.old)) (string_bytes out.new) ≡ string_bytes out.old) }
    ensures kept { OnErr result (string_bytes out.new ≡ string_bytes out.old) }
{
    let block = refusal_block(*out.allocator(), path, text, number, span)?;
    Ok(out.push_str(block.as_str())?)
}

/// The block of a refusal.
fn refusal_block(
    alloc: Global,
    path: &str,
    text: &[u8],
    number: u32,
    span: Option<Span>,
) -> Result<String, OutOfMemory> {
    let (sentence, remedy) = refusal_words_at(number, text, span);
    let mut block = String::new(alloc);
    match span {
        Some(span) => add_place(&mut block, path, text, span)?,
        None => {
            add_plain(&mut block, path)?;
            block.push_str(": ")?;
        }
    }
    writeln!(block, "not read: {sentence} [{number}]")?;
    if let Some(span) = span {
        add_excerpt(&mut block, text, span)?;
    }
    writeln!(block, "      help: {remedy}\n")?;
    Ok(block)
}

/// Adds a line about a path, for which nothing is read.
pub fn add_remark(out: &mut String, path: &str, remark: &str) -> Result<(), OutOfMemory>
    ensures written { OnOk result (string_bytes out.new ≡ string_bytes out.old ++ spec.remark_on path.now remark.now) }
    ensures kept { OnErr result (string_bytes out.new ≡ string_bytes out.old) }
{
    let line = remark_on(*out.allocator(), path, remark)?;
    Ok(out.push_str(line.as_str())?)
}

/// A line about a path, and an empty line after it.
fn remark_on(alloc: Global, path: &str, remark: &str) -> Result<String, OutOfMemory>
    ensures { IfOk result (λ line. string_bytes line ≡ spec.remark_on path.now remark.now) }
{
    let mut line = plain(alloc, path)?;
    line.push_str(": ")?;
    line.push_str(remark)?;
    line.push_str("\n\n")?;
    Ok(line)
}
