//! Texts with marks.

ghost use Rattle.std.specs.Prelude.{◌≡◌, length, take, OnErr, OnOk};

use std::alloc::Global;
use wd_lex::Span;
use wd_markup::{Class, Page, Tag};
use wd_source::line_around;
use wd_value::OutOfMemory;

/// Adds a text with marks at these spans of it, which are in order. Of spans that overlap, the first is marked.
pub fn add_marked(
    alloc: Global,
    page: &mut Page,
    text: &[u8],
    spans: &[Span],
) -> Result<(), OutOfMemory>
    ensures appended { OnOk result (take (length page.old) page.new ≡ page.old) }
    ensures kept { OnErr result (page.new ≡ page.old) }
{
    let part = marked_part(alloc, text, spans)?;
    Ok(page.append(&part)?)
}

/// A text with marks.
fn marked_part(alloc: Global, text: &[u8], spans: &[Span]) -> Result<Page, OutOfMemory> {
    let mut page = Page::new(alloc);
    page.open(Tag::Preformatted, Class::Plain)?;
    let mut from = 0;
    for span in spans {
        from = add_mark(&mut page, text, from, *span)?;
    }
    page.text(&text[from.min(text.len())..])?;
    page.close(Tag::Preformatted)?;
    Ok(page)
}

/// Adds the text from a byte to the end of a span, with the span marked; the result is that end. Where the span begins before that byte,
/// nothing is added.
fn add_mark(page: &mut Page, text: &[u8], from: usize, span: Span) -> Result<usize, OutOfMemory> {
    let start = (span.start as usize).min(text.len());
    let end = (span.end as usize).min(text.len());
    if start < from || end <= start {
        return Ok(from);
    }
    page.text(&text[from..start])?;
    page.element(Tag::Mark, Class::Plain, &text[start..end])?;
    Ok(end)
}

/// Adds the line of a text in which a span begins, and a caret below each of the span's characters on it.
pub fn add_excerpt(
    alloc: Global,
    page: &mut Page,
    text: &[u8],
    span: Span,
) -> Result<(), OutOfMemory>
    ensures appended { OnOk result (take (length page.old) page.new ≡ page.old) }
    ensures kept { OnErr result (page.new ≡ page.old) }
{
    let part = excerpt_part(alloc, text, span)?;
    Ok(page.append(&part)?)
}

/// The line of a text in which a span begins, with carets below it.
fn excerpt_part(alloc: Global, text: &[u8], span: Span) -> Result<Page, OutOfMemory> {
    let start = (span.start as usize).min(text.len());
    let line = line_around(text, start);
    let begin = (line.start as usize).min(start);
    let end = (line.end as usize).min(text.len()).max(start);
    let last = (span.end as usize).min(end).max(start);
    let mut page = Page::new(alloc);
    page.open(Tag::Preformatted, Class::Plain)?;
    page.text(&text[begin..end])?;
    page.text(b"\n")?;
    add_blanks(&mut page, &text[begin..start])?;
    page.open(Tag::Span, Class::Caret)?;
    add_carets(&mut page, &text[start..last])?;
    page.close(Tag::Span)?;
    page.close(Tag::Preformatted)?;
    Ok(page)
}

/// Adds a blank for each character, and a tab for each tab.
fn add_blanks(page: &mut Page, text: &[u8]) -> Result<(), OutOfMemory> {
    for byte in text {
        if *byte == b'\t' {
            page.text(b"\t")?;
        } else if begins_character(*byte) {
            page.text(b" ")?;
        }
    }
    Ok(())
}

/// Adds a caret for each character, and one caret for an empty text.
fn add_carets(page: &mut Page, text: &[u8]) -> Result<(), OutOfMemory> {
    page.text(b"^")?;
    for byte in text.iter().skip(1) {
        if begins_character(*byte) {
            page.text(b"^")?;
        }
    }
    Ok(())
}

/// Whether a character begins with that byte in UTF-8.
fn begins_character(byte: u8) -> bool {
    !(128 <= byte && byte < 192)
}
