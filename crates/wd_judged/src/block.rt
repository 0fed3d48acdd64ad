//! What a person reads about a place.

ghost use Rattle.std.specs.Prelude.{◌≡◌, length, min, slice_get, string_bytes, IfOk, IfSome};
ghost use Rattle.wd_block.specs.Heads.{BeginsBlock};
ghost use Rattle.wd_block.specs.Kinds.{kind_of};
ghost use Rattle.wd_judged.specs.Heads.{HaveHeads};
ghost use Rattle.wd_source.specs.Places.{IsPosition};

use crate::judged::File;
use std::alloc::Global;
use wd_block::{Statement, add_open};
use wd_decide::DecideError;
use wd_finding::{Finding, OpenPlace, RefusedText, refused_place};
use wd_help::Help;
use wd_lex::Span;
use wd_lines::{add_joined, add_refusal};
use wd_source::{Position, position_at};
use wd_value::OutOfMemory;

/// What is reported about a place.
#[derive(Drop)]
pub struct Block {
    /// Whether the place is one of the query's file or of the schema's.
    pub about: RefusedText,
    /// The bytes of the place in that file, where they are known.
    pub span: Option<Span>,
    /// The line and the column at which these bytes begin; where they are not known, those of the statement, or of the file if it is
    /// refused.
    pub position: Position,
    /// The words at the place, with one blank for each white space; empty where the place is not known.
    pub words: String,
    /// The lines that a person reads.
    pub text: String,
}

/// A block for each place that is open in a statement.
pub(crate) fn open_blocks(
    alloc: Global,
    statement: Statement<'_>,
    finding: &Finding,
    help: Option<&Help>,
    alike: Option<&Help>,
) -> Result<Vec<Block>, OutOfMemory>
    ensures told { IfOk result (λ blocks. length blocks.items ≡ length finding.now.places.items) }
    ensures heads { IfOk result (λ blocks. HaveHeads statement.entry.path.now statement.entry.text.now statement.entry.start (kind_of finding.now.verdict finding.now.certain finding.now.further) finding.now.places.items blocks.items) }
{
    let mut blocks = Vec::new(alloc);
    for number in 0..finding.places.len() {
        blocks.push(open_block(alloc, statement, finding, number, help, alike)?)?;
    }
    Ok(blocks)
}

/// The block for the place with a number that is open in a statement.
fn open_block(
    alloc: Global,
    statement: Statement<'_>,
    finding: &Finding,
    number: usize,
    help: Option<&Help>,
    alike: Option<&Help>,
) -> Result<Block, OutOfMemory>
    ensures { IfOk result (λ block. IfSome (slice_get finding.now.places.items number) (λ place. BeginsBlock statement.entry.path.now statement.entry.text.now statement.entry.start (kind_of finding.now.verdict finding.now.certain finding.now.further) place (string_bytes block.text))) }
{
    let mut text = String::new(alloc);
    add_open(alloc, &mut text, statement, finding, number, help, alike)?;
    let span = match finding.places.get(number) {
        Some(
            OpenPlace {
                site: Some(site),
                ..
            },
        ) => Some(shift_span(site.span, statement.start)),
        _ => None,
    };
    let first = first_of(span, statement.start);
    block_at(alloc, RefusedText::Query, statement.text, span, first, text)
}

/// The block for a statement that is refused, or whose schema is.
pub(crate) fn refusal_block(
    alloc: Global,
    schema: File<'_>,
    query: &[u8],
    statement: Statement<'_>,
    error: &DecideError,
) -> Result<Block, OutOfMemory> {
    let Some(place) = refused_place(alloc, schema.text, query, error) else {
        return Err(OutOfMemory);
    };
    let (file, span) = match place.text {
        RefusedText::Schema => (schema, place.span),
        RefusedText::Query => (
            File {
                path: statement.path,
                text: statement.text,
            },
            place.span.map(|span| shift_span(span, statement.start)),
        ),
    };
    let mut text = String::new(alloc);
    add_refusal(&mut text, file.path, file.text, place.number, span)?;
    block_at(alloc, place.text, file.text, span, first_of(span, 0), text)
}

/// The first byte of a place, or `other` where the place is not known.
fn first_of(span: Option<Span>, other: u64) -> u64 {
    match span {
        Some(span) => span.start,
        None => other,
    }
}

/// The block for a place of a file, with this first byte and these lines.
fn block_at(
    alloc: Global,
    about: RefusedText,
    source: &[u8],
    span: Option<Span>,
    first: u64,
    text: String,
) -> Result<Block, OutOfMemory>
    ensures position { IfOk result (λ block. IsPosition source.now (min first (length source.now)) block.position) }
    ensures text { IfOk result (λ block. string_bytes block.text ≡ string_bytes text) }
{
    let words = words_at(alloc, source, span)?;
    Ok(Block {
        about,
        span,
        position: position_at(source, (first as usize).min(source.len())),
        words,
        text,
    })
}

/// The words of a place.
fn words_at(alloc: Global, source: &[u8], span: Option<Span>) -> Result<String, OutOfMemory> {
    let mut words = String::new(alloc);
    if let Some(span) = span {
        let end = (span.end as usize).min(source.len());
        let start = (span.start as usize).min(end);
        add_joined(&mut words, &source[start..end])?;
    }
    Ok(words)
}

/// Bytes of a statement as bytes of its file.
fn shift_span(span: Span, start: u64) -> Span {
    Span {
        start: span.start.saturating_add(start),
        end: span.end.saturating_add(start),
    }
}
