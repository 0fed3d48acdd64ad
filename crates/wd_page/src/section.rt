//! The part of a page that is about one query.

use crate::query::{Judged, Query, Refusal};
use crate::words::{kind_class, kind_sentence, kind_word};
use std::alloc::Global;
use wd_lex::Span;
use wd_lines::Kind;
use wd_markup::{Class, Page, Tag};
use wd_page_parts::{
    Grounds, Place, add_answers, add_change, add_excerpt, add_marked, add_plan, add_replay,
    add_tables,
};
use wd_ties::TableColumn;
use wd_value::OutOfMemory;

/// Adds the section of a query that is read.
pub(crate) fn add_judged(
    alloc: Global,
    page: &mut Page,
    number: u64,
    query: Query<'_, '_, '_>,
    judged: Judged<'_>,
    places: &[Place],
    help: Option<&[u8]>,
) -> Result<(), OutOfMemory> {
    begin_section(alloc, page, number, query, judged.kind)?;
    add_text(alloc, page, query.text, places)?;
    add_places(alloc, page, places)?;
    add_evidence(alloc, page, judged)?;
    add_help(alloc, page, query.text, help)?;
    add_plan_part(alloc, page, judged, places)?;
    add_replay_part(alloc, page, judged, query)?;
    Ok(page.close(Tag::Section)?)
}

/// Adds the section of a query that is not read.
pub(crate) fn add_refused(
    alloc: Global,
    page: &mut Page,
    number: u64,
    query: Query<'_, '_, '_>,
    refusal: Refusal<'_, '_>,
) -> Result<(), OutOfMemory> {
    begin_section(alloc, page, number, query, Kind::NotRead)?;
    add_refusal(alloc, page, refusal)?;
    if let Some(span) = refusal.span {
        add_excerpt(alloc, page, refusal.text, span)?;
    }
    page.element(Tag::Paragraph, Class::Soft, refusal.remedy.as_bytes())?;
    Ok(page.close(Tag::Section)?)
}

/// Begins a section: the place of the query, its verdict, and why it is excused.
fn begin_section(
    alloc: Global,
    page: &mut Page,
    number: u64,
    query: Query<'_, '_, '_>,
    kind: Kind,
) -> Result<(), OutOfMemory> {
    page.open_anchor(Tag::Section, Class::Plain, number)?;
    page.open(Tag::SectionHeading, Class::Plain)?;
    add_place(alloc, page, query.path, query.line)?;
    page.text(b" ")?;
    page.element(Tag::Span, kind_class(kind), kind_word(kind).as_bytes())?;
    page.close(Tag::SectionHeading)?;
    page.element(Tag::Paragraph, Class::Plain, kind_sentence(kind).as_bytes())?;
    add_excuse(page, query.excused)
}

/// Adds a path and a line.
pub(crate) fn add_place(
    alloc: Global,
    page: &mut Page,
    path: &str,
    line: u64,
) -> Result<(), OutOfMemory> {
    page.text(path.as_bytes())?;
    add_number(alloc, page, ":", line)
}

/// Adds why a query is excused, if it is.
fn add_excuse(page: &mut Page, excused: Option<&[u8]>) -> Result<(), OutOfMemory> {
    if let Some(reason) = excused {
        page.open(Tag::Paragraph, Class::Soft)?;
        page.text(b"Excused in the text: ")?;
        page.text(reason)?;
        page.close(Tag::Paragraph)?;
    }
    Ok(())
}

/// Adds why a text is not read.
fn add_refusal(
    alloc: Global,
    page: &mut Page,
    refusal: Refusal<'_, '_>,
) -> Result<(), OutOfMemory> {
    page.open(Tag::Paragraph, Class::Plain)?;
    page.element(Tag::Code, Class::Plain, refusal.path.as_bytes())?;
    add_sentence(alloc, page, refusal.sentence, refusal.number)?;
    Ok(page.close(Tag::Paragraph)?)
}

/// Adds the sentence of a refusal with its number.
fn add_sentence(
    alloc: Global,
    page: &mut Page,
    sentence: &str,
    number: u32,
) -> Result<(), OutOfMemory> {
    let words = format!(in alloc; ": {sentence} [{number}]")?;
    Ok(page.text(words.as_bytes())?)
}

/// Adds a query's text, with marks at what is open.
fn add_text(
    alloc: Global,
    page: &mut Page,
    text: &[u8],
    places: &[Place],
) -> Result<(), OutOfMemory> {
    let spans = spans_of(alloc, places)?;
    add_marked(alloc, page, text, &spans)
}

/// The spans of places, in order.
fn spans_of(alloc: Global, places: &[Place]) -> Result<Vec<Span>, OutOfMemory> {
    let mut spans = Vec::new(alloc);
    for place in places {
        if let Some(span) = place.span {
            spans.push(span)?;
        }
    }
    spans.sort_by_key(|span| span.start)?;
    Ok(spans)
}

/// Adds a list of what is open.
fn add_places(alloc: Global, page: &mut Page, places: &[Place]) -> Result<(), OutOfMemory> {
    if places.is_empty() {
        return Ok(());
    }
    page.open(Tag::Numbered, Class::Plain)?;
    for place in places {
        add_open(alloc, page, *place)?;
    }
    Ok(page.close(Tag::Numbered)?)
}

/// Adds the words for an open place.
fn add_open(alloc: Global, page: &mut Page, place: Place) -> Result<(), OutOfMemory> {
    page.open(Tag::Item, Class::Plain)?;
    if place.span.is_some() {
        add_number(alloc, page, "line ", place.line)?;
        page.text(b": ")?;
    }
    page.text(place.words.as_bytes())?;
    page.text(b": ")?;
    page.text(place.lack.as_bytes())?;
    Ok(page.close(Tag::Item)?)
}

/// Adds a number after a word.
pub(crate) fn add_number(
    alloc: Global,
    page: &mut Page,
    word: &str,
    number: u64,
) -> Result<(), OutOfMemory> {
    let words = format!(in alloc; "{word}{number}")?;
    Ok(page.text(words.as_bytes())?)
}

/// Adds the heading of a part.
fn add_heading(page: &mut Page, heading: &str) -> Result<(), OutOfMemory> {
    Ok(page.element(Tag::PartHeading, Class::Plain, heading.as_bytes())?)
}

/// The heading of rows in which these columns are marked.
fn rows_heading(ties: &[TableColumn]) -> &'static str {
    if ties.is_empty() {
        "Rows that the schema allows"
    } else {
        "Rows that the schema allows, which tie by the marked columns"
    }
}

/// Adds the rows over which a query has two answers, and the answers.
fn add_evidence(alloc: Global, page: &mut Page, judged: Judged<'_>) -> Result<(), OutOfMemory> {
    if let Some(tables) = judged.tables {
        add_heading(page, rows_heading(judged.ties))?;
        add_tables(alloc, page, judged.schema, tables, judged.ties)?;
    }
    if let Some((first, second)) = judged.answers {
        add_heading(page, "Two answers over them, as the database likes")?;
        add_answers(alloc, page, judged.names, first, second)?;
    }
    Ok(())
}

/// Adds the help, if there is one.
fn add_help(
    alloc: Global,
    page: &mut Page,
    text: &[u8],
    help: Option<&[u8]>,
) -> Result<(), OutOfMemory> {
    if let Some(changed) = help {
        add_heading(page, "A key with which it has one answer")?;
        add_change(alloc, page, text, changed)?;
    }
    Ok(())
}

/// Adds the plan, which the reader can open.
fn add_plan_part(
    alloc: Global,
    page: &mut Page,
    judged: Judged<'_>,
    places: &[Place],
) -> Result<(), OutOfMemory> {
    let words = match judged.kind {
        Kind::Deterministic if judged.is_simpler => {
            "Why: a simpler plan with the same answers, with its rules; NULL and count(*) stand for what nothing reads"
        }
        Kind::Deterministic => "Why: the plan, from the tables to the answer, with its rules",
        _ => "The plan, from the tables to the answer",
    };
    page.open(Tag::Details, Class::Plain)?;
    page.element(Tag::Summary, Class::Plain, words.as_bytes())?;
    let grounds = Grounds {
        schema: judged.schema,
        certificate: judged.certificate,
        places,
    };
    add_plan(alloc, page, grounds, 0, judged.plan)?;
    Ok(page.close(Tag::Details)?)
}

/// Adds a script for PostgreSQL, if there are rows for it.
fn add_replay_part(
    alloc: Global,
    page: &mut Page,
    judged: Judged<'_>,
    query: Query<'_, '_, '_>,
) -> Result<(), OutOfMemory> {
    if let Some(tables) = judged.tables {
        page.open(Tag::Details, Class::Plain)?;
        page.element(
            Tag::Summary,
            Class::Plain,
            b"replay.sql, for PostgreSQL, with these rows in two orders",
        )?;
        add_replay(alloc, page, judged.schema, judged.plan, tables, query.text)?;
        page.close(Tag::Details)?;
    }
    Ok(())
}
