//! Blocks of what is open in a query.

ghost use Rattle.std.specs.Prelude.{◌≡◌, ◌<◌, ◌≤◌, ◌+◌, ◌-◌, ◌^◌, ◌++◌, ℕ, List, length, min, slice_get, take, string_bytes, IfOk, IfSome, OnErr, OnOk};
ghost use Rattle.wd_block.specs.Heads.{BeginsBlock, HasSite, IsHead};
ghost use Rattle.wd_block.specs.Kinds as kinds;

use crate::alike::add_alike;
use crate::words::{kind_of, lack_words, place_words};
use std::alloc::Global;
use std::fmt::Write;
use wd_finding::{Finding, OpenPlace};
use wd_help::Help;
use wd_lex::Span;
use wd_lines::{
    Kind, add_answers, add_excerpt, add_joined, add_place, add_plain, add_remark_line, add_tables,
};
use wd_sites::{KeyPlace, Site};
use wd_source::{Position, position_at};
use wd_value::OutOfMemory;

/// A statement of a file: the file's path and text, and where in it the statement is.
#[derive(Clone, Copy)]
pub struct Statement<'a> {
    pub path: &'a str,
    pub text: &'a [u8],
    pub start: u64,
    pub end: u64,
}

/// Adds the block for the place with a number that is open in a statement; the block of the first place has the rows of the witness and
/// both answers. `help` has the sort keys that mend the statement, `alike` RANK or WITH TIES. Where there is no such place, nothing is
/// added, and where memory runs out, the text stays as it was.
pub fn add_open(
    alloc: Global,
    out: &mut String,
    statement: Statement<'_>,
    finding: &Finding,
    number: usize,
    help: Option<&Help>,
    alike: Option<&Help>,
) -> Result<(), OutOfMemory>
    ensures appended { OnOk result (take (length (string_bytes out.old)) (string_bytes out.new) ≡ string_bytes out.old) }
    ensures none { length finding.now.places.items ≤ number → string_bytes out.new ≡ string_bytes out.old }

    // It begins with the place, and with what the verdict on the query says of it.
    ensures head { OnOk result (IfSome (slice_get finding.now.places.items number) (λ place. (block : List ℕ) × BeginsBlock statement.entry.path.now statement.entry.text.now statement.entry.start (kinds.kind_of finding.now.verdict finding.now.certain finding.now.further) place block × (string_bytes out.new ≡ string_bytes out.old ++ block))) }
    ensures kept { OnErr result (string_bytes out.new ≡ string_bytes out.old) }
{
    if number < finding.places.len() {
        let block = open_block(alloc, statement, finding, number, help, alike)?;
        Ok(out.push_str(block.as_str())?)
    } else {
        Ok(())
    }
}

/// The block for a place that is open.
fn open_block(
    alloc: Global,
    statement: Statement<'_>,
    finding: &Finding,
    number: usize,
    help: Option<&Help>,
    alike: Option<&Help>,
) -> Result<String, OutOfMemory>
    requires { number < length finding.now.places.items }
    ensures { IfOk result (λ block. IfSome (slice_get finding.now.places.items number) (λ place. BeginsBlock statement.entry.path.now statement.entry.text.now statement.entry.start (kinds.kind_of finding.now.verdict finding.now.certain finding.now.further) place (string_bytes block))) }
{
    let place = finding.places[number];
    let mut block = head_line(alloc, statement, kind_of(finding), place)?;
    let details = details(alloc, statement, finding, number, help, alike)?;
    block.push_str(details.as_str())?;
    Ok(block)
}

/// The line that says where a place is, and what is open there in a query of this kind.
fn head_line(
    alloc: Global,
    statement: Statement<'_>,
    kind: Kind,
    place: OpenPlace,
) -> Result<String, OutOfMemory>
    ensures { IfOk result (λ line. IsHead statement.entry.path.now statement.entry.text.now statement.entry.start kind place (string_bytes line)) }
{
    let mut line = site_words(alloc, statement, place.site)?;
    line.push_str(place_words(kind, place.reason))?;
    line.push('\n')?;
    Ok(line)
}

/// Where a place is: the path, the line and the column.
fn site_words(
    alloc: Global,
    statement: Statement<'_>,
    site: Option<Site>,
) -> Result<String, OutOfMemory>
    ensures { IfOk result (λ words. HasSite statement.entry.path.now statement.entry.text.now statement.entry.start site (string_bytes words)) }
{
    let mut words = String::new(alloc);
    match site {
        Some(site) => {
            let span = shift_span(site.span, statement.start);
            add_place(&mut words, statement.path, statement.text, span)?;
        }
        None => {
            add_plain(&mut words, statement.path)?;
            words.push_str(": ")?;
        }
    }
    Ok(words)
}

/// What comes below the first line of a block: the line of the query, what is lacking, the rows of the witness and the helps.
fn details(
    alloc: Global,
    statement: Statement<'_>,
    finding: &Finding,
    number: usize,
    help: Option<&Help>,
    alike: Option<&Help>,
) -> Result<String, OutOfMemory>
    requires { number < length finding.now.places.items }
{
    let place = finding.places[number];
    let mut lines = String::new(alloc);
    if let Some(site) = place.site {
        let span = shift_span(site.span, statement.start);
        add_excerpt(&mut lines, statement.text, span)?;
    }
    if let Kind::MayTie = kind_of(finding) {
        add_remark_line(&mut lines, lack_words(place.reason.lack))?;
    }
    if number == 0 {
        add_evidence(alloc, &mut lines, finding)?;
    }
    if let Some(help) = help {
        add_help(&mut lines, statement, place, help)?;
        if number == 0 {
            add_other_helps(&mut lines, statement, &finding.places, help)?;
        }
    }
    if let Some(alike) = alike {
        add_alike(alloc, &mut lines, statement, place, alike)?;
    }
    lines.push('\n')?;
    Ok(lines)
}

/// Bytes of a statement as bytes of its file.
fn shift_span(span: Span, start: u64) -> Span
    ensures { result.start ≡ min (span.start + start) (2 ^ 64 - 1) }
{
    Span {
        start: span.start.saturating_add(start),
        end: span.end.saturating_add(start),
    }
}

/// Adds the rows of the witness, and the rows in which its two answers differ.
fn add_evidence(alloc: Global, out: &mut String, finding: &Finding) -> Result<(), OutOfMemory> {
    if finding.further.is_some() {
        add_remark_line(
            out,
            "found by a further search: of the query wdcheck says UNKNOWN",
        )?;
    }
    if let Some(witness) = finding.witness() {
        let schema = &finding.planned.schema;
        add_tables(out, schema, &witness.tables, &finding.ties)?;
    }
    if let Some(answers) = &finding.answers {
        let names = &finding.planned.resolved.names;
        add_answers(alloc, out, names, &answers.first, &answers.second)?;
    }
    Ok(())
}

/// Adds the help for a place: its ORDER BY with the keys, and which other changes the query needs to have one answer.
fn add_help(
    out: &mut String,
    statement: Statement<'_>,
    place: OpenPlace,
    help: &Help,
) -> Result<(), OutOfMemory> {
    let key = match place.site {
        Some(Site { key: Some(key), .. }) => key,
        _ => return Ok(()),
    };
    for change in &help.changes {
        if change.at == key.at {
            add_order(out, statement, key)?;
            add_plain(out, change.keys.as_str())?;
            out.push_str(if help.changes.len() == 1 {
                "      (then DETERMINISTIC)\n"
            } else {
                "      (with the other helps DETERMINISTIC)\n"
            })?;
        }
    }
    Ok(())
}

/// Adds the helps for places that are not open in the query as it is, but would be with the other helps alone.
fn add_other_helps(
    out: &mut String,
    statement: Statement<'_>,
    places: &[OpenPlace],
    help: &Help,
) -> Result<(), OutOfMemory> {
    for change in &help.changes {
        if !places.iter().any(|place| is_at(*place, change.at)) {
            let at = (statement.start.saturating_add(change.at) as usize).min(statement.text.len());
            let Position { line, column } = position_at(statement.text, at);
            write!(out, "      help: also at {line}:{column}: ")?;
            add_plain(out, change.text.as_str().trim_start())?;
            out.push_str("      (with the other helps DETERMINISTIC)\n")?;
        }
    }
    Ok(())
}

/// Whether the keys for an open place are put there.
fn is_at(place: OpenPlace, at: u64) -> bool {
    match place.site {
        Some(Site { key: Some(key), .. }) => key.at == at,
        _ => false,
    }
}

/// Adds the ORDER BY of a place up to where the keys are put.
fn add_order(out: &mut String, statement: Statement<'_>, key: KeyPlace) -> Result<(), OutOfMemory> {
    out.push_str("      help: ")?;
    match key.order {
        Some(order) => {
            let first = (statement.start.saturating_add(order) as usize).min(statement.text.len());
            let last = (statement.start.saturating_add(key.at) as usize).min(statement.text.len());
            if first <= last {
                add_joined(out, &statement.text[first..last])?;
            }
            Ok(out.push_str(", ")?)
        }
        None => Ok(out.push_str("ORDER BY ")?),
    }
}
