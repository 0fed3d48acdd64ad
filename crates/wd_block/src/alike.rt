//! The help by which rows that tie are treated alike.

use crate::block::Statement;
use std::alloc::Global;
use wd_finding::OpenPlace;
use wd_help::Help;
use wd_keys::Change;
use wd_lex::Span;
use wd_lines::add_joined;
use wd_value::OutOfMemory;

/// Adds the help for a place: the call with RANK, or the limit WITH TIES, as it would be written.
pub(crate) fn add_alike(
    alloc: Global,
    out: &mut String,
    statement: Statement<'_>,
    place: OpenPlace,
    alike: &Help,
) -> Result<(), OutOfMemory> {
    let Some(site) = place.site else {
        return Ok(());
    };
    for change in &alike.changes {
        if site.span.start <= change.at && change.end <= site.span.end {
            out.push_str(if place.reason.call.is_some() {
                "      help: or RANK: "
            } else {
                "      help: or WITH TIES: "
            })?;
            add_joined(out, &with_change(alloc, statement, site.span, change)?)?;
            out.push_str(if alike.changes.len() == 1 {
                "      (then DETERMINISTIC)\n"
            } else {
                "      (with the others of its kind DETERMINISTIC)\n"
            })?;
        }
    }
    Ok(())
}

/// A part of a statement, with a change put in.
fn with_change(
    alloc: Global,
    statement: Statement<'_>,
    span: Span,
    change: &Change,
) -> Result<Vec<u8>, OutOfMemory> {
    let mut text = Vec::new(alloc);
    text.extend_from_slice(bytes_at(statement, span.start, change.at))?;
    text.extend_from_slice(change.text.as_bytes())?;
    text.extend_from_slice(bytes_at(statement, change.end, span.end))?;
    Ok(text)
}

/// The bytes of a statement from one place up to another.
fn bytes_at<'a>(statement: Statement<'a>, start: u64, end: u64) -> &'a [u8] {
    let end = (statement.start.saturating_add(end) as usize).min(statement.text.len());
    let start = (statement.start.saturating_add(start) as usize).min(end);
    &statement.text[start..end]
}
