//! Changes with which rows that tie are treated alike, for everything that is open in a query.

use crate::search::{Open, examine_text, open_in};
use std::alloc::Global;
use wd_analyse::Reason;
use wd_keys::{Change, treat_alike};
use wd_lex::{Token, lex};
use wd_sites::PlanSite;
use wd_value::OutOfMemory;

/// A change at each place that is open in a query. `None` where nothing is open, where one of the places has no such change, or where a
/// text is refused.
pub(crate) fn all_alike(
    alloc: Global,
    schema: &[u8],
    query: &[u8],
) -> Result<Option<Vec<Change>>, OutOfMemory> {
    let Some(examined) = examine_text(alloc, schema, query)? else {
        return Ok(None);
    };
    let open = open_in(alloc, examined, query)?;
    match lex(alloc, query) {
        Ok(tokens) => changes_for(alloc, &tokens, &open),
        Err(_) => Ok(None),
    }
}

/// A change at each site of what is open.
fn changes_for(
    alloc: Global,
    tokens: &[Token],
    open: &Open,
) -> Result<Option<Vec<Change>>, OutOfMemory> {
    let mut changes = Vec::new(alloc);
    for reason in &open.reasons {
        if !add_alike(alloc, tokens, &open.sites, *reason, &mut changes)? {
            return Ok(None);
        }
    }
    if changes.is_empty() {
        return Ok(None);
    }
    Ok(Some(changes))
}

/// Adds the changes at the sites of a reason. Returns whether there are sites and each has a change.
fn add_alike(
    alloc: Global,
    tokens: &[Token],
    sites: &[PlanSite],
    reason: Reason,
    changes: &mut Vec<Change>,
) -> Result<bool, OutOfMemory> {
    let mut some = false;
    for found in sites {
        if found.node == reason.node && found.call == reason.call {
            match treat_alike(alloc, tokens, *found)? {
                Some(change) => insert(changes, change)?,
                None => return Ok(false),
            }
            some = true;
        }
    }
    Ok(some)
}

/// Inserts a change at its place among those of a text.
fn insert(changes: &mut Vec<Change>, change: Change) -> Result<(), OutOfMemory> {
    let before = changes.iter().filter(|other| other.at < change.at).count();
    changes.insert(before.min(changes.len()), change)?;
    Ok(())
}
