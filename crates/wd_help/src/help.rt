//! The help for a query.

ghost use Rattle.std.specs.Prelude.{◌≡◌, IfOk, IfSome};
ghost use Rattle.wd_keys.specs.Changes.{ArePut};
ghost use Rattle.wd_help.specs.Helps.{IsFirstHelp, IsHelp, help_of};

use crate::alike::all_alike;
use crate::search::{find_changes, most_lists};
use std::alloc::Global;
use wd_decide::{DecideError, Verdict, decide};
use wd_keys::{Change, apply_changes};
use wd_least::{Mended, mended_first};
use wd_sites::PlanSite;
use wd_value::OutOfMemory;

/// Changes with which a query has one answer.
#[derive(Drop)]
pub struct Help {
    /// The changes, each with its place in the query's text, in order.
    pub changes: Vec<Change>,
    /// The text with the changes put in.
    pub text: Vec<u8>,
}

/// Sort keys for the window calls and the limits of a query that are open, so that the verdict on the changed text is DETERMINISTIC.
/// The caller says where the query's window calls and limits are, and which lists of sort keys may be tried.
///
/// Only as many lists are tried as a query of this length allows. The first with which nothing is open is taken, put at the places of
/// the first call or limit that is open. If there is none, for each ORDER BY the first list is taken with which less is open. `None`
/// where no such lists are found, or where nothing is open or a text is refused.
pub fn help_for(
    alloc: Global,
    schema: &[u8],
    query: &[u8],
    sites: &[PlanSite],
    lists: &[String],
) -> Result<Option<Help>, OutOfMemory>
    ensures helps { IfOk result (λ found. IfSome found (IsHelp schema.now query.now)) }
    ensures first { IfOk result (IsFirstHelp schema.now query.now sites.now lists.now) }
{
    let most = most_lists(query.len()).min(lists.len());
    match mended_first(alloc, schema, query, sites, &lists[0..most])? {
        Some(mended) => Ok(Some(help_of(mended))),
        None => further_help(alloc, schema, query, sites, lists),
    }
}

/// A mended text as a help.
fn help_of(mended: Mended) -> Help
    ensures { result ≡ help_of mended }
{
    let Mended { changes, text } = mended;
    Help { changes, text }
}

/// A help with keys in several places.
fn further_help(
    alloc: Global,
    schema: &[u8],
    query: &[u8],
    sites: &[PlanSite],
    lists: &[String],
) -> Result<Option<Help>, OutOfMemory>
    ensures { IfOk result (λ found. IfSome found (IsHelp schema.now query.now)) }
{
    match find_changes(alloc, schema, query, sites, lists)? {
        Some(changes) => judge(alloc, schema, query, changes),
        None => Ok(None),
    }
}

/// Changes with which rows that tie are treated alike at each place that is open in a query, so that the verdict on the changed text is
/// DETERMINISTIC: RANK in place of ROW_NUMBER, and WITH TIES for a limit without an OFFSET. `None` where one of the places has no such
/// change, or where nothing is open or a text is refused.
pub fn alike_for(alloc: Global, schema: &[u8], query: &[u8]) -> Result<Option<Help>, OutOfMemory>
    ensures { IfOk result (λ found. IfSome found (IsHelp schema.now query.now)) }
{
    match all_alike(alloc, schema, query)? {
        Some(changes) => judge(alloc, schema, query, changes),
        None => Ok(None),
    }
}

/// The changes, if they help.
fn judge(
    alloc: Global,
    schema: &[u8],
    query: &[u8],
    changes: Vec<Change>,
) -> Result<Option<Help>, OutOfMemory>
    ensures { IfOk result (λ found. IfSome found (IsHelp schema.now query.now)) }
{
    match apply_changes(alloc, query, &changes)? {
        Some(text) => decide_changes(alloc, schema, query, changes, text),
        None => Ok(None),
    }
}

/// The changes, if the verdict on their text is DETERMINISTIC.
fn decide_changes(
    alloc: Global,
    schema: &[u8],
    query: &[u8],
    changes: Vec<Change>,
    text: Vec<u8>,
) -> Result<Option<Help>, OutOfMemory>
    requires { ArePut query.now changes.items text.items }
    ensures { IfOk result (λ found. IfSome found (IsHelp schema.now query.now)) }
{
    match decide(alloc, schema, &text) {
        Ok(Verdict::Deterministic(_certificate)) => Ok(Some(Help { changes, text })),
        Ok(_) => Ok(None),
        Err(DecideError::OutOfMemory) => Err(OutOfMemory),
        Err(_) => Ok(None),
    }
}
