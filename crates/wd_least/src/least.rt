//! Lists of sort keys, tried one after the other.

ghost use Rattle.std.specs.Prelude.{◌≡◌, ℕ, true, List, IfOk, IfSome};
ghost use Rattle.wd_least.specs.First.{AnswersKeys, AreKeyChanges, IsFirst, IsFirstOpen, IsMended, IsMendedFirst, IsTried};
ghost use Rattle.wd_plan.specs.Fits.{fits};
ghost use Rattle.wd_plan.specs.Plans.{plan_of};
ghost use Rattle.wd_query.specs.Readings.{IsRead};
ghost use Rattle.wd_schema.specs.Schemas.{schema_of};

use crate::place::places_at;
use std::alloc::Global;
use wd_analyse::{Analysis, Reason, analyse};
use wd_keys::{Change, apply_changes};
use wd_query::{PlannedQuery, read_texts};
use wd_sites::{KeyPlace, PlanSite};
use wd_value::OutOfMemory;

/// Sort keys that are put into a query's text, so that nothing is open in it.
#[derive(Drop)]
pub struct Mended {
    pub changes: Vec<Change>,
    /// The text with the keys put in.
    pub text: Vec<u8>,
}

/// The first of the lists of sort keys with which nothing is open in a query, put at each place for keys of the first call or limit
/// that is open in it: these are among the sites of the query. `None` where each list leaves something open, or can't be put in, or
/// makes a text that is refused, and where nothing is open or a text is refused.
pub fn mended_first(
    alloc: Global,
    schema: &[u8],
    query: &[u8],
    sites: &[PlanSite],
    lists: &[String],
) -> Result<Option<Mended>, OutOfMemory>
    ensures first { IfOk result (IsMendedFirst schema.now query.now sites.now lists.now) }
    ensures mended { IfOk result (λ found. IfSome found (IsMended schema.now query.now)) }
{
    match first_open(alloc, schema, query)? {
        Some(reason) => {
            let places = places_at(alloc, sites, reason)?;
            first_mended(alloc, schema, query, &places, lists)
        }
        None => Ok(None),
    }
}

/// The first call or limit that is open in a query. `None` where nothing is open, or where a text is refused.
fn first_open(alloc: Global, schema: &[u8], query: &[u8]) -> Result<Option<Reason>, OutOfMemory>
    ensures { IfOk result (IsFirstOpen schema.now query.now) }
{
    match read_texts(alloc, schema, query) {
        Ok(planned) => first_reason(alloc, planned),
        Err(error) => match error.number() {
            Some(_) => Ok(None),
            None => Err(OutOfMemory),
        },
    }
}

/// The first call or limit that is open in a plan.
fn first_reason(alloc: Global, planned: PlannedQuery) -> Result<Option<Reason>, OutOfMemory>
    requires { fits (schema_of planned.schema) (plan_of planned.resolved.plan) ≡ true }
    ensures { (schema query : List ℕ) → IsRead schema query planned → IfOk result (IsFirstOpen schema query) }
{
    match analyse(alloc, &planned.resolved.plan, &planned.schema)? {
        Analysis::Certified(_) => Ok(None),
        Analysis::Open(reasons, _) => Ok(reasons.first().copied()),
    }
}

/// The first of the lists of sort keys with which, put at each of these places, nothing is open.
fn first_mended(
    alloc: Global,
    schema: &[u8],
    query: &[u8],
    places: &[KeyPlace],
    lists: &[String],
) -> Result<Option<Mended>, OutOfMemory>
    ensures first { IfOk result (IsFirst schema.now query.now places.now lists.now) }
    ensures mended { IfOk result (λ found. IfSome found (IsMended schema.now query.now)) }
{
    for keys in lists {
        if let Some(mended) = try_keys(alloc, schema, query, places, keys.as_str())? {
            return Ok(Some(mended));
        }
    }
    Ok(None)
}

/// The query with these keys put in, if nothing is open in it then.
fn try_keys(
    alloc: Global,
    schema: &[u8],
    query: &[u8],
    places: &[KeyPlace],
    keys: &str,
) -> Result<Option<Mended>, OutOfMemory>
    ensures { IfOk result (IsTried schema.now query.now places.now keys.now) }
{
    let changes = key_changes(alloc, query, places, keys)?;
    match apply_changes(alloc, query, &changes)? {
        Some(text) => judge(alloc, schema, Mended { changes, text }),
        None => Ok(None),
    }
}

/// The changes that put these keys at each of the places.
fn key_changes(
    alloc: Global,
    query: &[u8],
    places: &[KeyPlace],
    keys: &str,
) -> Result<Vec<Change>, OutOfMemory>
    ensures { IfOk result (λ changes. AreKeyChanges keys.now places.now changes.items) }
{
    let mut changes = Vec::with_capacity(alloc, places.len())?;
    for place in places {
        changes.push(Change::first(alloc, query, *place, keys)?)?;
    }
    Ok(changes)
}

/// A changed text, if nothing is open in it.
fn judge(alloc: Global, schema: &[u8], mended: Mended) -> Result<Option<Mended>, OutOfMemory>
    ensures { IfOk result (AnswersKeys schema.now mended) }
{
    match read_texts(alloc, schema, &mended.text) {
        Ok(planned) => analyse_changed(alloc, planned, mended),
        Err(error) => match error.number() {
            Some(_) => Ok(None),
            None => Err(OutOfMemory),
        },
    }
}

/// A changed text that has a plan, if nothing is open in it.
fn analyse_changed(
    alloc: Global,
    planned: PlannedQuery,
    mended: Mended,
) -> Result<Option<Mended>, OutOfMemory>
    requires { fits (schema_of planned.schema) (plan_of planned.resolved.plan) ≡ true }
    ensures { (schema : List ℕ) → IsRead schema mended.text.items planned → IfOk result (AnswersKeys schema mended) }
{
    match analyse(alloc, &planned.resolved.plan, &planned.schema)? {
        Analysis::Certified(_) => Ok(Some(mended)),
        Analysis::Open(_, _) => Ok(None),
    }
}
