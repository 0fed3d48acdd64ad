//! Whole queries over the schema's tables.
use crate::given::Given;
use crate::tree::debug_text;
use std::alloc::{AllocError, Global};
use wd_cases::Failure;
use wd_plan::Plan;
use wd_resolve::{Resolved, resolve};
use wd_syntax::Query;
use wd_value::Text;

/// What is written short in plans.
const SHORT: &[(&str, &str)] = &[
    ("Scan { table: 0, columns: 4 }", "t"),
    ("Scan { table: 1, columns: 2 }", "s"),
    (
        "frame: Frame { mode: Range, start: UnboundedPreceding, end: CurrentRow, exclusion: NoOthers }",
        "default frame",
    ),
    (
        "key: SortKey { desc: false, nulls_first: false }",
        "ascending",
    ),
];

fn resolve_query(alloc: Global, given: &Given, query: &Query) -> Result<Resolved, Failure> {
    let schema = given.schema.tables(alloc)?;
    Ok(resolve(alloc, &schema, query)?)
}

/// The text with `by` in place of each `part`.
fn replace_all(alloc: Global, text: &str, part: &str, by: &str) -> Result<String, AllocError> {
    let mut out = String::new(alloc);
    for (place, piece) in text.split(part).enumerate() {
        out.push_str(if place > 0 { by } else { "" })?;
        out.push_str(piece)?;
    }
    Ok(out)
}

fn shorten(alloc: Global, plan: &Plan) -> Result<String, AllocError> {
    let mut text = format!(in alloc; "{plan:?}")?;
    for &(long, short) in SHORT {
        text = replace_all(alloc, text.as_str(), long, short)?;
    }
    Ok(text)
}

fn push_names(out: &mut String, names: &[Text]) -> Result<(), AllocError> {
    for name in names {
        out.push(' ')?;
        out.push_str(name.as_str())?;
    }
    Ok(())
}

fn with_names(alloc: Global, resolved: &Resolved) -> Result<String, Failure> {
    let mut out = shorten(alloc, &resolved.plan)?;
    push_names(&mut out, &resolved.names)?;
    Ok(out)
}

/// `plan QUERY`: its plan, written short, and the names of its outputs.
pub fn plan(alloc: Global, given: &Given, query: &Query) -> Result<String, Failure> {
    let resolved = resolve_query(alloc, given, query)?;
    with_names(alloc, &resolved)
}

/// `refusal QUERY`: why it has no plan, or that it has one.
pub fn refusal(alloc: Global, given: &Given, query: &Query) -> Result<String, Failure> {
    resolve_query(alloc, given, query)?;
    Ok(String::from_str(alloc, "a plan")?)
}

/// `orderings QUERY`: how many orderings a choice for its plan has.
pub fn orderings(alloc: Global, given: &Given, query: &Query) -> Result<String, Failure> {
    let resolved = resolve_query(alloc, given, query)?;
    debug_text(alloc, &resolved.plan.orderings())
}
