//! Trees of queries, and how values are shown.
use std::alloc::Global;
use std::fmt::Debug;
use wd_cases::{Failure, tokens_of};
use wd_parse::parse;
use wd_syntax::Query;

/// The tree of a query.
pub fn query_of(alloc: Global, text: &str) -> Result<Query, Failure> {
    let tokens = tokens_of(alloc, text)?;
    Ok(parse(alloc, &tokens)?)
}

/// A value, as its `Debug` writes it.
pub fn debug_text<T: Debug>(alloc: Global, value: &T) -> Result<String, Failure> {
    Ok(format!(in alloc; "{value:?}")?)
}
