//! The plan of a schema's text and a query's text, with which every answer about a query begins.
//!
//! `read` splits the query's text into tokens (wd_lex), reads them as a tree (wd_parse) and resolves the tree over the schema (wd_schema,
//! wd_resolve); `error` has the refusals of all these. `laws` states that two texts have at most one plan.
#![tactic(auto)]

mod error;
pub mod laws;
mod read;

pub use error::{QueryError, TextError};
pub use read::{PlannedQuery, read_query, read_texts};
