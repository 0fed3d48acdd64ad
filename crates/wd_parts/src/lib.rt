//! The parts of a query's or a schema's text that may be the cause of a refusal, and the text with some of them replaced.
//!
//! `query`, `expression` and `schema` walk along the tree of a text and count its tokens; they list the parts that may be the cause of a
//! refusal of a given number, in the order in which the text is checked (`part`). `neutral` replaces parts by something that is allowed
//! there and causes no such refusal.
#![tactic(auto)]

mod expression;
mod neutral;
mod part;
mod query;
mod schema;

pub use neutral::{bytes_of, changes};
pub use part::{Neutral, Part};
pub use query::query_parts;
pub use schema::schema_parts;
