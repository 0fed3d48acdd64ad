//! Cases of the readers of texts: tokens, phrases, trees of queries, schemas, rows of tables.
#![tactic(auto)]

mod case;
mod phrase;
mod refusal;
mod rows;
mod schema;
mod statement;
mod token;
mod tree;

pub use case::ReadingCases;
