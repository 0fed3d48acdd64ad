//! Queries of PostgreSQL's usual SQL, respelled in the profile's by the standard's own equations.
//!
//! `query` applies the equations to the tokens of a query, and `layout` writes the result as a text, each token as near as possible to
//! its place. `counts` says whether a query's numbers count units, so that it has to be respelled even where the profile reads it.
#![tactic(auto)]

mod counts;
mod layout;
mod query;

pub use counts::counts_units;
pub use query::{Respelled, respell};
