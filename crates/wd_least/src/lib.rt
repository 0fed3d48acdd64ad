//! The first list of sort keys with which nothing is open in a query, added at the places of the first call or limit that is open.
//!
//! `place` finds these places from the query's sites, `least` tries the lists one after the other.
#![tactic(auto)]

mod least;
mod place;

pub use least::{Mended, mended_first};
