//! Queries that are certified by a simpler plan (wd_simpler), where the rules leave the query's own plan open.
#![tactic(auto)]

mod certain;
pub mod laws;

pub use certain::{Certain, certify_simpler};
