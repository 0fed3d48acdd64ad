//! Queries to plans: names, types, windows, derived tables and joins.
//!
//! `query` is the way in. `select` makes the plan of a select, and `tables` that of its FROM, which calls `select` for derived tables;
//! `part` and `listed` are what they pass along. What expressions mean is in wd_resolve_scope, the list in wd_resolve_list, and the steps
//! above FROM in wd_resolve_select. `laws` states that each plan fits the schema. Refusals are reported in the order of the definition:
//! the first cause decides.
#![tactic(auto)]

pub mod laws;
mod listed;
mod part;
mod query;
mod select;
mod tables;

pub use query::{Resolved, resolve};
pub use wd_resolve_operand::{Cause, ResolveError};
pub use wd_resolve_select::OutputColumn;
