//! The closure of columns under facts: what the columns determine.
//!
//! `prepared` makes a node's facts ready once, for many closures: `watchers` lists for each member the facts that wait for it,
//! `counters` has how many members each fact still waits for, and `reached` is the queue of members. So each fact is looked at only
//! when a member of its left side is reached, and a closure takes linear time; going over all facts until nothing changes would take
//! quadratic time. `closing` has the public calls for a single closure, `laws` the worked examples.
#![tactic(auto)]

mod closing;
mod counters;
pub mod laws;
mod prepared;
mod reached;
mod watchers;

pub use closing::{Derived, closure, closure_counted, closure_derived};
pub use prepared::Prepared;
