//! Sets of members: columns, the sides of a Join, the row.
#![tactic(auto)]

mod set;

pub use set::{Set, place};
