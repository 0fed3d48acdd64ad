//! The facts that a node keeps by its traces, and the facts that are given at the node above.
#![tactic(auto)]

mod facts;

pub use facts::{Keeps, KeptFact, NodeFacts, Side, are_columns, columns_of, facts_at};
