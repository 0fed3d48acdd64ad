//! The facts that a plan and a schema give at each node: dependencies among columns, and the rows in which they hold.
//!
//! `node` lists the given facts of a plan's top node in the order in which certificates number them, from the facts that the node's
//! children keep (wd_step_facts has the facts and those of single steps). `tables` has the keys of a Scan, `columns` says which columns
//! are known not null, and `nullable` finds the keys with nullable columns, which become facts where all their columns are known not
//! null.
#![tactic(auto)]

mod columns;
pub mod laws;
mod node;
mod nullable;
mod tables;

pub use node::given;
pub use wd_step_facts::{Facts, Given, Member};
