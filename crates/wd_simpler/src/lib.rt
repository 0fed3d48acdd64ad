//! Plans without what nothing reads.
//!
//! A column that no step reads can keep a plan from a certificate: the rule `exchange` needs a class that determines all columns of the
//! rows, and such a column is one of them. `plan` takes these columns out, and calls that nothing reads; `unmet` finds conditions that no
//! row meets, by the `numbers` that columns can have, and `complete_keys` adds the columns that sort keys determine. `laws` states that nothing
//! else changes: for the simpler plan the same choices are valid, and it has the same outcome under each of them. So what is certified of
//! the simpler plan holds of the plan.
#![tactic(auto)]

mod columns;
mod keyed;
pub mod laws;
mod numbers;
mod plan;
mod unmet;

pub use plan::simpler;
