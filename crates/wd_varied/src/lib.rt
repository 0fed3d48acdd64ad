//! The candidates of a further search for a witness: tables of two rows and more, whose columns hold the same value in all rows, differ
//! from row to row or tie in part, with values that the query's own literals suggest.
//!
//! `suggested` collects the values from the `literals` and the `conditions` of a plan, with values `near` them, into `pools`; `patterns`
//! says how a column varies, `place` which columns vary together, `size` how many rows there are, and `tables` makes the rows. Half of
//! the candidates are made to meet the query's conditions: columns that it equates hold the same values, and a column that it compares
//! with literals holds these. `work` bounds what an evaluation costs.
#![tactic(auto)]

mod conditions;
mod literals;
mod near;
mod patterns;
mod place;
mod pools;
mod size;
mod suggested;
mod tables;
mod work;

pub use conditions::{Compared, Equated};
pub use pools::Suggested;
pub use size::{pair_count, sizes};
pub use suggested::collect_suggested;
pub use tables::vary;
pub use work::row_work;
