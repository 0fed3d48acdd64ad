//! COUNT( DISTINCT c ) by grouping twice: `SELECT k, COUNT( DISTINCT c ) FROM t GROUP BY k` is `SELECT k, COUNT( c ) FROM ( SELECT k, c
//! FROM t GROUP BY k, c ) AS t GROUP BY k`. `select` finds the pieces of such a select, `count` the column that it counts, `write`
//! writes the select that replaces it, and `respell` goes through a query from its end; `laws` has worked queries.
#![tactic(auto)]

mod count;
pub mod laws;
mod respell;
mod select;
mod write;

pub use respell::without_distinct_counts;
