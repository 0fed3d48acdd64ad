//! Comparisons and operators between operands that count something: what the sides of a comparison count, and which operators have no
//! equation in whole numbers, as a product of two decimals.
//!
//! `comparison` reads a comparison at the start of tokens, with what its sides count by wd_amounts. `unlike` finds the first operator of a
//! query that has no equation, among its comparisons too, and `word` puts a word in its place at which the profile refuses the query.
#![tactic(auto)]

mod comparison;
mod unlike;
mod word;

pub use comparison::{Comparison, begins_side, comparison_at};
pub use unlike::{Clash, Unlike, first_unlike};
pub use word::copy_with_word;
