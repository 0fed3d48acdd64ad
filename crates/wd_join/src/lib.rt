//! Joins of two lists of rows.
//!
//! Pairs are kept as positions, which copies no values; a step that needs them as rows makes these column by column (`paired`). `join`
//! finds the pairs for which a condition is true. Where the condition has equalities of a left and a right column that every such pair
//! meets (`matching`), or consists of nothing else (`exact`), `walk` finds the pairs that agree on these columns by a walk over both sides
//! in sorted order; otherwise all pairs are tested. `narrow` leaves out pairs that a condition further up cannot be true for.
#![tactic(auto)]

mod error;
mod exact;
mod join;
mod matching;
mod narrow;
mod paired;
mod walk;

pub use error::StepError;
pub use join::{filter_pairs, join_pairs};
pub use narrow::narrow_pairs;
pub use paired::{all_pairs, paired_columns, paired_rows};
