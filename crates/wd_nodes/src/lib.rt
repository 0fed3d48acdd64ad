//! What a node of a plan gives to the step above it, however its rows are kept, and the steps over that.
//!
//! `tables` are those that Scans read where they are, `moved_in` those that are moved into an evaluation, each for the one Scan that reads
//! it. `stored` has rows that are there, which a step reads where they are (`source`) and of which it keeps some by their positions
//! (`pick_rows`); `relation` has beside them pairs that are not made yet, and leaves out those that a condition above can't let through.
//! `sides` makes the rows of pairs, `marked` without columns that the step above does not read, `selection` finds outputs for which no value has to be made.
//! `step` has the steps, but for a Window and a Limit, which wd_eval does under its orderings. Rows are kept column by column wherever
//! they have one width.
#![tactic(auto)]

mod marked;
mod moved_in;
mod relation;
mod selection;
mod sides;
mod step;
mod stored;
mod tables;

pub use moved_in::{MovedIn, take_tables};
pub use relation::{Relation, into_outcome, store};
pub use step::{distinct, filter_input, group_input, join_inputs, map_input, scan_table};
pub use stored::{StoredRows, into_own_rows, pick_rows};
pub use tables::Tables;
