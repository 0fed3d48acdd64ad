//! The rows of a Group: for each of its grouping sets those of the set's groups.
//!
//! `step` goes over the sets. `numbered` gives the rows numbers by the values of each column once for all sets, and `pairs` combines
//! the numbers of a set's columns, so that no two texts are compared again for each set; rows with one number are a group (`groups`).
//! `row` makes the row of a group, with its calls over the group as a partition (wd_calls) and GROUPING's `mask`, and `gathered`
//! puts the rows into columns and collects the least fault.
#![tactic(auto)]

mod gathered;
mod groups;
mod mask;
mod numbered;
mod pairs;
mod row;
mod step;

pub use step::group_rows;
