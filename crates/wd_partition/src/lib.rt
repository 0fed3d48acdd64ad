//! Orderings of rows under a class, and the partitions of a class.
//!
//! `ordering` sorts rows, or checks a given ordering by sorting it once more by partition alone, and `steps` compares neighbours along
//! the sorted positions. From these `runs` finds where partitions begin and end, `groups` the peer groups and `placing` each row's place;
//! `members` keeps the result, and `listing` is the way in. wd_sort sorts; many rows are sorted and compared by numbers in their place,
//! if they have such numbers.
#![tactic(auto)]

mod columns;
mod groups;
mod indexed;
mod listing;
mod member;
mod members;
mod once;
mod ordering;
mod places;
mod placing;
mod runs;
mod steps;
mod turn;

pub use listing::{SortedPartitions, partitions, sorted_partitions};
pub use member::Member;
pub use members::Partitions;
pub use ordering::{is_ordering, sorted_ordering};
pub use turn::Turn;
