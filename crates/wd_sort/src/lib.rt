//! The positions of rows, sorted by columns.
//!
//! `sort` is the way in. Few rows are sorted by comparing them (`rows`); of many, `coding` makes numbers that compare as the values of a
//! column do, of whole numbers by `whole` and of others by `numbering` with `known` and `ranks`, and `columns` sorts by as many columns
//! at once as fit one number (`codes`). `all` codes whole rows. `apart` has numbers that only tell equal values from different ones,
//! which need no order of texts. Hash maps are seeded by the data (`seeded`).
#![tactic(auto)]

mod all;
mod apart;
mod codes;
mod coding;
mod columns;
mod known;
mod numbering;
mod ranks;
mod rows;
mod seeded;
mod sort;
mod whole;

pub use all::{row_coding, sort_by_coding};
pub use apart::value_numbers;
pub use coding::{Coding, pair};
pub use rows::{compare_rows_at, compare_source_at};
pub use seeded::Seeded;
pub use sort::{is_sorted, sort_positions, sort_positions_in, sorted_positions};
pub use wd_columns::row_in;
