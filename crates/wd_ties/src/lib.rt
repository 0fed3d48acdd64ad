//! The columns of tables on which rows tie in a witness.
//!
//! The two choices of a witness begin alike; the first ordering in which they differ is over the same rows under both, so the rows that
//! change places tie in it. `orderings` has the columns of each ordering of a plan, `origin` the column of a table that such a column
//! copies, and `ties` puts these together.
#![tactic(auto)]

mod orderings;
mod origin;
mod ties;

pub use ties::{is_among, tied_columns};
pub use wd_candidates::TableColumn;
