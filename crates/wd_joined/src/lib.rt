//! Rows joined of rows of several tables, which stay as they are: of each joined row only its position in each table is kept.
//!
//! `JoinedRows` are the rows; `origin` says where each of their columns stands, `shared` what several of them share, `lists` goes over the
//! tables and their positions, `needed` leaves out tables in which no column stands, and `pairs` names the pairs of rows that are joined.
#![tactic(auto)]

mod joined;
mod lists;
mod needed;
mod origin;
mod pairs;
mod shared;

pub use joined::JoinedRows;
pub use origin::StoredColumn;
pub use pairs::{Pair, are_of};
pub use shared::SharedColumn;
