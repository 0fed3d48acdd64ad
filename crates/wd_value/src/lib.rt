//! SQL values and rows, their order, and lists of rows with each row equally often.
//!
//! `value` has the values and types, `text` the texts, which copies share, `rows` the copies of rows, `order` the order under sort keys,
//! and `bag` the comparison of lists regardless of order. `laws` states that each sort key gives a total order.
#![tactic(auto)]

mod bag;
pub mod laws;
mod order;
mod rows;
mod text;
mod value;

pub use bag::same_bag;
pub use order::{SortColumn, SortKey, compare, compare_keys};
pub use rows::copy_row;
pub use text::Text;
pub use value::{ColumnType, Fault, Instance, OutOfMemory, Row, Value, same};
