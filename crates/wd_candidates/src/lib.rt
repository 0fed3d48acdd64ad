//! The candidate instances for a call or a limit of a plan: small tables in which rows tie, so that the query may have two answers.
//!
//! `shape` lists the shapes in their order, `rows` fills an instance of one shape. What all candidates share is found once: `outline`
//! has the scanned tables and, from `fixed`, the values that the plan's conditions fix columns to, through the origins of columns
//! (`origins`); `tied` has the table columns from which the columns of a class or the keys of a limit are computed, as `marks` by
//! number. A candidate need not meet the schema: that is checked where it is tried.
#![tactic(auto)]

mod fixed;
mod marks;
mod origins;
mod outline;
mod rows;
mod shape;
mod tied;

pub use marks::is_marked;
pub use origins::{
    TableColumn, group_origins, origin_in, output_origins, table_origins, window_origins,
};
pub use outline::{Outline, outline_of};
pub use rows::{candidate, fixed_columns, keyed_columns, value_if_fixed};
pub use shape::{Shape, Style, shapes};
pub use tied::{TiedColumns, tied_columns};
