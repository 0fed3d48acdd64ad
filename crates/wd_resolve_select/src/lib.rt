//! What a select sorts by and its limits, and the steps of a plan that it makes of these and of its list.
//!
//! `sorting` reads ORDER BY into the sort keys of `shown`, and `limits` reads OFFSET, LIMIT and FETCH. `steps` then makes the nodes above
//! FROM, from WHERE to the Map that drops hidden sort keys; `rebased` replaces the references of expressions by columns. A key that is no
//! output becomes a hidden column, so that a plan sorts by columns alone.
#![tactic(auto)]

mod limits;
mod rebased;
mod shown;
mod sorting;
mod steps;

pub use limits::{RowLimit, resolve_limits};
pub use shown::{Shown, Sorted};
pub use sorting::resolve_sort_keys;
pub use steps::{add_distinct, add_filter, add_limit, add_map, drop_hidden};
pub use wd_resolve_list::{
    Below, GroupedBy, Output, OutputColumn, ProjectedInputs, resolve_below, resolve_group_by,
    resolve_item,
};
