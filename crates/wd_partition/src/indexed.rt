//! The positions sorted by partition, with the step to each.

use crate::steps::Step;
use wd_columns::RowSource;
use wd_value::SortColumn;

/// The positions of an ordering, one partition after another, and how each row relates to the one before it.
#[derive(Clone, Copy)]
pub struct IndexedRows<'a, 'r> {
    pub rows: &'a RowSource<'r>,
    pub partition: &'a [u16],
    pub keys: &'a [SortColumn],
    pub positions: &'a [u64],
    pub steps: &'a [Step],
}
