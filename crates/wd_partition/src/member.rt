//! What an evaluator reads for the row at a position.

use wd_value::Value;

/// The partition of a row, in the order of its ordering.
#[derive(Clone, Copy)]
pub struct Member<'a> {
    /// The positions of the partition's rows, in the ordering's order.
    pub positions: &'a [u64],
    /// The peer group number of each of these rows, from 0.
    pub groups: &'a [u32],
    /// The value of the only sort key in each of these rows, if requested: whole numbers, and NULL in place of everything else. Otherwise
    /// empty.
    pub numbers: &'a [Value],
    /// The place of the row itself among these, from 0.
    pub place: usize,
}
