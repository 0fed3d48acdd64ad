//! The place of the row at each position among the positions sorted by partition.

/// The range of a row's partition among the positions sorted by partition, from `start` up to `end`, and the place of the row itself.
#[derive(Clone, Copy, PartialEq, Eq)]
pub struct Place {
    pub start: u32,
    pub end: u32,
    pub index: u32,
}
