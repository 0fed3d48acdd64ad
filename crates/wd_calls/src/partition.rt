//! The rows of a partition, by their places.

ghost use Rattle.std.specs.Prelude.{◌≡◌, IfOk};
ghost use Rattle.wd_calls.specs.Parts.{partition_of};
ghost use Rattle.wd_calls.specs.Values.{value_in};
ghost use Rattle.wd_calls.specs.Values as values;
ghost use Rattle.wd_frame.specs.Slides.{seen};

use std::alloc::Global;
use wd_columns::RowSource;
use wd_value::{OutOfMemory, Value};

/// The members of a partition in their ordering: rows, and the positions among them that belong to
/// the partition.
#[derive(Clone, Copy)]
pub struct Partition<'a, 'r> {
    pub rows: &'a RowSource<'r>,
    pub positions: &'a [u64],
}

/// The value in a column of the row at a place, and NULL past the last place or column.
pub(crate) fn value_at<'a>(partition: &'a Partition, place: usize, column: u16) -> &'a Value
    ensures { result.now ≡ value_in (partition_of partition.now) column place }
{
    match partition.positions.get(place) {
        Some(position) => partition.rows.value(*position, column as usize),
        None => partition.rows.null(),
    }
}

/// A copy of the value in a column of the row at a place, and NULL past the last place or column.
pub(crate) fn copy_at(
    alloc: Global,
    partition: &Partition,
    place: usize,
    column: u16,
) -> Result<Value, OutOfMemory>
    ensures { IfOk result (λ v. v ≡ value_in (partition_of partition.now) column place) }
{
    value_at(partition, place, column).copy(alloc)
}

/// The values in a column of the rows at the first `count` places.
pub(crate) fn column_values<'a>(
    alloc: Global,
    partition: &'a Partition,
    column: u16,
    count: usize,
) -> Result<Vec<&'a Value>, OutOfMemory>
    ensures { IfOk result (λ v. seen v.items ≡ values.first_values (partition_of partition.now) column count) }
{
    let mut values = Vec::with_capacity(alloc, count)?;
    for place in 0..count {
        values.push(value_at(partition, place, column))?;
    }
    Ok(values)
}
