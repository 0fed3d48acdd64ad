//! The columns that the rows of a class are sorted by.

ghost use Rattle.std.specs.Prelude.{◌≡◌, IfOk};
ghost use Rattle.wd_partition.specs.Columns as spec;
ghost use Rattle.wd_partition.specs.Columns.{class_by};
ghost use Rattle.wd_value.specs.Keys as sort_keys;

use std::alloc::Global;
use wd_value::{OutOfMemory, SortColumn, SortKey};

/// The partition's columns, ascending with NULL last. The SQL standard leaves the order of the partitions open, so any order is correct.
pub fn partition_columns(alloc: Global, partition: &[u16]) -> Result<Vec<SortColumn>, OutOfMemory>
    ensures { IfOk result (λ v. v.items ≡ spec.partition_columns partition.now) }
{
    let mut columns = Vec::with_capacity(alloc, partition.len())?;
    for column in partition {
        columns.push(ascending(*column))?;
    }
    Ok(columns)
}

fn ascending(column: u16) -> SortColumn
    ensures { result ≡ sort_keys.ascending column }
{
    let key = SortKey {
        desc: false,
        nulls_first: false,
    };
    SortColumn { column, key }
}

/// The partition's columns, followed by the sort keys.
pub fn sort_columns(
    alloc: Global,
    partition: &[u16],
    keys: &[SortColumn],
) -> Result<Vec<SortColumn>, OutOfMemory>
    ensures { IfOk result (λ v. v.items ≡ spec.sort_columns (class_by partition.now keys.now)) }
{
    let mut columns = partition_columns(alloc, partition)?;
    for key in keys {
        columns.push(*key)?;
    }
    Ok(columns)
}
