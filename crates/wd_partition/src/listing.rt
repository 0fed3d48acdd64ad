//! The partitions of a given ordering, and of the sorted one.

ghost use Rattle.std.specs.Prelude.{◌^◌, ◌<◌, IfOk, MatchOption, length};
ghost use Rattle.wd_partition.specs.Columns as columns;
ghost use Rattle.wd_partition.specs.Columns.{class_by};
ghost use Rattle.wd_partition.specs.Members.{ArePartitions};
ghost use Rattle.wd_plan.specs.Sorting.{IsOrdering};
ghost use Rattle.wd_sort.specs.Sorting.{IsStableSortOf};

use crate::members::{Partitions, partitions_of};
use crate::ordering::{index_of_ordering, sorted_index};
use crate::turn::Turn;
use std::alloc::Global;
use wd_columns::RowSource;
use wd_value::{OutOfMemory, SortColumn};

/// The partitions of an ordering of the rows under a class, with the numbers of its sort key if they are requested and it has exactly
/// one; `None` where the list is no ordering of the class (SQL, window clause). Takes fewer than 2^32 rows, since peer group numbers have
/// 32 bits, and n log n comparisons.
pub fn partitions(
    alloc: Global,
    rows: &RowSource,
    partition: &[u16],
    keys: &[SortColumn],
    ordering: &[u64],
    numbers: bool,
) -> Result<Option<Partitions>, OutOfMemory>
    requires { length rows.now < 2 ^ 32 }
    ensures { IfOk result (λ o. MatchOption o (IsOrdering (class_by partition.now keys.now) rows.now ordering.now → ⊥) (λ v. ArePartitions (class_by partition.now keys.now) numbers rows.now ordering.now v)) }
{
    match index_of_ordering(alloc, rows, partition, keys, ordering)? {
        None => Ok(None),
        Some(grouped) => {
            let found = partitions_of(alloc, rows, partition, keys, grouped, numbers)?;
            Ok(Some(found))
        }
    }
}

/// The sorted ordering of rows under a class, and its partitions.
#[derive(Drop)]
pub struct SortedPartitions {
    pub ordering: Vec<u64>,
    pub partitions: Partitions,
}

/// The ordering of [`sorted_ordering`] and its partitions. The ordering is not checked again. Takes fewer than 2^32 rows, since peer
/// group numbers have 32 bits.
pub fn sorted_partitions(
    alloc: Global,
    rows: &RowSource,
    partition: &[u16],
    keys: &[SortColumn],
    turn: Turn,
    numbers: bool,
) -> Result<SortedPartitions, OutOfMemory>
    requires { length rows.now < 2 ^ 32 }
    ensures stable { IfOk result (λ s. IsStableSortOf (columns.sort_columns (class_by partition.now keys.now)) rows.now (columns.given_positions turn (length rows.now)) s.ordering.items) }
    ensures partitions { IfOk result (λ s. ArePartitions (class_by partition.now keys.now) numbers rows.now s.ordering.items s.partitions) }
{
    let index = sorted_index(alloc, rows, partition, keys, turn)?;
    let ordering = index.positions.to_vec(alloc)?;
    let partitions = partitions_of(alloc, rows, partition, keys, index, numbers)?;
    Ok(SortedPartitions {
        ordering,
        partitions,
    })
}
