//! Orderings of rows under a class: the sorted one, and the check of a given one.

ghost use Rattle.std.specs.Prelude.{◌≡◌, ◌↔◌, ◌++◌, IfOk, IfSome, IsSorted, IsTrue, MatchOption, length};
ghost use Rattle.wd_partition.specs.Columns as columns_of_class;
ghost use Rattle.wd_partition.specs.Columns.{class_by};
ghost use Rattle.wd_partition.specs.Orderings.{AreGrouped};
ghost use Rattle.wd_plan.specs.Sorting.{IsOrdering};
ghost use Rattle.wd_partition.specs.Steps.{AreSteps};
ghost use Rattle.wd_sort.specs.Sorting.{IsStableSortOf, compare_rows_at};

use crate::columns::{partition_columns, sort_columns};
use crate::once::has_each_once;
use crate::steps::{Step, coded_steps, sorted_steps, steps_of};
use crate::turn::{Turn, given_positions};
use std::alloc::Global;
use wd_columns::RowSource;
use wd_sort::{row_coding, sort_by_coding, sort_positions_in};
use wd_value::{OutOfMemory, SortColumn};

/// Fewer rows than these are sorted directly: finding numbers for them would take longer.
const FEW: usize = 32;

/// Positions sorted by partition, and the step to each of them.
#[derive(Drop)]
pub struct PartitionIndex {
    pub positions: Vec<u64>,
    pub steps: Vec<Step>,
}

/// The ordering of a stable sort: the positions of the rows by the partition columns, ascending with NULL last, and then by the sort
/// keys. Rows that tie on all of these are in the order of `turn`. The class allows this ordering (SQL, window clause).
pub fn sorted_ordering(
    alloc: Global,
    rows: &RowSource,
    partition: &[u16],
    keys: &[SortColumn],
    turn: Turn,
) -> Result<Vec<u64>, OutOfMemory>
    ensures stable { IfOk result (λ v. IsStableSortOf (columns_of_class.sort_columns (class_by partition.now keys.now)) rows.now (columns_of_class.given_positions turn (length rows.now)) v.items) }
    ensures lawful { IfOk result (λ v. IsOrdering (class_by partition.now keys.now) rows.now v.items) }
{
    let columns = sort_columns(alloc, partition, keys)?;
    let given = given_positions(alloc, rows.len(), turn)?;
    let ordering = sort_positions_in(alloc, rows, &columns, &given)?;
    Ok(ordering)
}

/// Whether the list is an ordering that the class allows: each position of the rows once, and the
/// rows of each partition sorted by the keys, where rows that tie may appear in any order (SQL,
/// window clause). Takes n log n comparisons.
pub fn is_ordering(
    alloc: Global,
    rows: &RowSource,
    partition: &[u16],
    keys: &[SortColumn],
    ordering: &[u64],
) -> Result<bool, OutOfMemory>
    ensures { IfOk result (λ b. IsTrue b ↔ IsOrdering (class_by partition.now keys.now) rows.now ordering.now) }
{
    match index_of_ordering(alloc, rows, partition, keys, ordering)? {
        Some(_) => Ok(true),
        None => Ok(false),
    }
}

/// The positions of an ordering, one partition after another and in each in the ordering's order, with the step to each; `None` where the
/// list is no ordering of the class. A list with each position once is an ordering of the class exactly if its stable sort by partition
/// is sorted by all columns.
pub fn index_of_ordering(
    alloc: Global,
    rows: &RowSource,
    partition: &[u16],
    keys: &[SortColumn],
    ordering: &[u64],
) -> Result<Option<PartitionIndex>, OutOfMemory>
    ensures { IfOk result (λ o. MatchOption o (IsOrdering (class_by partition.now keys.now) rows.now ordering.now → ⊥) (λ v. AreGrouped (class_by partition.now keys.now) rows.now ordering.now v.positions.items × AreSteps (compare_rows_at (columns_of_class.partition_columns partition.now) rows.now) (compare_rows_at keys.now rows.now) v.positions.items v.steps.items)) }
{
    if !has_each_once(alloc, rows.len(), ordering)? {
        return Ok(None);
    }
    let by_partition = partition_columns(alloc, partition)?;
    let positions = sort_positions_in(alloc, rows, &by_partition, ordering)?;
    match steps_of(alloc, rows, &by_partition, keys, &positions)? {
        None => Ok(None),
        Some(steps) => Ok(Some(PartitionIndex { positions, steps })),
    }
}

/// An ordering that is sorted by the partition's columns and then by the keys, with the step to each
/// of its positions.
pub fn index_of_sorted(
    alloc: Global,
    rows: &RowSource,
    partition: &[u16],
    keys: &[SortColumn],
    ordering: &[u64],
) -> Result<PartitionIndex, OutOfMemory>
    requires { IsSorted (compare_rows_at (columns_of_class.sort_columns (class_by partition.now keys.now)) rows.now) ordering.now }
    ensures positions { IfOk result (λ v. v.positions.items ≡ ordering.now) }
    ensures steps { IfOk result (λ v. AreSteps (compare_rows_at (columns_of_class.partition_columns partition.now) rows.now) (compare_rows_at keys.now rows.now) ordering.now v.steps.items) }
{
    let by_partition = partition_columns(alloc, partition)?;
    let steps = sorted_steps(alloc, rows, &by_partition, keys, ordering)?;
    let positions = ordering.to_vec(alloc)?;
    Ok(PartitionIndex { positions, steps })
}

/// The sorted ordering of rows under a class, with the step to each of its positions.
pub fn sorted_index(
    alloc: Global,
    rows: &RowSource,
    partition: &[u16],
    keys: &[SortColumn],
    turn: Turn,
) -> Result<PartitionIndex, OutOfMemory>
    ensures stable { IfOk result (λ v. IsStableSortOf (columns_of_class.sort_columns (class_by partition.now keys.now)) rows.now (columns_of_class.given_positions turn (length rows.now)) v.positions.items) }
    ensures steps { IfOk result (λ v. AreSteps (compare_rows_at (columns_of_class.partition_columns partition.now) rows.now) (compare_rows_at keys.now rows.now) v.positions.items v.steps.items) }
{
    if rows.len() >= FEW {
        let by_partition = partition_columns(alloc, partition)?;
        let coded = coded_index(alloc, rows, &by_partition, keys, turn)?;
        if let Some(index) = coded {
            return Ok(index);
        }
    }
    let ordering = sorted_ordering(alloc, rows, partition, keys, turn)?;
    let index = index_of_sorted(alloc, rows, partition, keys, &ordering)?;
    Ok(index)
}

/// The sorted ordering by numbers in place of the rows, which are found once for sorting and steps; `None` where the rows have no such
/// numbers.
fn coded_index(
    alloc: Global,
    rows: &RowSource,
    by_partition: &[SortColumn],
    keys: &[SortColumn],
    turn: Turn,
) -> Result<Option<PartitionIndex>, OutOfMemory>
    ensures stable { IfOk result (λ o. IfSome o (λ v. IsStableSortOf (by_partition.now ++ keys.now) rows.now (columns_of_class.given_positions turn (length rows.now)) v.positions.items)) }
    ensures steps { IfOk result (λ o. IfSome o (λ v. AreSteps (compare_rows_at by_partition.now rows.now) (compare_rows_at keys.now rows.now) v.positions.items v.steps.items)) }
{
    let Some(partitions) = row_coding(alloc, rows, by_partition)? else {
        return Ok(None);
    };
    let Some(within) = row_coding(alloc, rows, keys)? else {
        return Ok(None);
    };
    let all = given_positions(alloc, rows.len(), turn)?;
    let sorted = sort_by_coding(alloc, &within, &all)?;
    let positions = sort_by_coding(alloc, &partitions, &sorted)?;
    match coded_steps(alloc, &partitions.codes, &within.codes, &positions)? {
        Some(steps) => Ok(Some(PartitionIndex { positions, steps })),
        None => Ok(None),
    }
}
