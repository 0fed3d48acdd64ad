//! How neighbours relate to one another among the positions sorted by partition.

ghost use Rattle.std.specs.Prelude.{◌≡◌, ◌++◌, ◌<◌, IfOk, IfSome, IsSorted, MatchOption, Some, length, slice_index};
ghost use Rattle.wd_partition.specs.Steps as spec;
ghost use Rattle.wd_partition.specs.Steps.{AreSteps, compare_codes};
ghost use Rattle.wd_sort.specs.Sorting as sorting;

use std::alloc::Global;
use std::cmp::Ordering;
use wd_columns::RowSource;
use wd_sort::compare_source_at;
use wd_value::{OutOfMemory, SortColumn};

/// How a row relates to the one before it.
#[derive(Clone, Copy)]
pub enum Step {
    /// The row begins a partition.
    Partition,
    /// The row begins a peer group of the same partition.
    Group,
    /// The row ties with the one before.
    Peer,
}

impl Step {
    pub fn begins_partition(self) -> bool
        ensures { result ≡ spec.begins_partition self }
    {
        match self {
            Step::Partition => true,
            Step::Group | Step::Peer => false,
        }
    }
}

/// The step to each of the positions, which are sorted by partition; `None` where some partition is not sorted by the keys.
pub fn steps_of(
    alloc: Global,
    rows: &RowSource,
    by_partition: &[SortColumn],
    by_keys: &[SortColumn],
    positions: &[u64],
) -> Result<Option<Vec<Step>>, OutOfMemory>
    requires { IsSorted (sorting.compare_rows_at by_partition.now rows.now) positions.now }
    ensures { IfOk result (λ o. MatchOption o (IsSorted (sorting.compare_rows_at (by_partition.now ++ by_keys.now) rows.now) positions.now → ⊥) (λ v. IsSorted (sorting.compare_rows_at (by_partition.now ++ by_keys.now) rows.now) positions.now × AreSteps (sorting.compare_rows_at by_partition.now rows.now) (sorting.compare_rows_at by_keys.now rows.now) positions.now v.items)) }
{
    let mut steps = Vec::with_capacity(alloc, positions.len())?;
    for i in 0..positions.len() {
        match step_to(rows, by_partition, by_keys, positions, i) {
            Some(step) => steps.push(step)?,
            None => return Ok(None),
        }
    }
    Ok(Some(steps))
}

/// The step to the position at place `i`; `None` where the keys decrease.
fn step_to(
    rows: &RowSource,
    by_partition: &[SortColumn],
    by_keys: &[SortColumn],
    positions: &[u64],
    i: usize,
) -> Option<Step>
    requires { i < length positions.now }
    ensures { result ≡ spec.step_to (sorting.compare_rows_at by_partition.now rows.now) (sorting.compare_rows_at by_keys.now rows.now) positions.now i }
{
    if i == 0 {
        return Some(Step::Partition);
    }
    match compare_source_at(rows, by_partition, positions[i - 1], positions[i]) {
        Ordering::Equal => {
            key_step(compare_source_at(rows, by_keys, positions[i - 1], positions[i]))
        }
        _ => Some(Step::Partition),
    }
}

/// The step within a partition.
fn key_step(order: Ordering) -> Option<Step>
    ensures { result ≡ spec.key_step order }
{
    match order {
        Ordering::Less => Some(Step::Group),
        Ordering::Equal => Some(Step::Peer),
        Ordering::Greater => None,
    }
}

/// The step to each of the positions, by numbers that compare as the rows do, by partition and by the keys; `None` where the keys
/// decrease.
pub fn coded_steps(
    alloc: Global,
    by_partition: &[u64],
    by_keys: &[u64],
    positions: &[u64],
) -> Result<Option<Vec<Step>>, OutOfMemory>
    ensures { IfOk result (λ o. IfSome o (λ v. AreSteps (compare_codes by_partition.now) (compare_codes by_keys.now) positions.now v.items)) }
{
    let mut steps = Vec::with_capacity(alloc, positions.len())?;
    for i in 0..positions.len() {
        match coded_step(by_partition, by_keys, positions, i) {
            Some(step) => steps.push(step)?,
            None => return Ok(None),
        }
    }
    Ok(Some(steps))
}

/// The step to the position at place `i`; `None` where the keys decrease.
fn coded_step(by_partition: &[u64], by_keys: &[u64], positions: &[u64], i: usize) -> Option<Step>
    requires { i < length positions.now }
    ensures { result ≡ spec.step_to (compare_codes by_partition.now) (compare_codes by_keys.now) positions.now i }
{
    if i == 0 {
        return Some(Step::Partition);
    }
    match compare_codes_at(by_partition, positions[i - 1], positions[i]) {
        Ordering::Equal => key_step(compare_codes_at(by_keys, positions[i - 1], positions[i])),
        Ordering::Less | Ordering::Greater => Some(Step::Partition),
    }
}

/// The order of the numbers at two positions; past the last position the number is 0.
fn compare_codes_at(codes: &[u64], p: u64, q: u64) -> Ordering
    ensures { result ≡ compare_codes codes.now p q }
{
    code_at(codes, p).cmp(&code_at(codes, q))
}

fn code_at(codes: &[u64], position: u64) -> u64
    ensures { result ≡ slice_index codes.now position }
{
    match codes.get(position as usize) {
        Some(code) => *code,
        None => 0,
    }
}

/// The step to each of the positions, which are sorted by the partition's columns and then by the
/// keys.
pub fn sorted_steps(
    alloc: Global,
    rows: &RowSource,
    by_partition: &[SortColumn],
    by_keys: &[SortColumn],
    positions: &[u64],
) -> Result<Vec<Step>, OutOfMemory>
    requires { IsSorted (sorting.compare_rows_at (by_partition.now ++ by_keys.now) rows.now) positions.now }
    ensures { IfOk result (λ v. AreSteps (sorting.compare_rows_at by_partition.now rows.now) (sorting.compare_rows_at by_keys.now rows.now) positions.now v.items) }
{
    let mut steps = Vec::with_capacity(alloc, positions.len())?;
    for i in 0..positions.len() {
        steps.push(sorted_step(rows, by_partition, by_keys, positions, i))?;
    }
    Ok(steps)
}

/// The step to the position at place `i`, where the positions are sorted by the partition's columns and then by the keys.
fn sorted_step(
    rows: &RowSource,
    by_partition: &[SortColumn],
    by_keys: &[SortColumn],
    positions: &[u64],
    i: usize,
) -> Step
    requires within { i < length positions.now }
    requires sorted { IsSorted (sorting.compare_rows_at (by_partition.now ++ by_keys.now) rows.now) positions.now }
    ensures { spec.step_to (sorting.compare_rows_at by_partition.now rows.now) (sorting.compare_rows_at by_keys.now rows.now) positions.now i ≡ Some result }
{
    match step_to(rows, by_partition, by_keys, positions, i) {
        Some(step) => step,
        None => Step::Partition,
    }
}
