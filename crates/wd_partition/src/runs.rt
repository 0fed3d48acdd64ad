//! Where each partition begins and ends among positions that are sorted by partition.

ghost use Rattle.std.specs.Prelude.{◌≡◌, ◌+◌, ◌<◌, ◌^◌, IfOk, length, map, slice_index};
ghost use Rattle.wd_partition.specs.Indexed.{AreIndexedRows, by_partition};
ghost use Rattle.wd_partition.specs.Runs as spec;

use crate::indexed::IndexedRows;
use std::alloc::Global;
use wd_value::OutOfMemory;

/// For each of the sorted positions, how many come before its partition.
pub fn partition_starts(alloc: Global, indexed: &IndexedRows) -> Result<Vec<u32>, OutOfMemory>
    requires short { length indexed.now.positions.now < 2 ^ 32 }
    requires indexed { AreIndexedRows indexed.now }
    ensures { IfOk result (λ v. v.items ≡ map (spec.starts_at (by_partition indexed.now) indexed.now.positions.now) indexed.now.positions.now) }
{
    let mut starts = Vec::with_capacity(alloc, indexed.positions.len())?;
    let mut start = 0;
    for i in 0..indexed.positions.len() {
        start = next_start(indexed, i, start);
        starts.push(start)?;
    }
    Ok(starts)
}

/// The start of the partition at place `i`, from that at the place before.
fn next_start(indexed: &IndexedRows, i: usize, start: u32) -> u32
    requires short { length indexed.now.positions.now < 2 ^ 32 }
    requires indexed { AreIndexedRows indexed.now }
    requires within { i < length indexed.now.positions.now }
    requires before { (k : _) → k + 1 ≡ i → start ≡ spec.starts_at (by_partition indexed.now) indexed.now.positions.now (slice_index indexed.now.positions.now k) }
    ensures { result ≡ spec.starts_at (by_partition indexed.now) indexed.now.positions.now (slice_index indexed.now.positions.now i) }
{
    if indexed.steps[i].begins_partition() {
        i as u32
    } else {
        start
    }
}

/// For each of the sorted positions, how many come before the end of its partition.
pub fn partition_ends(alloc: Global, indexed: &IndexedRows) -> Result<Vec<u32>, OutOfMemory>
    requires short { length indexed.now.positions.now < 2 ^ 32 }
    requires indexed { AreIndexedRows indexed.now }
    ensures { IfOk result (λ v. v.items ≡ map (spec.ends_at (by_partition indexed.now) indexed.now.positions.now) indexed.now.positions.now) }
{
    let mut ends = vec![in alloc; 0; indexed.positions.len()]?;
    let mut end = indexed.positions.len() as u32;
    for i in (0..indexed.positions.len()).rev() {
        end = next_end(indexed, i, end);
        ends[i] = end;
    }
    Ok(ends)
}

/// The end of the partition at place `i`, from that at the place after.
fn next_end(indexed: &IndexedRows, i: usize, end: u32) -> u32
    requires short { length indexed.now.positions.now < 2 ^ 32 }
    requires indexed { AreIndexedRows indexed.now }
    requires within { i < length indexed.now.positions.now }
    requires following { i + 1 < length indexed.now.positions.now → end ≡ spec.ends_at (by_partition indexed.now) indexed.now.positions.now (slice_index indexed.now.positions.now (i + 1)) }
    ensures { result ≡ spec.ends_at (by_partition indexed.now) indexed.now.positions.now (slice_index indexed.now.positions.now i) }
{
    if i + 1 < indexed.steps.len() && !indexed.steps[i + 1].begins_partition() {
        end
    } else {
        (i + 1) as u32
    }
}
