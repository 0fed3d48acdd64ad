//! The partitions of an ordering, row by row.

ghost use Rattle.std.specs.Prelude.{◌≡◌, ◌^◌, ◌<◌, ◌≤◌, List, IfOk, length, map, option_map, slice_get};
ghost use Rattle.wd_partition.specs.Columns.{class_by, partition_columns};
ghost use Rattle.wd_partition.specs.Members.{AreWithin, MemberRule, member_at, members_of, range};
ghost use Rattle.wd_partition.specs.Orderings.{IsGroupedOrdering};
ghost use Rattle.wd_partition.specs.Shown.{member_rule};
ghost use Rattle.wd_partition.specs.Steps.{AreSteps};
ghost use Rattle.wd_sort.specs.Sorting.{compare_rows_at};

use crate::groups::{group_numbers, key_numbers};
use crate::indexed::IndexedRows;
use crate::member::Member;
use crate::ordering::PartitionIndex;
use crate::places::Place;
use crate::placing::places_of;
use crate::runs::{partition_ends, partition_starts};
use std::alloc::Global;
use std::marker::Model;
use wd_columns::RowSource;
use wd_value::{OutOfMemory, SortColumn, Value};

/// The partitions of an ordering: for each row the members of its partition, their peer group numbers, and its place among them. Takes a
/// few words for each row.
#[derive(Drop)]
pub struct Partitions {
    /// The ordering's positions, one partition after another.
    sorted: Vec<u64>,
    groups: Vec<u32>,
    numbers: Vec<Value>,
    /// For each row, by its position.
    places: Vec<Place>,
}

impl Model for Partitions {
    ghost Value = { List MemberRule };

    ghost view = { λ p. map (member_at p.sorted.items p.groups.items p.numbers.items) p.places.items };

    ghost invariant = { λ p. AreWithin p.sorted.items p.groups.items p.numbers.items p.places.items };
}

impl Partitions {
    /// The partition of the row at a position; `None` past the last row. Takes constant time.
    pub fn member(&self, position: usize) -> Option<Member<'_>>
        ensures { option_map member_rule result ≡ slice_get self.now position }
    {
        match self.places.get(position) {
            None => None,
            Some(place) => {
                let (start, end) = (place.start as usize, place.end as usize);
                Some(Member {
                    positions: &self.sorted[start..end],
                    groups: &self.groups[start..end],
                    numbers: numbers_at(&self.numbers, *place),
                    place: (place.index - place.start) as usize,
                })
            }
        }
    }
}

/// The numbers in a row's partition; empty where there are no numbers.
fn numbers_at(numbers: &[Value], place: Place) -> &[Value]
    requires ends { place.start ≤ place.end }
    requires within { 0 < length numbers.now → place.end ≤ length numbers.now }
    ensures { result.now ≡ range place numbers.now }
{
    if numbers.is_empty() {
        return &[];
    }
    &numbers[place.start as usize..place.end as usize]
}

/// The partitions of positions that are sorted by partition.
pub fn partitions_of(
    alloc: Global,
    rows: &RowSource,
    partition: &[u16],
    keys: &[SortColumn],
    grouped: PartitionIndex,
    asked: bool,
) -> Result<Partitions, OutOfMemory>
    requires short { length rows.now < 2 ^ 32 }
    requires lawful { IsGroupedOrdering (class_by partition.now keys.now) rows.now grouped.positions.items }
    requires steps { AreSteps (compare_rows_at (partition_columns partition.now) rows.now) (compare_rows_at keys.now rows.now) grouped.positions.items grouped.steps.items }
    ensures { IfOk result (λ v. v ≡ members_of (class_by partition.now keys.now) asked rows.now grouped.positions.items) }
{
    let PartitionIndex { positions, steps } = grouped;
    let indexed = IndexedRows {
        rows,
        partition,
        keys,
        positions: &positions,
        steps: &steps,
    };
    let starts = partition_starts(alloc, &indexed)?;
    let ends = partition_ends(alloc, &indexed)?;
    let places = places_of(alloc, &positions, &starts, &ends)?;
    let groups = group_numbers(alloc, &indexed)?;
    let numbers = key_numbers(alloc, rows, keys, &positions, asked)?;
    Ok(Partitions {
        sorted: positions,
        groups,
        numbers,
        places,
    })
}
