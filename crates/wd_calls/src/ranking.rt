//! Ranking functions.

ghost use Rattle.std.specs.Prelude.{◌≡◌, ◌<◌, ◌^◌, length, pos, slice_index_or};
ghost use Rattle.wd_calls.specs.Parts.{IsRankAt, partition_of};
ghost use Rattle.wd_calls.specs.Values.{IsRising, IsStart, IsStartBefore};
ghost use Rattle.wd_frame.specs.Places.{part_of};
ghost use Rattle.wd_value.specs.declared.value.Value.TheVariants as value;

use crate::bucket::bucket;
use crate::partition::Partition;
use wd_frame::Part;
use wd_plan::Ranking;
use wd_value::Value;

/// The number that a ranking function gives at a place, from where the place's peer group starts.
pub(crate) fn ranking_value(
    ranking: Ranking,
    partition: &Partition,
    part: &Part,
    place: usize,
    start: usize,
) -> Value
    ensures { (IsRising (part_of part.now).groups → place < length (part_of part.now).groups → IsStart (part_of part.now).groups place start) → IsRankAt ranking (partition_of partition.now) (part_of part.now) place result }
{
    match ranking {
        Ranking::RowNumber => number(place.saturating_add(1)),
        Ranking::Rank => number(start.saturating_add(1)),
        Ranking::DenseRank => number(group_at(part, place) as usize + 1),
        Ranking::Ntile(buckets) => {
            number(bucket(buckets, partition.positions.len(), place) as usize)
        }
    }
}

/// Where the peer group of a place starts, from where that of the place before it does. Group
/// numbers rise.
pub(crate) fn group_start(part: &Part, before: usize, place: usize) -> usize
    ensures { IsRising (part_of part.now).groups → place < length (part_of part.now).groups → IsStartBefore (part_of part.now).groups place before → IsStart (part_of part.now).groups place result }
{
    if group_at(part, before) == group_at(part, place) {
        before
    } else {
        place
    }
}

/// The peer group number at a place, and 0 past the last.
fn group_at(part: &Part, place: usize) -> u32
    ensures { result ≡ slice_index_or (part_of part.now).groups place 0 }
{
    match part.groups.get(place) {
        Some(group) => *group,
        None => 0,
    }
}

/// A count as a value. No list has more members than the largest value counts.
fn number(count: usize) -> Value
    ensures { count < 2 ^ 63 → result ≡ value.Int (pos count) }
{
    match i64::try_from(count) {
        Ok(count) => Value::Int(count),
        Err(_) => Value::Int(i64::MAX),
    }
}
