//! The place of the row at each position among the positions sorted by partition.

ghost use Rattle.std.specs.Prelude.{◌≡◌, ◌<◌, ◌^◌, IfOk, length};
ghost use Rattle.wd_partition.specs.Places.{ArePlaces};
ghost use Rattle.wd_value.specs.Bags.{EachOnce};

use crate::places::Place;
use std::alloc::Global;
use wd_value::OutOfMemory;

/// For each position its place in the list, and where its partition starts and ends in the list.
pub fn places_of(
    alloc: Global,
    list: &[u64],
    starts: &[u32],
    ends: &[u32],
) -> Result<Vec<Place>, OutOfMemory>
    requires short { length list.now < 2 ^ 32 }
    requires once { EachOnce (length list.now) list.now }
    requires starts_long { length starts.now ≡ length list.now }
    requires ends_long { length ends.now ≡ length list.now }
    ensures { IfOk result (λ v. ArePlaces list.now starts.now ends.now (length list.now) v.items) }
{
    let none = Place {
        start: 0,
        end: 0,
        index: 0,
    };
    let mut places = vec![in alloc; none; list.len()]?;
    for i in 0..list.len() {
        let place = Place {
            start: starts[i],
            end: ends[i],
            index: i as u32,
        };
        places[list[i] as usize] = place;
    }
    Ok(places)
}
