//! The places of a row's frame, from the ranges of all frames.

ghost use Rattle.std.specs.Prelude.{◌≡◌, ◌-◌, ◌^◌, length, min, slice_get};
ghost use Rattle.wd_frame.specs.IndexRanges as spec;
ghost use Rattle.wd_frame.specs.IndexRanges.{lists_of, places_along};

use wd_frame::IndexRange;

/// How many places the frame of the row at a place has, as far as 64 bits count.
pub(crate) fn count_at(lists: &[Vec<IndexRange>], place: usize) -> usize
    ensures { result ≡ min (length (places_along (lists_of lists.now) place)) (2 ^ 64 - 1) }
{
    let mut count: usize = 0;
    for list in lists {
        let range = range_at(list, place);
        count = count.saturating_add(range.end.saturating_sub(range.start));
    }
    count
}

/// The place with this number, from 0, in the frame of the row at a place; none past the last.
pub(crate) fn place_at(lists: &[Vec<IndexRange>], place: usize, number: usize) -> Option<usize>
    ensures { result ≡ slice_get (places_along (lists_of lists.now) place) number }
{
    let mut left = number;
    for list in lists {
        let range = range_at(list, place);
        let length = range.end.saturating_sub(range.start);
        if left < length {
            return Some(range.start + left);
        }
        left -= length;
    }
    None
}

/// The range at a place; an empty one past the last.
fn range_at(list: &[IndexRange], place: usize) -> IndexRange
    ensures { result ≡ spec.range_at list.now place }
{
    match list.get(place) {
        Some(range) => *range,
        None => IndexRange { start: 0, end: 0 },
    }
}
