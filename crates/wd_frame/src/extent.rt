//! Where frames start and end before their exclusion.

ghost use Rattle.std.specs.Prelude.{◌≡◌, ◌<◌, ◌≤◌, length, IfOk};
ghost use Rattle.wd_frame.specs.Bounds as spec;
ghost use Rattle.wd_frame.specs.Bounds.{IsInOrder, bound_of, end_of, start_of};
ghost use Rattle.wd_frame.specs.Places.{part_of};
ghost use Rattle.wd_frame.specs.IndexRanges.{AreBounds};

use crate::distance::{Side, bound_asks};
use crate::frame::{Part, distances};
use std::alloc::Global;
use wd_plan::Frame;
use wd_value::OutOfMemory;

/// How many places are before the start of the frame of the row at `place`, and how many are not after its end. The frame without its
/// exclusion has the places from the first number up to the second, and none where the second is not greater. Takes time logarithmic in
/// the partition's length.
pub fn bounds(part: &Part, frame: &Frame, place: usize) -> (usize, usize)
    ensures start { IsInOrder (part_of part.now) frame.now → place < length (part_of part.now).groups → result.0 ≡ start_of (part_of part.now) frame.now place }
    ensures end { IsInOrder (part_of part.now) frame.now → place < length (part_of part.now).groups → result.1 ≡ end_of (part_of part.now) frame.now place }
{
    (
        bound(Side::Start, part, frame, place),
        bound(Side::End, part, frame, place),
    )
}

/// The places from `start` up to `end`; none where the end does not pass the start.
#[derive(Clone, Copy)]
pub struct IndexRange {
    pub start: usize,
    pub end: usize,
}

/// The bounds of the frames of all places, as `bounds` gives them. Takes time linear in the partition's length: each bound moves on
/// from that of the place before it.
pub fn all_bounds(alloc: Global, part: &Part, frame: &Frame) -> Result<Vec<IndexRange>, OutOfMemory>
    ensures { IfOk result (λ v. AreBounds (part_of part.now) frame.now v.items) }
{
    let mut all = Vec::with_capacity(alloc, part.groups.len())?;
    let mut start = 0;
    let mut end = 0;
    for place in 0..part.groups.len() {
        start = move_on(Side::Start, part, frame, place, start);
        end = move_on(Side::End, part, frame, place, end);
        all.push(IndexRange { start, end })?;
    }
    Ok(all)
}

/// The number of places that pass one side of the frame, by halving.
fn bound(side: Side, part: &Part, frame: &Frame, place: usize) -> usize
    ensures { IsInOrder (part_of part.now) frame.now → place < length (part_of part.now).groups → result ≡ bound_of side (part_of part.now) frame.now place }
{
    let mut passed = 0;
    let mut open = part.groups.len();
    while passed < open {
        let middle = passed + (open - passed) / 2;
        if is_passed(side, part, frame, place, middle) {
            passed = middle + 1;
        } else {
            open = middle;
        }
    }
    passed
}

/// The number of places that pass one side of the frame, moved on from that of an earlier place.
pub(crate) fn move_on(side: Side, part: &Part, frame: &Frame, place: usize, from: usize) -> usize
    requires { from ≤ length (part_of part.now).groups }
    ensures rises { from ≤ result }
    ensures within { result ≤ length (part_of part.now).groups }
    ensures exact { IsInOrder (part_of part.now) frame.now → place < length (part_of part.now).groups → from ≤ bound_of side (part_of part.now) frame.now place → result ≡ bound_of side (part_of part.now) frame.now place }
{
    for other in from..part.groups.len() {
        if !is_passed(side, part, frame, place, other) {
            return other;
        }
    }
    part.groups.len()
}

/// Whether the member at `other` is before the start (or, for the end, not after it).
fn is_passed(side: Side, part: &Part, frame: &Frame, place: usize, other: usize) -> bool
    ensures { result ≡ spec.is_passed side (part_of part.now) frame.now place other }
{
    let distances = distances(part, place, other);
    match side {
        Side::Start => !bound_asks(frame.mode, Side::Start, frame.start, &distances),
        Side::End => bound_asks(frame.mode, Side::End, frame.end, &distances),
    }
}
