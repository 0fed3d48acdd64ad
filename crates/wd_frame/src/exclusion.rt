//! The places of frames, without what their exclusion leaves out, as ranges.

ghost use Rattle.std.specs.Prelude.{◌≡◌, ◌<◌, ◌≤◌, ◌∷◌, [], length, IfOk};
ghost use Rattle.wd_frame.specs.Places.{part_of};
ghost use Rattle.wd_frame.specs.IndexRanges as spec;
ghost use Rattle.wd_frame.specs.IndexRanges.{AreFrames, AreLeftOut, AreRows, AreShared, AreZones, lists_of};

use crate::extent::{IndexRange, all_bounds};
use crate::frame::Part;
use std::alloc::Global;
use wd_plan::{Bound, Exclusion, Frame, FrameMode};
use wd_value::OutOfMemory;

/// The frame of the row's peers.
const PEERS: Frame = Frame {
    mode: FrameMode::Groups,
    start: Bound::CurrentRow,
    end: Bound::CurrentRow,
    exclusion: Exclusion::NoOthers,
};

/// What an exclusion keeps of a partition: the places before those that it leaves out, the row itself, and the places after.
#[derive(Clone, Copy)]
pub enum Zone {
    Before,
    Row,
    After,
}

const AROUND: [Zone; 2] = [Zone::Before, Zone::After];

const WITH_THE_ROW: [Zone; 3] = [Zone::Before, Zone::Row, Zone::After];

/// The places of the frames of all places, as lists that have a range for each place: one list without an exclusion, two with one, and
/// three where it keeps the row itself. A frame has the places of its ranges, list by list. Takes time linear in the partition's
/// length.
pub fn frame_ranges(
    alloc: Global,
    part: &Part,
    frame: &Frame,
) -> Result<Vec<Vec<IndexRange>>, OutOfMemory>
    ensures { IfOk result (λ v. AreFrames (part_of part.now) frame.now (lists_of v.items)) }
{
    let bounds = all_bounds(alloc, part, frame)?;
    match frame.exclusion {
        Exclusion::NoOthers => only(alloc, bounds),
        exclusion => {
            let left_out = excluded_ranges(alloc, part, exclusion)?;
            in_zones(alloc, zones_of(exclusion), &bounds, &left_out)
        }
    }
}

/// A list of one list.
fn only(alloc: Global, ranges: Vec<IndexRange>) -> Result<Vec<Vec<IndexRange>>, OutOfMemory>
    ensures { IfOk result (λ v. lists_of v.items ≡ ranges.items ∷ []) }
{
    let mut lists = Vec::new(alloc);
    lists.push(ranges)?;
    Ok(lists)
}

/// For each place the range that the exclusion leaves out; under TIES it includes the row itself.
fn excluded_ranges(
    alloc: Global,
    part: &Part,
    exclusion: Exclusion,
) -> Result<Vec<IndexRange>, OutOfMemory>
    ensures { IfOk result (λ v. AreLeftOut (part_of part.now) exclusion v.items) }
{
    match exclusion {
        Exclusion::NoOthers => rows(alloc, part.groups.len(), 0),
        Exclusion::CurrentRow => rows(alloc, part.groups.len(), 1),
        Exclusion::Group | Exclusion::Ties => all_bounds(alloc, part, &PEERS),
    }
}

/// For each place the range of `length` places from there on.
fn rows(alloc: Global, count: usize, length: usize) -> Result<Vec<IndexRange>, OutOfMemory>
    requires { length ≤ 1 }
    ensures { IfOk result (λ v. AreRows count length v.items) }
{
    let mut rows = Vec::with_capacity(alloc, count)?;
    for place in 0..count {
        rows.push(IndexRange {
            start: place,
            end: place + length,
        })?;
    }
    Ok(rows)
}

fn zones_of(exclusion: Exclusion) -> &'static [Zone]
    ensures { result.now ≡ spec.zones_of exclusion }
{
    match exclusion {
        Exclusion::Ties => &WITH_THE_ROW,
        _ => &AROUND,
    }
}

/// For each zone what the ranges share with it.
fn in_zones(
    alloc: Global,
    zones: &[Zone],
    bounds: &[IndexRange],
    left_out: &[IndexRange],
) -> Result<Vec<Vec<IndexRange>>, OutOfMemory>
    requires { length left_out.now ≡ length bounds.now }
    ensures { IfOk result (λ v. AreZones zones.now bounds.now left_out.now (lists_of v.items)) }
{
    let mut lists = Vec::with_capacity(alloc, zones.len())?;
    for zone in zones {
        let list = in_zone(alloc, *zone, bounds, left_out)?;
        lists.push(list)?;
    }
    Ok(lists)
}

/// What each range shares with the zone at its place.
fn in_zone(
    alloc: Global,
    zone: Zone,
    bounds: &[IndexRange],
    left_out: &[IndexRange],
) -> Result<Vec<IndexRange>, OutOfMemory>
    requires { length left_out.now ≡ length bounds.now }
    ensures { IfOk result (λ v. AreShared zone bounds.now left_out.now v.items) }
{
    let mut list = Vec::with_capacity(alloc, bounds.len())?;
    for place in 0..bounds.len() {
        let kept = zone_of(zone, left_out[place], place, bounds.len());
        list.push(intersection(bounds[place], kept))?;
    }
    Ok(list)
}

/// Those of `count` places that are in a zone.
fn zone_of(zone: Zone, left_out: IndexRange, place: usize, count: usize) -> IndexRange
    requires { place < count }
    ensures { result ≡ spec.zone_of zone left_out place count }
{
    match zone {
        Zone::Before => IndexRange {
            start: 0,
            end: left_out.start,
        },
        Zone::Row => IndexRange {
            start: place,
            end: place + 1,
        },
        Zone::After => IndexRange {
            start: left_out.end,
            end: count,
        },
    }
}

/// The places that two ranges share.
fn intersection(one: IndexRange, other: IndexRange) -> IndexRange
    ensures { result ≡ spec.shared one other }
{
    IndexRange {
        start: one.start.max(other.start),
        end: one.end.min(other.end),
    }
}
