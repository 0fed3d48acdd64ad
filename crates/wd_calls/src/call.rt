//! The values of a call.

ghost use Rattle.std.specs.Prelude.{◌≡◌, ◌<◌, ◌^◌, length, pos, IfOk, OnOk};
ghost use Rattle.wd_calls.specs.CallColumns.{PutsCalls};
ghost use Rattle.wd_calls.specs.Parts.{IsValueAt, partition_of};
ghost use Rattle.wd_calls.specs.Sources as spec;
ghost use Rattle.wd_calls.specs.Sources.{IsSourceOf};
ghost use Rattle.wd_calls.specs.Values.{IsRising, IsStart};
ghost use Rattle.wd_frame.specs.Places as places;
ghost use Rattle.wd_frame.specs.Places.{part_of};
ghost use Rattle.wd_frame.specs.IndexRanges.{AreFrames, AreLists, lists_of, places_along};
ghost use Rattle.wd_plan.specs.Calls as calls;
ghost use Rattle.wd_plan.specs.declared.function.Function.TheVariants as of;
ghost use Rattle.wd_plan.specs.declared.function.Function as function;
ghost use Rattle.wd_plan.specs.declared.window.Frame as frame;
ghost use Rattle.wd_calls.specs.Values.{values_at};
ghost use Rattle.wd_value.specs.declared.value.Value.TheVariants as value;

use crate::aggregate::{answers, value_of};
use crate::column::CallColumn;
use crate::partition::{Partition, copy_at};
use crate::places::{count_at, place_at};
use crate::ranking::{group_start, ranking_value};
use crate::shift::value_away;
use std::alloc::Global;
use wd_frame::{Answer, IndexRange, Part, frame_ranges};
use wd_plan::{Call, FrameFunction, FrameRow, Function, Ranking, Shift};
use wd_value::{Fault, OutOfMemory, Value};

/// What the values of a call at all places are made from.
#[derive(Drop)]
enum Source<'a> {
    Ranking(Ranking),
    Shift(&'a Shift),
    /// The value of a column at a row of the frame, given by ranges of places.
    Row(FrameRow, u16, Vec<Vec<IndexRange>>),
    /// One for each place.
    Answers(Vec<Answer<'a>>),
}

/// Puts the values of a call at the places of a partition into a column, at the rows' positions; past the column's last row nothing. A
/// sum that 64 bits don't hold is a fault (SQL, window function; PG, Window Functions). `part` has the partition's peer groups and,
/// where the frame has an offset in RANGE, its keys. All values together take time linear in the partition, whatever the frame.
///
/// # Errors
/// Where memory runs out.
pub fn put_values(
    alloc: Global,
    call: &Call,
    partition: &Partition,
    part: &Part,
    column: &mut CallColumn,
) -> Result<(), OutOfMemory>
    ensures { OnOk result (PutsCalls call.now.frame call.now.function partition.now (part_of part.now) column.old column.new) }
{
    let zero = Value::Int(0);
    let source = source_of(alloc, &*call, &*partition, part, &zero)?;
    put_from(alloc, &source, partition, part, column)
}

fn put_from(
    alloc: Global,
    source: &Source,
    partition: &Partition,
    part: &Part,
    column: &mut CallColumn,
) -> Result<(), OutOfMemory>
    ensures { OnOk result ((f : frame.Frame) (function : function.Function) → IsSourceOf f function (partition_of partition.now) (part_of part.now) source.now → PutsCalls f function partition.now (part_of part.now) column.old column.new) }
{
    let mut start = 0;
    for place in 0..partition.positions.len() {
        start = group_start(part, start, place);
        let value = value_from(alloc, source, partition, part, place, start)?;
        column.put(partition.positions[place], value);
    }
    Ok(())
}

fn source_of<'a>(
    alloc: Global,
    call: &'a Call,
    partition: &'a Partition,
    part: &Part,
    zero: &'a Value,
) -> Result<Source<'a>, OutOfMemory>
    requires zero { zero.now ≡ value.Int (pos 0) }
    ensures { IfOk result (λ s. IsSourceOf call.now.frame call.now.function (partition_of partition.now) (part_of part.now) s) }
{
    match &call.function {
        Function::Ranking(ranking) => Ok(Source::Ranking(*ranking)),
        Function::Shift(shift) => Ok(Source::Shift(shift)),
        Function::OfFrame(function) => {
            let lists = frame_ranges(alloc, part, &call.frame)?;
            let count = part.groups.len();
            frame_source(alloc, *function, partition, count, lists, zero)
        }
    }
}

/// The source of a function of frames, which are given by ranges of places.
fn frame_source<'a>(
    alloc: Global,
    function: FrameFunction,
    partition: &'a Partition,
    count: usize,
    lists: Vec<Vec<IndexRange>>,
    zero: &'a Value,
) -> Result<Source<'a>, OutOfMemory>
    requires zero { zero.now ≡ value.Int (pos 0) }
    requires lists { AreLists count (lists_of lists.items) }
    ensures { IfOk result (λ s. (f : frame.Frame) (part : places.PartRule) → length part.groups ≡ count → AreFrames part f (lists_of lists.items) → IsSourceOf f (of.OfFrame function) (partition_of partition.now) part s) }
{
    match function {
        FrameFunction::ValueAt(row, column) => Ok(Source::Row(row, column, lists)),
        FrameFunction::Aggregate(aggregate) => {
            let answers = answers(alloc, aggregate, partition, count, &lists, zero)?;
            Ok(Source::Answers(answers))
        }
    }
}

/// A call's value at a place whose peer group starts at `start`.
fn value_from(
    alloc: Global,
    source: &Source,
    partition: &Partition,
    part: &Part,
    place: usize,
    start: usize,
) -> Result<Result<Value, Fault>, OutOfMemory>
    ensures { IfOk result (λ r. (f : frame.Frame) (function : function.Function) → IsSourceOf f function (partition_of partition.now) (part_of part.now) source.now → (IsRising (part_of part.now).groups → place < length (part_of part.now).groups → IsStart (part_of part.now).groups place start) → IsValueAt f function (partition_of partition.now) (part_of part.now) place r) }
{
    match source {
        Source::Ranking(ranking) => {
            Ok(Ok(ranking_value(*ranking, partition, part, place, start)))
        }
        Source::Shift(shift) => {
            let value = value_away(alloc, shift, partition, place)?;
            Ok(Ok(value))
        }
        Source::Row(row, column, lists) => {
            let value = copy_taken(alloc, *row, *column, partition, place, lists)?;
            Ok(Ok(value))
        }
        Source::Answers(answers) => match answers.get(place) {
            Some(answer) => value_of(alloc, answer),
            None => Ok(Ok(Value::Null)),
        },
    }
}

/// A copy of the value of a column at the first, the last or the nth row of a frame, and NULL where
/// there is none.
fn copy_taken(
    alloc: Global,
    row: FrameRow,
    column: u16,
    partition: &Partition,
    place: usize,
    lists: &[Vec<IndexRange>],
) -> Result<Value, OutOfMemory>
    ensures { IfOk result (λ v. length (places_along (lists_of lists.now) place) < 2 ^ 64 → v ≡ calls.taken row (values_at (partition_of partition.now) column (places_along (lists_of lists.now) place))) }
{
    match place_at(lists, place, number_of(row, lists, place)) {
        Some(other) => copy_at(alloc, partition, other, column),
        None => Ok(Value::Null),
    }
}

/// The number, from 0, of the row that a function takes from a frame.
fn number_of(row: FrameRow, lists: &[Vec<IndexRange>], place: usize) -> usize
    ensures { length (places_along (lists_of lists.now) place) < 2 ^ 64 → result ≡ spec.number_of row (length (places_along (lists_of lists.now) place)) }
{
    match row {
        FrameRow::First => 0,
        FrameRow::Last => count_at(lists, place).saturating_sub(1),
        FrameRow::Nth(n) => n.saturating_sub(1) as usize,
    }
}
