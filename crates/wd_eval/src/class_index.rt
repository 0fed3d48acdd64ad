//! The partitions of a Window's classes, under the orderings of a choice and under sorted ones.

ghost use Rattle.std.specs.Prelude.{◌≡◌, ◌^◌, ◌<◌, ◌≤◌, IfOk, MatchOption, Ok, OnOk, length};
ghost use Rattle.wd_frame.specs.Laws as frames;
ghost use Rattle.wd_partition.specs.Columns.{given_positions, sort_columns};
ghost use Rattle.wd_plan.specs.Outcomes.{class_at};
ghost use Rattle.wd_plan.specs.Plans.{class_of, window_of};
ghost use Rattle.wd_sort.specs.Sorting.{IsStableSortOf};
ghost use Rattle.wd_eval.specs.ClassIndexes as spec;
ghost use Rattle.wd_eval.specs.ClassIndexes.{AreClassIndexes, AreClassIndexesOrUnserved, IsIndexed, IsClassIndex, IsClassIndexIn};
ghost use Rattle.wd_eval.specs.Ties.{AreAllPut};
ghost use Rattle.wd_eval.specs.Windows.{HasOrdering, orderings_of};

use crate::error::EvalError;
use crate::turned::{Turned, turn_of};
use std::alloc::Global;
use wd_columns::RowSource;
use wd_partition::{Partitions, SortedPartitions, Turn, partitions, sorted_partitions};
use wd_plan::{Class, Frame, FrameMode, Window};
use wd_value::{OutOfMemory, SortColumn};

/// The partitions of a class, with the keys where a call asks for them, and whether the only sort key
/// is sorted descending.
#[derive(Drop)]
pub(crate) struct ClassIndex {
    pub partitions: Partitions,
    pub desc: bool,
}

/// The partitions of each class of a Window under the orderings from `first` on. Refuses the first of
/// these that is missing or not lawful, by its number.
pub(crate) fn indexes(
    alloc: Global,
    window: &Window,
    rows: &RowSource,
    choice: &[Vec<u64>],
    first: usize,
) -> Result<Vec<ClassIndex>, EvalError>
    requires short { length rows.now < 2 ^ 32 }
    requires within { first ≤ length choice.now }
    ensures { AreClassIndexesOrUnserved (window_of window.now) rows.now (orderings_of choice.now) first result }
{
    let mut indexes = Vec::new(alloc);
    for (number, class) in window.classes.iter().enumerate() {
        let asked = asks_keys(window, number);
        match class_index_of(alloc, class, asked, rows, choice, first + number)? {
            Some(class_index) => indexes.push(class_index)?,
            None => return Err(EvalError::NotValid((first + number) as u64)),
        }
    }
    Ok(indexes)
}

/// The partitions of a class under the choice's ordering with this number, with the keys where they
/// are asked for; none where the ordering is missing or not lawful.
fn class_index_of(
    alloc: Global,
    class: &Class,
    asked: bool,
    rows: &RowSource,
    choice: &[Vec<u64>],
    number: usize,
) -> Result<Option<ClassIndex>, OutOfMemory>
    requires { length rows.now < 2 ^ 32 }
    ensures { IfOk result (λ o. MatchOption o (HasOrdering (class_of class.now) (Ok rows.now) (orderings_of choice.now) number → ⊥) (λ l. IsIndexed (class_of class.now) asked rows.now (orderings_of choice.now) number l)) }
{
    let Some(ordering) = choice.get(number) else {
        return Ok(None);
    };
    match partitions(alloc, rows, &class.partition, &class.order, ordering, asked)? {
        None => Ok(None),
        Some(partitions) => Ok(Some(ClassIndex {
            partitions,
            desc: is_descending(&class.order),
        })),
    }
}

/// The sorted ordering of a class, and the partitions under it.
#[derive(Drop)]
pub(crate) struct SortedClassIndex {
    pub ordering: Vec<u64>,
    pub class_index: ClassIndex,
}

/// The stable sort of the rows' positions, taken in this turn, by the Window's class with this number,
/// and the partitions that it makes.
pub(crate) fn sorted_class_index(
    alloc: Global,
    window: &Window,
    number: usize,
    rows: &RowSource,
    turn: Turn,
) -> Result<SortedClassIndex, OutOfMemory>
    requires short { length rows.now < 2 ^ 32 }
    requires within { number < length (window_of window.now).classes }
    ensures stable { IfOk result (λ s. IsStableSortOf (sort_columns (class_at (window_of window.now) number)) rows.now (given_positions turn (length rows.now)) s.ordering.items) }
    ensures class_index { IfOk result (λ s. IsClassIndexIn (window_of window.now) number rows.now s.ordering.items s.class_index) }
{
    let asked = asks_keys(window, number);
    sorted_class_index_of(alloc, &window.classes[number], asked, rows, turn)
}

/// The stable sort of the rows' positions, taken in this turn, by a class, and the partitions that it makes, with the keys where they are asked for.
fn sorted_class_index_of(
    alloc: Global,
    class: &Class,
    asked: bool,
    rows: &RowSource,
    turn: Turn,
) -> Result<SortedClassIndex, OutOfMemory>
    requires { length rows.now < 2 ^ 32 }
    ensures stable { IfOk result (λ s. IsStableSortOf (sort_columns (class_of class.now)) rows.now (given_positions turn (length rows.now)) s.ordering.items) }
    ensures class_index { IfOk result (λ s. IsClassIndex (class_of class.now) asked rows.now s.ordering.items s.class_index) }
{
    let sorted = sorted_partitions(alloc, rows, &class.partition, &class.order, turn, asked)?;
    let SortedPartitions {
        ordering,
        partitions,
    } = sorted;
    let desc = is_descending(&class.order);
    let class_index = ClassIndex { partitions, desc };
    Ok(SortedClassIndex {
        ordering,
        class_index,
    })
}

/// Appends the sorted ordering of each class of a Window to those made before, and gives the
/// partitions under them.
pub(crate) fn sorted_indexes(
    alloc: Global,
    window: &Window,
    rows: &RowSource,
    turned: Option<Turned>,
    made: &mut Vec<Vec<u64>>,
) -> Result<Vec<ClassIndex>, OutOfMemory>
    requires { length rows.now < 2 ^ 32 }
    ensures put { OnOk result (AreAllPut (window_of window.now).classes (Ok rows.now) turned (orderings_of made.old.items) (orderings_of made.new.items)) }
    ensures indexes { IfOk result (λ v. AreClassIndexes (window_of window.now) rows.now (orderings_of made.new.items) (length (orderings_of made.old.items)) (length (window_of window.now).classes) v.items) }
{
    let mut indexes = Vec::new(alloc);
    for number in 0..window.classes.len() {
        let turn = turn_of(turned, made.len());
        let sorted = sorted_class_index(alloc, window, number, rows, turn)?;
        let SortedClassIndex {
            ordering,
            class_index,
        } = sorted;
        made.push(ordering)?;
        indexes.push(class_index)?;
    }
    Ok(indexes)
}

/// Whether a call of the class with this number has a frame in RANGE with an offset: such a frame
/// alone reads keys.
fn asks_keys(window: &Window, class: usize) -> bool
    ensures { result ≡ spec.asks_keys (window_of window.now) class }
{
    window.calls.iter().any(|call| usize::from(call.class) == class && has_range_offset(call.frame))
}

fn has_range_offset(frame: Frame) -> bool
    ensures { result ≡ frames.has_range_offset frame }
{
    match frame.mode {
        FrameMode::Range => frame.start.has_offset() || frame.end.has_offset(),
        FrameMode::Rows | FrameMode::Groups => false,
    }
}

/// Whether the only sort key is sorted descending; false where there is none or there are several.
fn is_descending(keys: &[SortColumn]) -> bool
    ensures { result ≡ frames.is_descending keys.now }
{
    match keys {
        [key] => key.key.desc,
        _ => false,
    }
}
