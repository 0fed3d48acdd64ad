//! COUNT, SUM, MIN and MAX over the frames of all places.

ghost use Rattle.std.specs.Prelude.{◌≡◌, map, pos, IfOk};
ghost use Rattle.wd_calls.specs.Answers as spec;
ghost use Rattle.wd_calls.specs.Answers.{AreAnswersOf, AreCounts};
ghost use Rattle.wd_calls.specs.Parts.{partition_of};
ghost use Rattle.wd_frame.specs.Slides.{IsAnswer, seen, shown, sum_over};
ghost use Rattle.wd_frame.specs.IndexRanges.{AreLists, lists_of};
ghost use Rattle.wd_plan.specs.Calls.{aggregate_value, column_values};
ghost use Rattle.wd_plan.specs.Expressions as expressions;
ghost use Rattle.wd_value.specs.declared.value.Value.TheVariants as variant;

use crate::partition::{Partition, column_values, value_at};
use crate::places::count_at;
use std::alloc::Global;
use wd_frame::{Answer, Ascending, Count, Descending, Extreme, IndexRange, Join, Sum, over_lists};
use wd_plan::Aggregate;
use wd_value::{Fault, OutOfMemory, Value};

/// For each of `count` places the answer of an aggregate over the place's ranges.
pub(crate) fn answers<'a>(
    alloc: Global,
    aggregate: Aggregate,
    partition: &'a Partition,
    count: usize,
    lists: &[Vec<IndexRange>],
    zero: &'a Value,
) -> Result<Vec<Answer<'a>>, OutOfMemory>
    requires lists { AreLists count (lists_of lists.now) }
    requires zero { zero.now ≡ variant.Int (pos 0) }
    ensures { IfOk result (λ v. AreAnswersOf aggregate (partition_of partition.now) count (lists_of lists.now) v.items) }
{
    match aggregate {
        Aggregate::CountRows => counts(alloc, lists, count),
        Aggregate::Count(column) => {
            let values = column_values(alloc, partition, column, count)?;
            over_lists(alloc, lists, &values, Count::new(alloc))
        }
        Aggregate::Sum(column) => {
            let values = column_values(alloc, partition, column, count)?;
            let addends = addends(alloc, &values, zero)?;
            over_lists(alloc, lists, &addends, Sum::new(alloc))
        }
        Aggregate::Min(column) => {
            let values = column_values(alloc, partition, column, count)?;
            over_lists(alloc, lists, &values, Extreme::new(alloc, Ascending))
        }
        Aggregate::Max(column) => {
            let values = column_values(alloc, partition, column, count)?;
            over_lists(alloc, lists, &values, Extreme::new(alloc, Descending))
        }
    }
}

/// The value of an aggregate over all rows of a partition, or its fault. Goes over the rows once, and keeps none of their values.
pub fn aggregate_over(
    alloc: Global,
    aggregate: Aggregate,
    partition: &Partition,
) -> Result<Result<Value, Fault>, OutOfMemory>
    ensures { IfOk result (λ r. r ≡ aggregate_value aggregate (partition_of partition.now)) }
{
    let zero = Value::Int(0);
    let answer = answer_over(aggregate, &*partition, &zero);
    value_of(alloc, &answer)
}

/// The answer of an aggregate over all rows of a partition.
fn answer_over<'a>(aggregate: Aggregate, partition: &'a Partition, zero: &'a Value) -> Answer<'a>
    requires zero { zero.now ≡ variant.Int (pos 0) }
    ensures { spec.value_of (shown result) ≡ aggregate_value aggregate (partition_of partition.now) }
{
    match aggregate {
        Aggregate::CountRows => Answer::Number(partition.positions.len() as i128),
        Aggregate::Count(column) => over_rows::<Count<'a>>(partition, column),
        Aggregate::Sum(column) => total_over_rows(partition, column, zero),
        Aggregate::Min(column) => over_rows::<Extreme<'a, Ascending>>(partition, column),
        Aggregate::Max(column) => over_rows::<Extreme<'a, Descending>>(partition, column),
    }
}

/// A function's answer over the values in a column of all rows of a partition.
fn over_rows<'a, S: Join<'a>>(partition: &'a Partition, column: u16) -> Answer<'a>
    ensures { IsAnswer S.plain (column_values column (partition_of partition.now)) result }
{
    let mut answer = S::none();
    for place in 0..partition.positions.len() {
        answer = S::join(answer, S::one(value_at(partition, place, column)));
    }
    answer
}

/// The total over the values in a column of all rows of a partition. A value that is no whole number counts as 0.
fn total_over_rows<'a>(partition: &'a Partition, column: u16, zero: &'a Value) -> Answer<'a>
    requires { zero.now ≡ variant.Int (pos 0) }
    ensures { IsAnswer sum_over (map spec.addend (column_values column (partition_of partition.now))) result }
{
    let mut answer = Sum::none();
    for place in 0..partition.positions.len() {
        let value = addend(value_at(partition, place, column), zero);
        answer = Sum::join(answer, Sum::one(value));
    }
    answer
}

/// How many places each frame has.
fn counts<'a>(
    alloc: Global,
    lists: &[Vec<IndexRange>],
    count: usize,
) -> Result<Vec<Answer<'a>>, OutOfMemory>
    ensures { IfOk result (λ v. AreCounts count (lists_of lists.now) v.items) }
{
    let mut counts = Vec::with_capacity(alloc, count)?;
    for place in 0..count {
        counts.push(Answer::Number(count_at(lists, place) as i128))?;
    }
    Ok(counts)
}

/// What the values add to a total. A value that is no whole number counts as 0.
fn addends<'a>(
    alloc: Global,
    values: &[&'a Value],
    zero: &'a Value,
) -> Result<Vec<&'a Value>, OutOfMemory>
    requires { zero.now ≡ variant.Int (pos 0) }
    ensures { IfOk result (λ v. seen v.items ≡ map spec.addend (seen values.now)) }
{
    let mut addends = Vec::with_capacity(alloc, values.len())?;
    for value in values {
        addends.push(addend(value, zero))?;
    }
    Ok(addends)
}

/// What a value adds to a total: nothing where it is NULL.
fn addend<'a>(value: &'a Value, zero: &'a Value) -> &'a Value
    requires { zero.now ≡ variant.Int (pos 0) }
    ensures { result.now ≡ spec.addend value.now }
{
    match value {
        Value::Int(_) | Value::Null => value,
        _ => zero,
    }
}

/// An answer as a value; a fault where it is a number that 64 bits don't hold.
pub(crate) fn value_of(alloc: Global, answer: &Answer) -> Result<Result<Value, Fault>, OutOfMemory>
    ensures { IfOk result (λ r. r ≡ spec.value_of (shown answer.now)) }
{
    match answer {
        Answer::Number(number) => Ok(in_64(*number)),
        Answer::Of(value) => Ok(Ok(value.copy(alloc)?)),
        Answer::Nothing => Ok(Ok(Value::Null)),
    }
}

/// A whole number as a value; a fault where 64 bits don't hold it.
fn in_64(number: i128) -> Result<Value, Fault>
    ensures { result ≡ expressions.in_64 number }
{
    match i64::try_from(number) {
        Ok(number) => Ok(Value::Int(number)),
        Err(_) => Err(Fault::OutOfRange),
    }
}
