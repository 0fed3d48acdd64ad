//! Functions over the values of ranges and frames.

ghost use Rattle.std.specs.Prelude.{◌≡◌, ℕ, ◌+◌, ◌-◌, ◌^◌, ◌<◌, ◌≤◌, ◌++◌, [], length, drop, IfOk, OnOk};
ghost use Rattle.wd_frame.specs.Places.{part_of};
ghost use Rattle.wd_plan.specs.declared.window.Exclusion.TheVariants as exclusion;
ghost use Rattle.wd_frame.specs.Slides.{Values, seen, shown};
ghost use Rattle.wd_frame.specs.IndexRanges.{AreAnswers, AreFrameAnswers, AreLists, AreRising, lists_of, picked, places_along, places_in, range_at, values_in};

use crate::answer::Answer;
use crate::extent::{IndexRange, all_bounds};
use crate::frame::Part;
use crate::slide::{Join, Slide};
use std::alloc::Global;
use wd_plan::Frame;
use wd_value::{OutOfMemory, Value};

/// For each place of a partition the function's answer over the values in its frame. Each value is pushed once at most, and popped once
/// at most.
pub fn over_frames<'a, S: Slide<'a>>(
    alloc: Global,
    part: &Part,
    frame: &Frame,
    values: &'a [Value],
    empty: S,
) -> Result<Vec<Answer<'a>>, OutOfMemory>
    requires empty { S.values empty ≡ [] }
    requires long { length values.now ≡ length (part_of part.now).groups }
    requires whole { frame.now.exclusion ≡ exclusion.NoOthers }
    ensures { IfOk result (λ v. AreFrameAnswers S.plain (part_of part.now) frame.now values.now v.items) }
{
    let ranges = all_bounds(alloc, part, frame)?;
    let references = references(alloc, values)?;
    over_ranges(alloc, &ranges, &references, empty)
}

/// A reference to each value.
fn references<'a>(alloc: Global, values: &'a [Value]) -> Result<Vec<&'a Value>, OutOfMemory>
    ensures { IfOk result (λ v. seen v.items ≡ values.now) }
{
    let mut references = Vec::with_capacity(alloc, values.len())?;
    for value in values {
        references.push(value)?;
    }
    Ok(references)
}

/// For each range of a list whose ends rise the function's answer over the values there. Each value is pushed at most once, and popped
/// at most once.
pub fn over_ranges<'a, S: Slide<'a>>(
    alloc: Global,
    ranges: &[IndexRange],
    values: &[&'a Value],
    empty: S,
) -> Result<Vec<Answer<'a>>, OutOfMemory>
    requires empty { S.values empty ≡ [] }
    requires rising { AreRising (length values.now) ranges.now }
    ensures { IfOk result (λ v. AreAnswers S.plain (λ p. picked (seen values.now) (places_in (range_at ranges.now p))) (length ranges.now) v.items) }
{
    let mut slide = empty;
    slid(alloc, &mut slide, ranges, values)
}

/// For each place the function's answer over the values in its ranges, list by list. Takes time linear in the number of places.
pub fn over_lists<'a, S: Join<'a>>(
    alloc: Global,
    lists: &[Vec<IndexRange>],
    values: &[&'a Value],
    empty: S,
) -> Result<Vec<Answer<'a>>, OutOfMemory>
    requires empty { S.values empty ≡ [] }
    requires lists { AreLists (length values.now) (lists_of lists.now) }
    ensures { IfOk result (λ v. AreAnswers S.plain (λ p. picked (seen values.now) (places_along (lists_of lists.now) p)) (length values.now) v.items) }
{
    let mut slide = empty;
    let mut answers = slid(alloc, &mut slide, &lists[0], values)?;
    for number in 1..lists.len() {
        let more = slid(alloc, &mut slide, &lists[number], values)?;
        join_all::<S>(&mut answers, &more);
    }
    Ok(answers)
}

/// Replaces each answer over a list of values by the answer over that list and another one after it.
fn join_all<'a, S: Join<'a>>(answers: &mut [Answer<'a>], more: &[Answer<'a>])
    requires { length more.now ≡ length answers.old }
    ensures long { length answers.new ≡ length answers.old }
    ensures joined { (n : ℕ) (f g : ℕ → Values) → AreAnswers S.plain f n answers.old → AreAnswers S.plain g n more.now → ((p : ℕ) → p < n → length (f p) + length (g p) < 2 ^ 64) → AreAnswers S.plain (λ p. f p ++ g p) n answers.new }
{
    for place in 0..answers.len() {
        answers[place] = S::join(answers[place], more[place]);
    }
}

/// For each range of a list the function's answer over the values there, by a slide that is empty before and afterwards.
fn slid<'a, S: Slide<'a>>(
    alloc: Global,
    slide: &mut S,
    ranges: &[IndexRange],
    values: &[&'a Value],
) -> Result<Vec<Answer<'a>>, OutOfMemory>
    requires empty { S.values slide.old ≡ [] }
    requires rising { AreRising (length values.now) ranges.now }
    ensures answers { IfOk result (λ v. AreAnswers S.plain (λ p. picked (seen values.now) (places_in (range_at ranges.now p))) (length ranges.now) v.items) }
    ensures empty { OnOk result (S.values slide.new ≡ []) }
{
    let mut answers = Vec::with_capacity(alloc, ranges.len())?;
    let mut first = 0;
    let mut next = 0;
    for range in ranges {
        let until = range.start.min(range.end);
        fill(slide, values, first, next, range.end)?;
        drain(slide, until - first);
        answers.push(slide.answer())?;
        first = until;
        next = range.end;
    }
    drain(slide, next - first);
    Ok(answers)
}

/// Pushes the values from `next` up to `end` after those from `first` up to `next`.
fn fill<'a, S: Slide<'a>>(
    slide: &mut S,
    values: &[&'a Value],
    first: usize,
    next: usize,
    end: usize,
) -> Result<(), OutOfMemory>
    requires held { S.values slide.old ≡ values_in (seen values.now) first next }
    requires begun { first ≤ next }
    requires open { next ≤ end }
    requires within { end ≤ length values.now }
    ensures { OnOk result (S.values slide.new ≡ values_in (seen values.now) first end) }
{
    for place in next..end {
        slide.push_back(values[place])?;
    }
    Ok(())
}

/// Pops `count` values.
fn drain<'a, S: Slide<'a>>(slide: &mut S, count: usize)
    requires { count ≤ length (S.values slide.old) }
    ensures { S.values slide.new ≡ drop count (S.values slide.old) }
{
    for popped in 0..count {
        slide.pop_front();
    }
}
