//! Slides over the frames of many places.

use std::alloc::Global;
use std::cell::Cell;
use wd_cases::Failure;
use wd_cases_notation::{Line, State};
use wd_frame::{Answer, Count, Part, Slide, over_frames};
use wd_plan::{Exclusion, Frame};
use wd_value::{OutOfMemory, Value};

/// A count that counts its pushes and pops too.
#[derive(Drop)]
struct Counting<'a, 'c> {
    inner: Count<'a>,
    pushes: &'c Cell<u64>,
    pops: &'c Cell<u64>,
}

impl<'a, 'c> Slide<'a> for Counting<'a, 'c> {
    ghost use Rattle.wd_frame.specs.Slides.{count_over};

    ghost values = { λ s. s.inner };

    ghost plain = { count_over };

    fn push_back(&mut self, value: &'a Value) -> Result<(), OutOfMemory> {
        self.pushes.set(self.pushes.get().wrapping_add(1));
        self.inner.push_back(value)
    }

    fn pop_front(&mut self) {
        self.pops.set(self.pops.get().wrapping_add(1));
        self.inner.pop_front();
    }

    fn answer(&self) -> Answer<'a> {
        self.inner.answer()
    }
}

/// `slides(COUNT) FRAME`: whether a slide over so many places is pushed and popped at most once for
/// each, and how many answers it gives.
pub fn answer(alloc: Global, state: &State, line: Line, out: &mut String) -> Result<(), Failure> {
    let number = line.word.number(0).ok_or(Failure::NoCase)?;
    let count = u32::try_from(number).ok().ok_or(Failure::NoCase)?;
    let mut groups = Vec::new(alloc);
    let mut values = Vec::new(alloc);
    for place in 0..count {
        groups.push(place)?;
        values.push(Value::Int(i64::from(place)))?;
    }
    let part = Part {
        groups: &groups,
        keys: &[],
        desc: false,
    };
    let (pushes, pops) = (Cell::new(0), Cell::new(0));
    let answers = count_answers(alloc, &part, &state.stacks.frame, &values, &pushes, &pops)?;
    let most = u64::from(count);
    let few = pushes.get() <= most && pops.get() <= most;
    Ok(write!(out, "{answers} {few}")?)
}

/// How many answers there are.
fn count_answers<'a>(
    alloc: Global,
    part: &Part,
    frame: &Frame,
    values: &'a [Value],
    pushes: &Cell<u64>,
    pops: &Cell<u64>,
) -> Result<usize, OutOfMemory> {
    if values.len() != part.groups.len() || !matches!(frame.exclusion, Exclusion::NoOthers) {
        return Ok(0);
    }
    let inner: Count<'a> = Count::new(alloc);
    let counting = Counting {
        inner,
        pushes,
        pops,
    };
    let answers = over_frames(alloc, part, frame, values, counting)?;
    Ok(answers.len())
}
