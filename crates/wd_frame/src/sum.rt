ghost use Rattle.std.specs.Prelude.{◌≡◌, ◌≤◌, ◌<◌, ◌+◌, ◌^◌, ℕ, []};
ghost use Rattle.wd_frame.specs.Kept.{IsHeld, number_of, one_if};
ghost use Rattle.wd_frame.specs.Slides as slides;
ghost use Rattle.wd_frame.specs.Slides.{IsSmall, added, shown, sum_over};

use crate::answer::Answer;
use crate::slide::{Join, Slide};
use std::alloc::Global;
use std::collections::VecDeque;
use std::marker::Model;
use wd_value::{OutOfMemory, Value};

/// The exact total of the whole numbers, and nothing where there is none: 128 bits are enough for each list that fits in memory.
#[derive(Drop)]
pub struct Sum<'a> {
    values: VecDeque<&'a Value>,
    count: usize,
    so_far: i128,
}

impl<'a> Model for Sum<'a> {
    ghost use Rattle.wd_frame.specs.Kept.{IsSumOf};
    ghost use Rattle.wd_frame.specs.Slides.{Values, seen};

    ghost Value = { Values };

    ghost view = { λ s. seen s.values.items };

    ghost invariant = { λ s. IsSumOf (seen s.values.items) s.count s.so_far };
}

impl<'a> Sum<'a> {
    pub fn new(alloc: Global) -> Sum<'a>
        ensures { result ≡ [] }
    {
        Sum {
            values: VecDeque::new(alloc),
            count: 0,
            so_far: 0,
        }
    }
}

impl<'a> Slide<'a> for Sum<'a> {
    ghost values = { λ s. s };

    ghost plain = { sum_over };

    fn push_back(&mut self, value: &'a Value) -> Result<(), OutOfMemory> {
        self.values.push_back(value)?;
        self.count += weight(value);
        self.so_far += number_in(value);
        Ok(())
    }

    fn pop_front(&mut self) {
        if let Some(value) = self.values.pop_front() {
            self.count -= weight(value);
            self.so_far -= number_in(value);
        }
    }

    fn answer(&self) -> Answer<'a> {
        if self.count == 0 {
            Answer::Nothing
        } else {
            Answer::Number(self.so_far)
        }
    }
}

impl<'a> Join<'a> for Sum<'a> {
    fn none() -> Answer<'a> {
        Answer::Nothing
    }

    fn one(value: &'a Value) -> Answer<'a> {
        match value {
            Value::Int(number) => Answer::Number(*number as i128),
            _ => Answer::Nothing,
        }
    }

    fn join(first: Answer<'a>, second: Answer<'a>) -> Answer<'a> {
        add(first, second)
    }
}

/// 1 for a whole number.
fn weight(value: &Value) -> usize
    ensures value { result ≡ one_if (slides.is_number value.now) }
    ensures most { result ≤ 1 }
{
    match value {
        Value::Int(_) => 1,
        _ => 0,
    }
}

/// The whole number; 0 where the value is none.
fn number_in(value: &Value) -> i128
    ensures value { result ≡ number_of value.now }
    ensures held { IsHeld value.now }
{
    match value {
        Value::Int(n) => *n as i128,
        _ => 0,
    }
}

/// The sum of two counts or totals.
pub(crate) fn add<'a>(first: Answer<'a>, second: Answer<'a>) -> Answer<'a>
    ensures exact { (m n : ℕ) → IsSmall m (shown first.entry) → IsSmall n (shown second.entry) → m + n < 2 ^ 64 → shown result ≡ added (shown first.entry) (shown second.entry) }
    ensures small { (m n : ℕ) → IsSmall m (shown first.entry) → IsSmall n (shown second.entry) → m + n < 2 ^ 64 → IsSmall (m + n) (shown result) }
{
    match (first, second) {
        (Answer::Number(one), Answer::Number(other)) => Answer::Number(one.saturating_add(other)),
        (Answer::Nothing, _) => second,
        _ => first,
    }
}
