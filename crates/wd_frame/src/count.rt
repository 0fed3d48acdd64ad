ghost use Rattle.std.specs.Prelude.{◌≡◌, ◌≤◌, [], not};
ghost use Rattle.wd_frame.specs.Kept.{one_if};
ghost use Rattle.wd_frame.specs.Slides.{count_over};
ghost use Rattle.wd_plan.specs.Expressions.{is_null};

use crate::answer::Answer;
use crate::slide::{Join, Slide};
use crate::sum::add;
use std::alloc::Global;
use std::collections::VecDeque;
use std::marker::Model;
use wd_value::{OutOfMemory, Value};

/// How many values are not NULL.
#[derive(Drop)]
pub struct Count<'a> {
    values: VecDeque<&'a Value>,
    not_null: usize,
}

impl<'a> Model for Count<'a> {
    ghost use Rattle.std.specs.Prelude.{◌≡◌};
    ghost use Rattle.wd_frame.specs.Slides.{Values, present, seen};

    ghost Value = { Values };

    ghost view = { λ c. seen c.values.items };

    ghost invariant = { λ c. c.not_null ≡ present (seen c.values.items) };
}

impl<'a> Count<'a> {
    pub fn new(alloc: Global) -> Count<'a>
        ensures { result ≡ [] }
    {
        Count {
            values: VecDeque::new(alloc),
            not_null: 0,
        }
    }
}

impl<'a> Slide<'a> for Count<'a> {
    ghost values = { λ s. s };

    ghost plain = { count_over };

    fn push_back(&mut self, value: &'a Value) -> Result<(), OutOfMemory> {
        self.values.push_back(value)?;
        self.not_null += weight(value);
        Ok(())
    }

    fn pop_front(&mut self) {
        if let Some(value) = self.values.pop_front() {
            self.not_null -= weight(value);
        }
    }

    fn answer(&self) -> Answer<'a> {
        Answer::Number(self.not_null as i128)
    }
}

impl<'a> Join<'a> for Count<'a> {
    fn none() -> Answer<'a> {
        Answer::Number(0)
    }

    fn one(value: &'a Value) -> Answer<'a> {
        Answer::Number(weight(value) as i128)
    }

    fn join(first: Answer<'a>, second: Answer<'a>) -> Answer<'a> {
        add(first, second)
    }
}

/// 1 for a value that is not NULL.
fn weight(value: &Value) -> usize
    ensures value { result ≡ one_if (not (is_null value.now)) }
    ensures most { result ≤ 1 }
{
    match value {
        Value::Null => 0,
        _ => 1,
    }
}
