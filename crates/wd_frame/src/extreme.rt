//! The least and the greatest value of a list, by one type over the direction of the order.

ghost use Rattle.std.specs.Prelude.{◌≡◌, [], false, refl};
ghost use Rattle.wd_frame.specs.Slides.{ascending, descending, first_over};
ghost use Rattle.wd_value.specs.declared.order.SortKey as key;

use crate::answer::Answer;
use crate::candidate::{Candidates, first_of};
use crate::slide::{Join, Slide};
use std::alloc::Global;
use std::marker::Model;
use wd_value::{OutOfMemory, SortKey, Value};

/// A direction in which values are ordered, NULL after all others.
pub trait Direction: Drop {
    ghost order: { key.SortKey };

    fn key() -> SortKey
        ensures { result ≡ order };

    ghost nulls_last: { order.nulls_first ≡ false };
}

/// The least value comes first.
#[derive(Drop)]
pub struct Ascending;

/// The greatest value comes first.
#[derive(Drop)]
pub struct Descending;

impl Direction for Ascending {
    ghost order = { ascending };

    fn key() -> SortKey {
        SortKey {
            desc: false,
            nulls_first: false,
        }
    }

    ghost nulls_last = { refl };
}

impl Direction for Descending {
    ghost order = { descending };

    fn key() -> SortKey {
        SortKey {
            desc: true,
            nulls_first: false,
        }
    }

    ghost nulls_last = { refl };
}

/// The value that comes first in a direction and is not NULL.
#[derive(Drop)]
pub struct Extreme<'a, D: Direction> {
    kept: Candidates<'a>,
    direction: D,
}

impl<'a, D: Direction> Model for Extreme<'a, D> {
    ghost use Rattle.wd_frame.specs.Kept.{AreCandidates};
    ghost use Rattle.wd_frame.specs.Slides.{Values, seen};

    ghost Value = { Values };

    ghost view = { λ s. seen s.kept.values.items };

    ghost invariant = { λ s. AreCandidates D.order s.kept };
}

impl<'a, D: Direction> Extreme<'a, D> {
    pub fn new(alloc: Global, direction: D) -> Extreme<'a, D>
        ensures { result ≡ [] }
    {
        Extreme {
            kept: Candidates::new(alloc),
            direction,
        }
    }
}

impl<'a, D: Direction> Slide<'a> for Extreme<'a, D> {
    ghost values = { λ s. s };

    ghost plain = { first_over D.order };

    fn push_back(&mut self, value: &'a Value) -> Result<(), OutOfMemory> {
        self.kept.push(value, D::key())
    }

    fn pop_front(&mut self) {
        self.kept.pop(D::key());
    }

    fn answer(&self) -> Answer<'a> {
        self.kept.answer()
    }
}

impl<'a, D: Direction> Join<'a> for Extreme<'a, D> {
    fn none() -> Answer<'a> {
        Answer::Nothing
    }

    fn one(value: &'a Value) -> Answer<'a> {
        match value {
            Value::Null => Answer::Nothing,
            _ => Answer::Of(value),
        }
    }

    fn join(first: Answer<'a>, second: Answer<'a>) -> Answer<'a> {
        first_of(first, second, D::key())
    }
}
