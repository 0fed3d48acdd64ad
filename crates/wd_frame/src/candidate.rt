//! The values of a list that come first once those before them are gone.

ghost use Rattle.std.specs.Prelude.{◌≡◌, ℕ, ◌<◌, ◌∷◌, ◌++◌, [], drop, false, OnErr, OnOk};
ghost use Rattle.std.specs.VecDeque.{deque_capacity, deque_len};
ghost use Rattle.wd_frame.specs.Kept.{AreCandidates, popped, pushed, trimmed};
ghost use Rattle.wd_frame.specs.Slides.{IsSmall, first_of_two, first_over, seen, shown};
ghost use Rattle.wd_value.specs.declared.order.SortKey as key;

use crate::answer::Answer;
use std::alloc::Global;
use std::collections::VecDeque;
use wd_value::{OutOfMemory, SortKey, Value, compare};

/// A list of values, and those of them that come first under a key once the values before them are gone. Each value comes once and goes
/// once, so that all pushes and pops together take time linear in the number of values.
#[derive(Drop)]
pub(crate) struct Candidates<'a> {
    pub values: VecDeque<&'a Value>,
    pub first: VecDeque<&'a Value>,
}

impl<'a> Candidates<'a> {
    pub(crate) fn new(alloc: Global) -> Candidates<'a>
        ensures none { seen result.values.items ≡ [] }
        ensures kept { (k : key.SortKey) → AreCandidates k result }
    {
        Candidates {
            values: VecDeque::new(alloc),
            first: VecDeque::new(alloc),
        }
    }

    /// Adds a value at the back. After an error the list is as before.
    pub(crate) fn push(&mut self, value: &'a Value, key: SortKey) -> Result<(), OutOfMemory>
        requires nulls_last { key.nulls_first ≡ false }
        requires were { AreCandidates key self.old }
        ensures are { AreCandidates key self.new }
        ensures pushed { OnOk result (seen self.new.values.items ≡ seen self.old.values.items ++ value.now ∷ []) }
        ensures kept { OnErr result (seen self.new.values.items ≡ seen self.old.values.items) }
    {
        self.first.reserve(1)?;
        self.values.push_back(value)?;
        push_candidate(&mut self.first, value, key);
        Ok(())
    }

    pub(crate) fn pop(&mut self, key: SortKey)
        requires { AreCandidates key self.old }
        ensures are { AreCandidates key self.new }
        ensures popped { seen self.new.values.items ≡ drop 1 (seen self.old.values.items) }
    {
        if let Some(value) = self.values.pop_front() {
            pop_candidate(&mut self.first, value, key);
        }
    }

    /// The value that comes first of all.
    pub(crate) fn answer(&self) -> Answer<'a>
        ensures first { (k : key.SortKey) → k.nulls_first ≡ false → AreCandidates k self.now → shown result ≡ first_over k (seen self.now.values.items) }
        ensures small { (n : ℕ) → IsSmall n (shown result) }
    {
        match self.first.front() {
            Some(value) => Answer::Of(*value),
            None => Answer::Nothing,
        }
    }
}

/// The candidates with a value that comes at the back of the list. There is room for one more.
fn push_candidate<'a>(candidates: &mut VecDeque<&'a Value>, value: &'a Value, key: SortKey)
    requires room { deque_len candidates.old < deque_capacity candidates.old }
    ensures { seen candidates.new.items ≡ pushed key (seen candidates.old.items) value.now }
{
    match value {
        Value::Null => {}
        _ => {
            trim(candidates, value, key);
            candidates.push_back_reserved(value);
        }
    }
}

/// The candidates without those at the back that come after a value.
fn trim(candidates: &mut VecDeque<&Value>, value: &Value, key: SortKey)
    ensures trimmed { seen candidates.new.items ≡ trimmed key (seen candidates.old.items) value.now }
    ensures room { deque_len candidates.old < deque_capacity candidates.old → deque_len candidates.new < deque_capacity candidates.new }
{
    while let Some(last) = candidates.back() {
        if !compare(last, value, key).is_gt() {
            break;
        }
        let _ = candidates.pop_back();
    }
}

/// The candidates without a value that goes at the front of the list.
fn pop_candidate(candidates: &mut VecDeque<&Value>, value: &Value, key: SortKey)
    ensures { seen candidates.new.items ≡ popped key (seen candidates.old.items) value.now }
{
    if let Some(first) = candidates.front() {
        if !compare(value, first, key).is_gt() {
            let _ = candidates.pop_front();
        }
    }
}

/// The value of two answers that comes first.
pub(crate) fn first_of<'a>(first: Answer<'a>, second: Answer<'a>, key: SortKey) -> Answer<'a>
    ensures { shown result ≡ first_of_two key (shown first.entry) (shown second.entry) }
{
    match (first, second) {
        (Answer::Of(one), Answer::Of(other)) if compare(one, other, key).is_gt() => second,
        (Answer::Nothing, _) => second,
        _ => first,
    }
}
