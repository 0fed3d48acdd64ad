//! Where a walk over a plan's nodes takes their orderings from.

ghost use Rattle.std.specs.Prelude.{◌≡◌, ◌↔◌, ◌<◌, ◌≤◌, ◌^◌, ℕ, List, Option, true, length, IsTrue, MatchOption, OnOk};
ghost use Rattle.wd_eval.specs.ClassIndexes.{AreEmptyOrUnserved, IsEmptyAt};
ghost use Rattle.wd_eval.specs.Ties.{IsPutEmpty};
ghost use Rattle.wd_eval.specs.Walks.{AreNextEmptyOrUnserved, AreNextIndexesOrUnserved, HasMade, IsAt, IsWithin, most_of};
ghost use Rattle.wd_eval.specs.Windows.{orderings_of};
ghost use Rattle.wd_eval.specs.declared.turned.Turned.{Turned};
ghost use Rattle.wd_plan.specs.Plans.{window_of};

use crate::class_index::{ClassIndex, indexes, sorted_indexes};
use crate::error::EvalError;
use crate::turned::Turned;
use std::alloc::Global;
use wd_columns::RowSource;
use wd_plan::Window;
use wd_value::OutOfMemory;

/// The most rows that a step may have, where nothing less is asked for.
pub(crate) const MOST_ROWS: usize = 10_000_000;

/// The orderings of a plan's nodes, in postorder, as a walk takes them one after another.
#[derive(Drop)]
pub(crate) enum Orderings<'a> {
    /// Those of a choice, each of which has to be lawful, the number of the next one, and the most rows that a step may have.
    Chosen {
        choice: &'a [Vec<u64>],
        next: usize,
        most: u64,
    },
    /// The sorted ones, of which one may take rows that tie in another turn. They are appended to those made before.
    Sorted {
        turned: Option<Turned>,
        made: Vec<Vec<u64>>,
    },
    /// The sorted ones, of which none is kept.
    Stable,
}

impl Orderings<'_> {
    /// The most rows that a step may have under them.
    pub fn most(&self) -> u64
        ensures { result ≡ most_of self.now }
    {
        match self {
            Orderings::Chosen { most, .. } => *most,
            Orderings::Sorted { .. } | Orderings::Stable => MOST_ROWS as u64,
        }
    }

    /// The number of the next ordering of a choice, where one is left.
    pub fn left_over(&self) -> Option<u64>
        ensures { (most : ℕ) (choice : List (List ℕ)) (first : ℕ) → IsAt self.now most choice first → MatchOption result (length choice ≤ first) (λ number. (number ≡ first) × (first < length choice)) }
    {
        match self {
            Orderings::Chosen { choice, next, .. } if *next < choice.len() => Some(*next as u64),
            _ => None,
        }
    }

    /// The sorted orderings that were made, where they are kept, in the order in which they were.
    pub fn into_made(self, alloc: Global) -> Vec<Vec<u64>>
        ensures { (turned : Option Turned) (made : List (List ℕ)) → HasMade self.entry true turned made → orderings_of result.items ≡ made }
    {
        match self {
            Orderings::Sorted { made, .. } => made,
            _ => Vec::new(alloc),
        }
    }

    /// The partitions of each class of a Window under its next orderings. Of a choice the first of these that is missing or not
    /// lawful is refused by its number.
    pub fn next_indexes(
        &mut self,
        alloc: Global,
        window: &Window,
        rows: &RowSource,
    ) -> Result<Vec<ClassIndex>, EvalError>
        requires short { length rows.now < 2 ^ 32 }
        requires within { IsWithin self.old }
        ensures { AreNextIndexesOrUnserved (window_of window.now) rows.now self.old self.new result }
    {
        match self {
            Orderings::Chosen { choice, next, .. } => {
                let indexes = indexes(alloc, window, rows, choice, *next)?;
                *next += window.classes.len();
                Ok(indexes)
            }
            Orderings::Sorted { turned, made } => {
                let indexes = sorted_indexes(alloc, window, rows, *turned, made)?;
                Ok(indexes)
            }
            Orderings::Stable => {
                let indexes = sorted_indexes(alloc, window, rows, None, &mut Vec::new(alloc))?;
                Ok(indexes)
            }
        }
    }

    /// Takes so many next orderings over a fault, each of which has to be empty. Of a choice the first that is missing or not empty
    /// is refused by its number.
    pub fn next_empty(&mut self, alloc: Global, count: usize) -> Result<(), EvalError>
        requires { IsWithin self.old }
        ensures { AreNextEmptyOrUnserved count self.old self.new result }
    {
        match self {
            Orderings::Chosen { choice, next, .. } => {
                all_empty(count, choice, *next)?;
                *next += count;
                Ok(())
            }
            Orderings::Sorted { made, .. } => {
                put_empty(alloc, count, made)?;
                Ok(())
            }
            Orderings::Stable => Ok(()),
        }
    }
}

/// Refuses the first of so many orderings from `first` on that is not there or not empty, by its
/// number.
fn all_empty(count: usize, choice: &[Vec<u64>], first: usize) -> Result<(), EvalError>
    requires { first ≤ length choice.now }
    ensures { AreEmptyOrUnserved count (orderings_of choice.now) first result }
{
    for number in 0..count {
        if !is_empty_at(choice, first + number) {
            return Err(EvalError::NotValid((first + number) as u64));
        }
    }
    Ok(())
}

/// Whether the choice's ordering with this number is there and empty.
fn is_empty_at(choice: &[Vec<u64>], number: usize) -> bool
    ensures { IsTrue result ↔ IsEmptyAt (orderings_of choice.now) number }
{
    match choice.get(number) {
        Some(ordering) => ordering.is_empty(),
        None => false,
    }
}

/// Appends so many empty orderings to those made before.
fn put_empty(alloc: Global, count: usize, made: &mut Vec<Vec<u64>>) -> Result<(), OutOfMemory>
    ensures { OnOk result (IsPutEmpty count (orderings_of made.old.items) (orderings_of made.new.items)) }
{
    for _ in 0..count {
        made.push(Vec::new(alloc))?;
    }
    Ok(())
}
