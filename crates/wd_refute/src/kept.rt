//! What is kept of the first of two outcomes, in less memory than its rows take.

ghost use Rattle.std.specs.Prelude.{◌≡◌, ◌↔◌, IfOk, IfSome, IsTrue, List, Ok};
ghost use Rattle.wd_plan.specs.Outcomes.{Agree, RowsOrFault};
ghost use Rattle.wd_refute.specs.Kept.{IsKept};
ghost use Rattle.wd_refute.specs.Numbers.{AreSortedNumbers};
ghost use Rattle.wd_value.specs.Bags.{SameBag};
ghost use Rattle.wd_value.specs.Rows.{Row, same_row};

use crate::numbers::sorted_numbers;
use crate::outcome::SortedOutcome;
use crate::places::{Places, places_of};
use std::alloc::Global;
use wd_columns::RowSource;
use wd_eval::Answer;
use wd_sort::Seeded;
use wd_value::OutOfMemory;

/// Rows as their sorted numbers, and the places of the values that the numbers are made of.
#[derive(Drop)]
pub(crate) struct NumberedRows {
    pub places: Vec<Places>,
    pub numbers: Vec<u128>,
}

/// An outcome to compare another one with: the numbers of its rows, or the outcome itself where it is a fault or has rows without a
/// number.
#[derive(Drop)]
pub(crate) enum Kept {
    Numbered(NumberedRows),
    Sorted(SortedOutcome),
}

impl Kept {
    /// What is kept of an answer, which is dropped where its rows have numbers.
    pub fn new(alloc: Global, answer: Answer, seeded: Seeded) -> Result<Kept, OutOfMemory>
        ensures { IfOk result (λ k. IsKept answer k) }
    {
        match numbered_answer(alloc, &answer, seeded)? {
            Some(numbered) => Ok(Kept::Numbered(numbered)),
            None => sorted_answer(alloc, answer),
        }
    }

    /// Whether the outcome agrees with an answer: the same fault, or rows with each row equally often.
    pub fn agrees(&self, alloc: Global, answer: Answer) -> Result<bool, OutOfMemory>
        ensures { IfOk result (λ b. (outcome : RowsOrFault) → IsKept outcome self.now → (IsTrue b ↔ Agree outcome answer)) }
    {
        match self {
            Kept::Numbered(first) => first.agree(alloc, &answer),
            Kept::Sorted(first) => sorted_agrees(alloc, first, answer),
        }
    }
}

impl NumberedRows {
    /// Whether an answer has the same rows, each equally often.
    fn agree(&self, alloc: Global, answer: &Answer) -> Result<bool, OutOfMemory>
        ensures { IfOk result (λ b. (rows : List Row) → AreSortedNumbers self.now.places.items rows self.now.numbers.items → (IsTrue b ↔ Agree (Ok rows) answer.now)) }
    {
        match answer.rows() {
            Ok(rows) => self.are_of(alloc, &rows),
            Err(_) => Ok(false),
        }
    }

    /// Whether the kept numbers are those of these rows.
    fn are_of(&self, alloc: Global, rows: &RowSource) -> Result<bool, OutOfMemory>
        ensures { IfOk result (λ b. (others : List Row) → AreSortedNumbers self.now.places.items others self.now.numbers.items → (IsTrue b ↔ SameBag same_row others rows.now)) }
    {
        match sorted_numbers(alloc, &self.places, rows)? {
            Some(numbers) => Ok(numbers.as_slice() == self.numbers.as_slice()),
            None => Ok(false),
        }
    }
}

/// An answer's rows as numbers; `None` where the answer is a fault, or some row has no number.
fn numbered_answer(
    alloc: Global,
    answer: &Answer,
    seeded: Seeded,
) -> Result<Option<NumberedRows>, OutOfMemory>
    ensures { IfOk result (λ o. IfSome o (λ n. IsKept answer.now (Kept.Numbered n))) }
{
    match answer.rows() {
        Ok(rows) => numbered_rows(alloc, &rows, seeded),
        Err(_) => Ok(None),
    }
}

fn numbered_rows(
    alloc: Global,
    rows: &RowSource,
    seeded: Seeded,
) -> Result<Option<NumberedRows>, OutOfMemory>
    ensures { IfOk result (λ o. IfSome o (λ n. AreSortedNumbers n.places.items rows.now n.numbers.items)) }
{
    let places = places_of(alloc, rows, seeded)?;
    match sorted_numbers(alloc, &places, rows)? {
        Some(numbers) => Ok(Some(NumberedRows { places, numbers })),
        None => Ok(None),
    }
}

fn sorted_answer(alloc: Global, answer: Answer) -> Result<Kept, OutOfMemory>
    ensures { IfOk result (λ k. IsKept answer k) }
{
    let sorted = SortedOutcome::new(alloc, answer)?;
    Ok(Kept::Sorted(sorted))
}

/// Whether an outcome agrees with an answer, by sorting the rows of both.
fn sorted_agrees(alloc: Global, first: &SortedOutcome, answer: Answer) -> Result<bool, OutOfMemory>
    ensures { IfOk result (λ b. IsTrue b ↔ Agree first.now answer) }
{
    let second = SortedOutcome::new(alloc, answer)?;
    Ok(first.agrees(&second))
}
