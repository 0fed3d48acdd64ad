//! Outcomes prepared for comparison.

ghost use Rattle.std.specs.Prelude.{◌≡◌, ◌↔◌, IfOk, IsTrue};
ghost use Rattle.wd_refute.specs.Ready.{IsReady};
ghost use Rattle.wd_plan.specs.Outcomes.{Agree};

use crate::rows::{row_order, show_the_same};
use std::alloc::Global;
use std::marker::Model;
use wd_eval::Answer;
use wd_value::OutOfMemory;

/// An outcome prepared for comparison: the positions of its rows are sorted by the rows. Contracts see the outcome.
#[derive(Drop)]
pub struct SortedOutcome {
    answer: Answer,
    /// Empty where the outcome is a fault.
    order: Vec<u64>,
}

impl Model for SortedOutcome {
    ghost use Rattle.wd_plan.specs.Outcomes.{RowsOrFault};
    ghost use Rattle.wd_refute.specs.Ready.{IsReady};

    ghost Value = { RowsOrFault };

    ghost view = { λ s. s.answer };

    ghost invariant = { λ s. IsReady s.answer s.order.items };
}

impl SortedOutcome {
    /// Prepares an answer, whose rows stay as they are kept. Takes n log n comparisons of rows.
    ///
    /// # Errors
    /// Where memory runs out; the answer is then dropped.
    pub fn new(alloc: Global, answer: Answer) -> Result<SortedOutcome, OutOfMemory>
        ensures { IfOk result (λ s. s ≡ answer) }
    {
        let order = order_of(alloc, &answer)?;
        Ok(SortedOutcome { answer, order })
    }

    /// Whether two outcomes agree: the same fault, or rows with each row equally often. Takes no
    /// memory; the time is linear in the number of rows.
    pub fn agrees(&self, other: &SortedOutcome) -> bool
        ensures { IsTrue result ↔ Agree self.now other.now }
    {
        match (self.answer.rows(), other.answer.rows()) {
            (Ok(rows), Ok(others)) => show_the_same(&rows, &self.order, &others, &other.order),
            (Err(fault), Err(found)) => fault == found,
            _ => false,
        }
    }
}

/// The positions of an answer's rows, sorted by the rows; empty for a fault.
fn order_of(alloc: Global, answer: &Answer) -> Result<Vec<u64>, OutOfMemory>
    ensures { IfOk result (λ v. IsReady answer.now v.items) }
{
    match answer.rows() {
        Ok(rows) => row_order(alloc, &rows),
        Err(_) => Ok(Vec::new(alloc)),
    }
}
