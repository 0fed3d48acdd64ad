//! Pairs of rows for which a condition is true.

ghost use Rattle.std.specs.Prelude.{◌≡◌, [], None, IfOk, List, OnOk, Err, true, false};
ghost use Rattle.wd_plan.specs.Expressions as value;
ghost use Rattle.wd_plan.specs.Expressions.{expression_of};
ghost use Rattle.wd_plan.specs.Outcomes as spec;
ghost use Rattle.wd_plan.specs.Outcomes.{filter_outcome};
ghost use Rattle.wd_steps.specs.Faults.{with_result};
ghost use Rattle.wd_join.specs.Joins as joins;
ghost use Rattle.wd_join.specs.Joins.{AreKept, has_more_rows, pairs_or_fault_of};
ghost use Rattle.wd_join.specs.Matching.{AreSkippable};
ghost use Rattle.wd_joined.specs.Pairs.{row_paired, rows_paired};
ghost use Rattle.wd_join.specs.declared.error.StepError.TheVariants as error;
ghost use Rattle.wd_value.specs.Rows.{Row};

use crate::error::StepError;
use crate::matching::{JoinColumns, matching_columns};
use crate::paired::equal_pairs;
use crate::walk::{agreeing_rows, positions_in};
use std::alloc::Global;
use wd_columns::{Pair, RowSource};
use wd_plan::Expr;
use wd_scalar::{has_arithmetic, value_of_pair};
use wd_steps::{passes, with_value};
use wd_value::{Fault, OutOfMemory};

/// Pairs of a join, and the least fault of its condition.
#[derive(Drop)]
struct Kept {
    pairs: Vec<Pair>,
    fault: Option<Fault>,
}

impl Kept {
    /// Nothing has been looked at yet.
    fn nothing(alloc: Global) -> Kept
        ensures pairs { result.pairs.items ≡ [] }
        ensures fault { result.fault ≡ None }
    {
        Kept {
            pairs: Vec::new(alloc),
            fault: None,
        }
    }

    /// Looks at one more pair: it is kept where the condition is true for it and there are not more than `most` pairs yet.
    fn look_at(
        &mut self,
        alloc: Global,
        condition: &Expr,
        left: &RowSource,
        right: &RowSource,
        pair: Pair,
        most: u64,
    ) -> Result<(), OutOfMemory>
        ensures pairs { OnOk result (self.new.pairs.items ≡ joins.with_next most (spec.passes (value.value_of (expression_of condition.now) (row_paired left.now right.now pair))) self.old.pairs.items pair) }
        ensures fault { OnOk result (self.new.fault ≡ with_result self.old.fault (value.value_of (expression_of condition.now) (row_paired left.now right.now pair))) }
    {
        let value = value_of_pair(alloc, condition, left, pair.left, right, pair.right)?;
        self.fault = with_value(self.fault, &value);
        if passes(&value) && self.pairs.len() as u64 <= most {
            self.pairs.push(pair)?;
        }
        Ok(())
    }
}

/// The pairs of a left and a right row, the left one outermost, for which the condition is true, by their positions, or the least
/// fault among all pairs. The error is `TooManyRows` where these are more than `most` pairs.
pub fn join_pairs(
    alloc: Global,
    condition: &Expr,
    left: &RowSource,
    right: &RowSource,
    most: u64,
) -> Result<Result<Vec<Pair>, Fault>, StepError>
    ensures pairs { IfOk result (λ r. pairs_or_fault_of left.now right.now r ≡ filter_outcome (expression_of condition.now) (spec.pairs left.now right.now)) }
    ensures within { IfOk result (λ r. has_more_rows most (pairs_or_fault_of left.now right.now r) ≡ false) }
    ensures too_many { result ≡ Err error.TooManyRows → has_more_rows most (filter_outcome (expression_of condition.now) (spec.pairs left.now right.now)) ≡ true }
{
    match equal_pairs(alloc, condition, left, right, most)? {
        Some(pairs) => Ok(Ok(pairs)),
        None => {
            let kept = kept_pairs(alloc, condition, left, right, most)?;
            pairs_within(kept, most)
        }
    }
}

/// What [`join_pairs`] answers, however many pairs there are: more than 64 bits count have no memory.
pub fn filter_pairs(
    alloc: Global,
    condition: &Expr,
    left: &RowSource,
    right: &RowSource,
) -> Result<Result<Vec<Pair>, Fault>, OutOfMemory>
    ensures { IfOk result (λ r. pairs_or_fault_of left.now right.now r ≡ filter_outcome (expression_of condition.now) (spec.pairs left.now right.now)) }
{
    match join_pairs(alloc, condition, left, right, u64::MAX) {
        Ok(found) => Ok(found),
        Err(_) => Err(OutOfMemory),
    }
}

/// The first pairs for which the condition is true, one more than `most` of them, and the least fault among all pairs. Where only pairs
/// that agree on columns can matter, only these are looked at.
fn kept_pairs(
    alloc: Global,
    condition: &Expr,
    left: &RowSource,
    right: &RowSource,
    most: u64,
) -> Result<Kept, OutOfMemory>
    ensures { IfOk result (λ k. AreKept (expression_of condition.now) most (spec.pairs left.now right.now) (rows_paired left.now right.now k.pairs.items) k.fault) }
{
    let columns = matching_columns(alloc, condition, left, right)?;
    if columns.is_empty() {
        pairs_where(alloc, condition, left, right, most)
    } else {
        matching_where(alloc, condition, &columns, left, right, most)
    }
}

/// The first pairs for which the condition is true, by all pairs. Where no pair can fault, no more of them are looked at than needed.
fn pairs_where(
    alloc: Global,
    condition: &Expr,
    left: &RowSource,
    right: &RowSource,
    most: u64,
) -> Result<Kept, OutOfMemory>
    ensures { IfOk result (λ k. AreKept (expression_of condition.now) most (spec.pairs left.now right.now) (rows_paired left.now right.now k.pairs.items) k.fault) }
{
    let faultless = !has_arithmetic(condition);
    let mut kept = Kept::nothing(alloc);
    for i in 0..left.len() {
        if faultless && kept.pairs.len() as u64 > most {
            return Ok(kept);
        }
        for j in 0..right.len() {
            let pair = Pair {
                left: i as u64,
                right: j as u64,
            };
            kept.look_at(alloc, condition, left, right, pair, most)?;
        }
    }
    Ok(kept)
}

/// The first pairs for which the condition is true, by the pairs that agree on the columns alone. Takes the time of sorting either
/// side, and is linear in the number of such pairs.
fn matching_where(
    alloc: Global,
    condition: &Expr,
    columns: &[JoinColumns],
    left: &RowSource,
    right: &RowSource,
    most: u64,
) -> Result<Kept, OutOfMemory>
    requires { AreSkippable (expression_of condition.now) columns.now left.now right.now }
    ensures { IfOk result (λ k. AreKept (expression_of condition.now) most (spec.pairs left.now right.now) (rows_paired left.now right.now k.pairs.items) k.fault) }
{
    let faultless = !has_arithmetic(condition);
    let agreeing = agreeing_rows(alloc, columns, left, right)?;
    let mut kept = Kept::nothing(alloc);
    for i in 0..left.len() {
        if faultless && kept.pairs.len() as u64 > most {
            return Ok(kept);
        }
        let positions = positions_in(&agreeing.order, agreeing.ranges[i]);
        for position in positions {
            let pair = Pair {
                left: i as u64,
                right: *position,
            };
            kept.look_at(alloc, condition, left, right, pair, most)?;
        }
    }
    Ok(kept)
}

/// The fault where there is one, else the pairs where there are not more than `most`.
fn pairs_within(kept: Kept, most: u64) -> Result<Result<Vec<Pair>, Fault>, StepError>
    ensures { (left right : List Row) → joins.result_of left right result ≡ joins.within most (rows_paired left right kept.pairs.items) kept.fault }
{
    let Kept { pairs, fault } = kept;
    match fault {
        Some(fault) => Ok(Err(fault)),
        None => if pairs.len() as u64 > most {
            Err(StepError::TooManyRows)
        } else {
            Ok(Ok(pairs))
        },
    }
}
