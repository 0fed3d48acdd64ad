//! Pairs of rows for which a condition further up can be true.

ghost use Rattle.std.specs.Prelude.{IfOk};
ghost use Rattle.wd_plan.specs.Expressions.{expression_of};
ghost use Rattle.wd_plan.specs.Outcomes.{pairs};
ghost use Rattle.wd_join.specs.Joins.{AreEnough};
ghost use Rattle.wd_joined.specs.Pairs.{rows_paired};

use crate::matching::matching_columns;
use crate::paired::{agreeing_pairs, all_pairs};
use std::alloc::Global;
use wd_columns::{Pair, RowSource};
use wd_plan::Expr;
use wd_value::OutOfMemory;

/// Pairs of a left and a right row, the left one outermost, over which a condition gives the same outcome as over all pairs, whatever
/// rows the pairs are joined with next: where it has equalities of a left and a right column among its conjuncts, the pairs that agree
/// on these.
pub fn narrow_pairs(
    alloc: Global,
    condition: &Expr,
    left: &RowSource,
    right: &RowSource,
) -> Result<Vec<Pair>, OutOfMemory>
    ensures { IfOk result (λ v. AreEnough (expression_of condition.now) (pairs left.now right.now) (rows_paired left.now right.now v.items)) }
{
    let columns = matching_columns(alloc, condition, left, right)?;
    if columns.is_empty() {
        return all_pairs(alloc, left, right);
    }
    match agreeing_pairs(alloc, &columns, left, right, u64::MAX) {
        Ok(pairs) => Ok(pairs),
        Err(_) => Err(OutOfMemory),
    }
}
