//! Conditions that are nothing but equalities of a left and a right column.

ghost use Rattle.std.specs.Prelude.{◌≡◌, true, false, IfNone, IfOk, IfSome};
ghost use Rattle.wd_plan.specs.Expressions.{expression_of};
ghost use Rattle.wd_join.specs.Matching as spec;
ghost use Rattle.wd_join.specs.Paired.{AreExact, HasExact, IsOfEqualities, are_equalities};

use crate::matching::{JoinColumns, Widths, are_wide, compared_columns, first_widths};
use std::alloc::Global;
use wd_columns::RowSource;
use wd_plan::{ComparisonOp, Expr};
use wd_value::OutOfMemory;

/// The columns whose equalities a condition consists of, joined by AND: it has no fault, and is true for exactly the pairs that agree
/// on them. `None` exactly where it does not consist of such equalities, or where rows of a side differ in width.
pub(crate) fn exact_columns(
    alloc: Global,
    condition: &Expr,
    left: &RowSource,
    right: &RowSource,
) -> Result<Option<Vec<JoinColumns>>, OutOfMemory>
    ensures exact { IfOk result (λ o. IfSome o (λ v. AreExact (expression_of condition.now) v.items left.now right.now)) }
    ensures none { IfOk result (λ o. IfNone o (IsOfEqualities (expression_of condition.now) left.now right.now → ⊥)) }
{
    let widths = first_widths(left, right);
    if !are_wide(left, widths.left) {
        return Ok(None);
    }
    if !are_wide(right, widths.right) {
        return Ok(None);
    }
    let mut columns = Vec::new(alloc);
    if push_exact(condition, widths, &mut columns)? {
        Ok(Some(columns))
    } else {
        Ok(None)
    }
}

/// Appends the columns of each equality that the condition consists of. Returns false where it does not consist of such equalities.
fn push_exact(
    condition: &Expr,
    widths: Widths,
    columns: &mut Vec<JoinColumns>,
) -> Result<bool, OutOfMemory>
    ensures exact { IfOk result (λ b. b ≡ true → HasExact widths.left widths.right (expression_of condition.now) columns.old.items columns.new.items) }
    ensures none { IfOk result (λ b. b ≡ false → are_equalities widths.left widths.right (expression_of condition.now) ≡ false) }
{
    match condition {
        Expr::Compare(ComparisonOp::Equal, a, b) => push_equality(a, b, widths, columns),
        Expr::And(a, b) => {
            if !push_exact(a, widths, columns)? {
                return Ok(false);
            }
            push_exact(b, widths, columns)
        }
        _ => Ok(false),
    }
}

fn push_equality(
    a: &Expr,
    b: &Expr,
    widths: Widths,
    columns: &mut Vec<JoinColumns>,
) -> Result<bool, OutOfMemory>
    ensures exact { IfOk result (λ b'. b' ≡ true → HasExact widths.left widths.right (spec.equality (expression_of a.now) (expression_of b.now)) columns.old.items columns.new.items) }
    ensures none { IfOk result (λ b'. b' ≡ false → are_equalities widths.left widths.right (spec.equality (expression_of a.now) (expression_of b.now)) ≡ false) }
{
    match compared_columns(a, b, widths) {
        Some(found) => {
            columns.push(found)?;
            Ok(true)
        }
        None => Ok(false),
    }
}
