//! The columns on which a pair has to agree for a condition to be true.

ghost use Rattle.std.specs.Prelude.{◌≡◌, true, false, length, All, Contains, IfNone, IfOk, IfSome, OnOk};
ghost use Rattle.wd_plan.specs.Expressions.{Column, expression_of, is_null};
ghost use Rattle.wd_join.specs.Matching as spec;
ghost use Rattle.wd_join.specs.Matching.{AreDeciding, AreSkippable, AreWhole, Equates};
ghost use Rattle.wd_join.specs.Paired as pairs;
ghost use Rattle.wd_value.specs.Rows.{column_of, row_at};

use std::alloc::Global;
use wd_columns::RowSource;
use wd_plan::{ComparisonOp, Expr};
use wd_scalar::has_arithmetic;
use wd_value::{OutOfMemory, Value};

/// A column of the left rows and one of the right rows.
#[derive(Clone, Copy)]
pub struct JoinColumns {
    pub left: u16,
    pub right: u16,
}

/// The numbers of columns of the left and of the right rows.
#[derive(Clone, Copy)]
pub struct Widths {
    pub left: usize,
    pub right: usize,
}

/// Columns such that a pair that doesn't agree on them has no fault in the condition, which isn't true for it, whatever row follows the
/// pair.
pub(crate) fn matching_columns(
    alloc: Global,
    condition: &Expr,
    left: &RowSource,
    right: &RowSource,
) -> Result<Vec<JoinColumns>, OutOfMemory>
    ensures { IfOk result (λ v. AreSkippable (expression_of condition.now) v.items left.now right.now) }
{
    let widths = first_widths(left, right);
    if !are_wide(left, widths.left) || !are_wide(right, widths.right) {
        return Ok(Vec::new(alloc));
    }
    let mut columns = Vec::new(alloc);
    push_deciding(condition, widths, &mut columns)?;
    if has_arithmetic(condition) {
        whole_columns(alloc, &columns, left, right)
    } else {
        Ok(columns)
    }
}

/// The lengths of the first rows; 0 where there is none.
pub(crate) fn first_widths(left: &RowSource, right: &RowSource) -> Widths
    ensures left { result.left ≡ pairs.width_of left.now }
    ensures right { result.right ≡ pairs.width_of right.now }
{
    Widths {
        left: left.width(0),
        right: right.width(0),
    }
}

/// Whether each row has `width` values.
pub(crate) fn are_wide(rows: &RowSource, width: usize) -> bool
    ensures wide { result ≡ true → All (λ row. length row ≡ width) rows.now }
    ensures uneven { result ≡ false → All (λ row. length row ≡ width) rows.now → ⊥ }
{
    for position in 0..rows.len() {
        if rows.width(position as u64) != width {
            return false;
        }
    }
    true
}

/// Those of the columns that hold no NULL.
fn whole_columns(
    alloc: Global,
    columns: &[JoinColumns],
    left: &RowSource,
    right: &RowSource,
) -> Result<Vec<JoinColumns>, OutOfMemory>
    ensures { IfOk result (λ v. All (λ c. Contains columns.now c × AreWhole c left.now right.now) v.items) }
{
    let mut whole = Vec::new(alloc);
    for column in columns {
        if !have_nulls(*column, left, right) {
            whole.push(*column)?;
        }
    }
    Ok(whole)
}

/// Whether one of the two columns holds a NULL.
fn have_nulls(columns: JoinColumns, left: &RowSource, right: &RowSource) -> bool
    ensures { result ≡ false → AreWhole columns left.now right.now }
{
    has_null(left, columns.left) || has_null(right, columns.right)
}

fn has_null(rows: &RowSource, column: u16) -> bool
    ensures { result ≡ false → All (λ row. is_null (column_of row column) ≡ false) rows.now }
{
    for position in 0..rows.len() {
        if is_null_at(rows, position as u64, column) {
            return true;
        }
    }
    false
}

/// Whether a column of the row at a position is NULL; past the last row or column it is.
pub(crate) fn is_null_at(rows: &RowSource, position: u64, column: u16) -> bool
    ensures { result ≡ is_null (column_of (row_at rows.now position) column) }
{
    is_null_value(rows.value(position, column as usize))
}

fn is_null_value(value: &Value) -> bool
    ensures { result ≡ is_null value.now }
{
    matches!(value, Value::Null)
}

/// Appends the columns of each equality of a left and a right column among the conjuncts of a condition, as long as no conjunct before
/// it has arithmetic.
fn push_deciding(
    condition: &Expr,
    widths: Widths,
    columns: &mut Vec<JoinColumns>,
) -> Result<(), OutOfMemory>
    ensures { OnOk result (AreDeciding widths.left widths.right (expression_of condition.now) columns.old.items columns.new.items) }
{
    match condition {
        Expr::Compare(ComparisonOp::Equal, a, b) => push_compared(a, b, widths, columns),
        Expr::And(a, b) => {
            push_deciding(a, widths, columns)?;
            if has_arithmetic(a) {
                Ok(())
            } else {
                push_deciding(b, widths, columns)
            }
        }
        _ => Ok(()),
    }
}

fn push_compared(
    a: &Expr,
    b: &Expr,
    widths: Widths,
    columns: &mut Vec<JoinColumns>,
) -> Result<(), OutOfMemory>
    ensures { OnOk result (AreDeciding widths.left widths.right (spec.equality (expression_of a.now) (expression_of b.now)) columns.old.items columns.new.items) }
{
    if let Some(found) = compared_columns(a, b, widths) {
        columns.push(found)?;
    }
    Ok(())
}

/// The columns of an equality of two columns, one of either side.
pub(crate) fn compared_columns(a: &Expr, b: &Expr, widths: Widths) -> Option<JoinColumns>
    ensures found { IfSome result (λ c. Equates widths.left widths.right (spec.equality (expression_of a.now) (expression_of b.now)) c) }
    ensures none { IfNone result (pairs.are_of_both widths.left widths.right (expression_of a.now) (expression_of b.now) ≡ false) }
{
    match (a, b) {
        (Expr::Column(a), Expr::Column(b)) => sides(*a, *b, widths),
        _ => None,
    }
}

fn sides(a: u16, b: u16, widths: Widths) -> Option<JoinColumns>
    ensures found { IfSome result (λ c. spec.AreSides widths.left widths.right a b c) }
    ensures none { IfNone result (pairs.are_of_both widths.left widths.right (Column a) (Column b) ≡ false) }
{
    let (first, second) = (a as usize, b as usize);
    if first < widths.left && widths.left <= second && second - widths.left < widths.right {
        Some(JoinColumns {
            left: a,
            right: b - widths.left as u16,
        })
    } else if second < widths.left && widths.left <= first && first - widths.left < widths.right {
        Some(JoinColumns {
            left: b,
            right: a - widths.left as u16,
        })
    } else {
        None
    }
}
