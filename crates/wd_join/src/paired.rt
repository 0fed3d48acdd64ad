//! Pairs of a left and a right row by their positions.

ghost use Rattle.std.specs.Prelude.{◌≡◌, ◌+◌, ◌++◌, ◌≤◌, All, Err, IfNone, IfOk, IfSome, Ok, OnOk, Some, length, map, nat_lt, true};
ghost use Rattle.wd_plan.specs.Expressions.{expression_of};
ghost use Rattle.wd_plan.specs.Outcomes as spec;
ghost use Rattle.wd_plan.specs.Outcomes.{join_outcome};
ghost use Rattle.wd_join.specs.Joins.{has_more_rows};
ghost use Rattle.wd_join.specs.Matching.{matching};
ghost use Rattle.wd_joined.specs.Pairs.{row_paired, rows_paired};
ghost use Rattle.wd_join.specs.Paired.{IsOfEqualities, with_each};
ghost use Rattle.wd_join.specs.declared.error.StepError.TheVariants as error;
ghost use Rattle.wd_value.specs.Rows.{column_of, columns_of, rows_of};

use crate::error::StepError;
use crate::exact::exact_columns;
use crate::matching::JoinColumns;
use crate::walk::{agreeing_rows, positions_in};
use std::alloc::Global;
use wd_columns::{Columns, OwnRows, Pair, RowSource, all_positions, push_values};
use wd_plan::Expr;
use wd_scalar::value_in_pair;
use wd_value::{OutOfMemory, Row, Value};

/// The pairs of a left and a right row, the left one outermost, for which the condition is true, by their positions, where it consists
/// of equalities of a left and a right column; `None` exactly where it does not, or where rows of a side differ in width. The error is
/// `TooManyRows` where there are more than `most` pairs, which are then not made.
pub(crate) fn equal_pairs(
    alloc: Global,
    condition: &Expr,
    left: &RowSource,
    right: &RowSource,
    most: u64,
) -> Result<Option<Vec<Pair>>, StepError>
    ensures pairs { IfOk result (λ o. IfSome o (λ v. join_outcome (Some (expression_of condition.now)) (spec.pairs left.now right.now) ≡ Ok (rows_paired left.now right.now v.items))) }
    ensures none { IfOk result (λ o. IfNone o (IsOfEqualities (expression_of condition.now) left.now right.now → ⊥)) }
    ensures within { IfOk result (λ o. IfSome o (λ v. length v.items ≤ most)) }
    ensures too_many { result ≡ Err error.TooManyRows → has_more_rows most (join_outcome (Some (expression_of condition.now)) (spec.pairs left.now right.now)) ≡ true }
{
    match exact_columns(alloc, condition, left, right)? {
        None => Ok(None),
        Some(columns) => {
            let pairs = agreeing_pairs(alloc, &columns, left, right, most)?;
            Ok(Some(pairs))
        }
    }
}

/// The pairs that agree on the columns. Takes the time of sorting either side, and time linear in the number of pairs.
pub(crate) fn agreeing_pairs(
    alloc: Global,
    columns: &[JoinColumns],
    left: &RowSource,
    right: &RowSource,
    most: u64,
) -> Result<Vec<Pair>, StepError>
    ensures pairs { IfOk result (λ v. rows_paired left.now right.now v.items ≡ matching columns.now left.now right.now) }
    ensures within { IfOk result (λ v. length v.items ≤ most) }
    ensures too_many { result ≡ Err error.TooManyRows → nat_lt most (length (matching columns.now left.now right.now)) ≡ true }
{
    let agreeing = agreeing_rows(alloc, columns, left, right)?;
    let mut pairs = Vec::new(alloc);
    for i in 0..left.len() {
        let positions = positions_in(&agreeing.order, agreeing.ranges[i]);
        if positions.len() as u64 > most - pairs.len() as u64 {
            return Err(StepError::TooManyRows);
        }
        push_each(&mut pairs, i as u64, positions)?;
    }
    Ok(pairs)
}

/// Appends the pairs of a left position with each of some right ones.
fn push_each(pairs: &mut Vec<Pair>, left: u64, positions: &[u64]) -> Result<(), OutOfMemory>
    ensures { OnOk result (pairs.new.items ≡ pairs.old.items ++ with_each left positions.now) }
{
    for position in positions {
        pairs.push(Pair {
            left,
            right: *position,
        })?;
    }
    Ok(())
}

/// All pairs of a left and a right row, the left one outermost.
pub fn all_pairs(
    alloc: Global,
    left: &RowSource,
    right: &RowSource,
) -> Result<Vec<Pair>, OutOfMemory>
    ensures { IfOk result (λ v. rows_paired left.now right.now v.items ≡ spec.pairs left.now right.now) }
{
    let mut pairs = Vec::new(alloc);
    for first in 0..left.len() {
        for second in 0..right.len() {
            pairs.push(Pair {
                left: first as u64,
                right: second as u64,
            })?;
        }
    }
    Ok(pairs)
}

/// The rows of the pairs, with only these of their columns; the left row's columns are numbered first.
pub fn paired_columns(
    alloc: Global,
    left: &RowSource,
    right: &RowSource,
    pairs: &[Pair],
    columns: &[u64],
) -> Result<Columns, OutOfMemory>
    ensures { IfOk result (λ c. c ≡ map (columns_of columns.now) (rows_paired left.now right.now pairs.now)) }
{
    let mut picked = Vec::with_capacity(alloc, columns.len())?;
    for column in columns {
        picked.push(paired_column(alloc, left, right, pairs, *column as usize)?)?;
    }
    Ok(Columns::new(picked, pairs.len()))
}

/// The values of the pairs in a column.
fn paired_column(
    alloc: Global,
    left: &RowSource,
    right: &RowSource,
    pairs: &[Pair],
    column: usize,
) -> Result<Vec<Value>, OutOfMemory>
    ensures { IfOk result (λ v. v.items ≡ map (λ row. column_of row column) (rows_paired left.now right.now pairs.now)) }
{
    let mut values = Vec::with_capacity(alloc, pairs.len())?;
    for pair in pairs {
        let value = copy_value(alloc, left, right, *pair, column)?;
        values.push(value)?;
    }
    Ok(values)
}

/// The value of a pair in a column, and NULL past the last.
fn copy_value(
    alloc: Global,
    left: &RowSource,
    right: &RowSource,
    pair: Pair,
    column: usize,
) -> Result<Value, OutOfMemory>
    ensures { IfOk result (λ v. v ≡ column_of (row_paired left.now right.now pair) column) }
{
    let value = value_in_pair(left, pair.left, right, pair.right, column).copy(alloc)?;
    Ok(value)
}

/// The rows of the pairs: column by column where the left rows have as many values as each other and the right ones too, and else row
/// by row.
pub fn paired_rows(
    alloc: Global,
    left: &RowSource,
    right: &RowSource,
    pairs: &[Pair],
) -> Result<OwnRows, OutOfMemory>
    ensures { IfOk result (λ r. r ≡ rows_paired left.now right.now pairs.now) }
{
    match width_of_all(left, right, pairs) {
        Some(width) => {
            let all = all_positions(alloc, width)?;
            let columns = paired_columns(alloc, left, right, pairs, &all)?;
            Ok(OwnRows::of_columns(columns))
        }
        None => {
            let list = paired_list(alloc, left, right, pairs)?;
            Ok(OwnRows::of_rows(list))
        }
    }
}

/// How many values each of the pairs has, if there are any and neither their left rows nor their right ones differ in width.
fn width_of_all(left: &RowSource, right: &RowSource, pairs: &[Pair]) -> Option<usize>
    ensures { IfSome result (λ width. All (λ row. length row ≡ width) (rows_paired left.now right.now pairs.now)) }
{
    let first = pairs.first()?;
    let (left_width, right_width) = (left.width(first.left), right.width(first.right));
    if have_widths(left, right, pairs, left_width, right_width) {
        left_width.checked_add(right_width)
    } else {
        None
    }
}

/// Whether each left row of the pairs has the first number of values and each right row the second.
fn have_widths(
    left: &RowSource,
    right: &RowSource,
    pairs: &[Pair],
    left_width: usize,
    right_width: usize,
) -> bool
    ensures { result ≡ true → All (λ row. length row ≡ left_width + right_width) (rows_paired left.now right.now pairs.now) }
{
    pairs.iter().all(|pair| {
        left.width(pair.left) == left_width && right.width(pair.right) == right_width
    })
}

/// The rows of the pairs as a list.
fn paired_list(
    alloc: Global,
    left: &RowSource,
    right: &RowSource,
    pairs: &[Pair],
) -> Result<Vec<Row>, OutOfMemory>
    ensures { IfOk result (λ v. rows_of v.items ≡ rows_paired left.now right.now pairs.now) }
{
    let mut rows = Vec::with_capacity(alloc, pairs.len())?;
    for pair in pairs {
        rows.push(paired_row(alloc, left, right, *pair)?)?;
    }
    Ok(rows)
}

/// The row of a pair.
fn paired_row(
    alloc: Global,
    left: &RowSource,
    right: &RowSource,
    pair: Pair,
) -> Result<Row, OutOfMemory>
    ensures { IfOk result (λ r. r.items ≡ row_paired left.now right.now pair) }
{
    let width = left
        .width(pair.left)
        .saturating_add(right.width(pair.right));
    let mut row = Vec::with_capacity(alloc, width)?;
    push_values(alloc, &mut row, left, pair.left)?;
    push_values(alloc, &mut row, right, pair.right)?;
    Ok(row)
}
