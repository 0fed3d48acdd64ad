//! Outputs to which rows are moved, since no value is made for them.
//!
//! These are columns, none of them twice, and NULL, which stands in any column past the last one of a row.

ghost use Rattle.std.specs.List.{AllZip, list_all};
ghost use Rattle.std.specs.Prelude.{◌≡◌, ◌↔◌, ◌<◌, ◌≤◌, ℕ, All, List, Ok, false, true, get_or, length, IfNone, IfOk, IfSome, IsTrue, map};
ghost use Rattle.wd_column_store.specs.Moves.{AreDifferent};
ghost use Rattle.wd_nodes.specs.Selected.{IsColumnOr};
ghost use Rattle.wd_plan.specs.Expressions.{Column, expression_of};
ghost use Rattle.wd_plan.specs.Outcomes.{map_outcome};
ghost use Rattle.wd_steps.specs.Selections.{is_column};
ghost use Rattle.wd_value.specs.Rows.{columns_of};

use std::alloc::Global;
use wd_columns::RowSource;
use wd_plan::Expr;
use wd_value::{OutOfMemory, Value};

/// The columns whose values the outputs have over these rows; none where an output is neither a column nor NULL, or a column stands there
/// twice. Where all outputs are columns, none of them twice, there are such columns.
pub(crate) fn selected_columns(
    alloc: Global,
    outputs: &[Expr],
    rows: &RowSource,
) -> Result<Option<Vec<u64>>, OutOfMemory>
    ensures columns { IfOk result (λ o. IfSome o (λ v. AreDifferent v.items × (map_outcome (map expression_of outputs.now) rows.now ≡ Ok (map (columns_of v.items) rows.now)))) }
    ensures none { IfOk result (λ o. IfNone o ((columns : List ℕ) → AreDifferent columns → map expression_of outputs.now ≡ map Column columns → ⊥)) }
{
    match columns_or(alloc, outputs, past_columns(rows))? {
        Some(columns) => Ok(different(columns)),
        None => Ok(None),
    }
}

/// A number past the last column of each row, and past those that an output can name.
fn past_columns(rows: &RowSource) -> u64
    ensures { All (λ row. length row ≤ result) rows.now }
{
    let mut past = u64::from(u16::MAX) + 1;
    for position in 0..rows.len() {
        past = past.max(rows.width(position as u64) as u64);
    }
    past
}

/// The columns that the outputs are, and for NULL one from `past` on; none where an output is neither.
fn columns_or(alloc: Global, outputs: &[Expr], past: u64) -> Result<Option<Vec<u64>>, OutOfMemory>
    ensures columns { IfOk result (λ o. IfSome o (λ v. AllZip (IsColumnOr past) (map expression_of outputs.now) v.items)) }
    ensures none { IfOk result (λ o. IfNone o (list_all is_column (map expression_of outputs.now) ≡ false)) }
{
    let mut columns = Vec::with_capacity(alloc, outputs.len())?;
    for output in outputs {
        let next = past.saturating_add(columns.len() as u64);
        match column_or(output, next) {
            Some(column) => columns.push(column)?,
            None => return Ok(None),
        }
    }
    Ok(Some(columns))
}

/// The column that an output is, and for NULL this one; none where it is neither.
fn column_or(output: &Expr, past: u64) -> Option<u64>
    ensures column { IfSome result (IsColumnOr past (expression_of output.now)) }
    ensures none { IfNone result (is_column (expression_of output.now) ≡ false) }
{
    match output {
        Expr::Column(column) => Some(u64::from(*column)),
        Expr::Literal(Value::Null, _) => Some(past),
        _ => None,
    }
}

/// The numbers, exactly where none stands twice among them.
fn different(numbers: Vec<u64>) -> Option<Vec<u64>>
    ensures numbers { IfSome result (λ v. AreDifferent v.items × (v.items ≡ numbers.items)) }
    ensures none { IfNone result (AreDifferent numbers.items → ⊥) }
{
    if are_different(&numbers) {
        Some(numbers)
    } else {
        None
    }
}

/// Whether no number stands twice in a list.
fn are_different(numbers: &[u64]) -> bool
    ensures { IsTrue result ↔ AreDifferent numbers.now }
{
    for i in 0..numbers.len() {
        if stands_before(numbers, i) {
            return false;
        }
    }
    true
}

/// Whether the number at a place stands before it too.
fn stands_before(numbers: &[u64], place: usize) -> bool
    requires { place < length numbers.now }
    ensures before { result ≡ true → AreDifferent numbers.now → ⊥ }
    ensures not_before { result ≡ false → (k : ℕ) → k < place → get_or numbers.now k 0 ≡ get_or numbers.now place 0 → ⊥ }
{
    for k in 0..place {
        if numbers[k] == numbers[place] {
            return true;
        }
    }
    false
}
