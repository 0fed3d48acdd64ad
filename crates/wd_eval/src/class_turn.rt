//! A Window where one of its classes takes rows that tie in another turn, from what it gives where none does: only the calls of that
//! class are computed again.

ghost use Rattle.std.specs.Prelude.{◌≡◌, ◌-◌, ◌<◌, ◌^◌, ℕ, List, IfOk, IsTrue, Ok, length, slice_index_or};
ghost use Rattle.wd_eval.specs.Turning.{IsTurnedWindow, rows_turned};
ghost use Rattle.wd_plan.specs.Outcomes.{window_outcome};
ghost use Rattle.wd_plan.specs.Plans.{window_of};
ghost use Rattle.wd_value.specs.Rows as table;
ghost use Rattle.wd_value.specs.declared.value.Value.TheVariants as value;

use crate::class_index::{SortedClassIndex, sorted_class_index};
use crate::column::column_of;
use std::alloc::Global;
use wd_columns::{OwnRows, RowSource, copy_all};
use wd_partition::Turn;
use wd_plan::Window;
use wd_value::{Fault, OutOfMemory, Value, same};

/// What a Window gives over its input where the class with this number is sorted with the positions taken in a turn, and the other
/// classes as they were for `given`, which is what it gave. `None` where it gives the same rows again. Joined rows share the columns of
/// the other classes' calls.
pub fn turn_class(
    alloc: Global,
    window: &Window,
    input: &RowSource,
    given: &RowSource,
    class: usize,
    turn: Turn,
) -> Result<Result<Option<OwnRows>, Fault>, OutOfMemory>
    requires short { length input.now < 2 ^ 32 }
    requires within { class < length (window_of window.now).classes }
    ensures { let w = window_of window.now in IfOk result (λ r. (own : List (List ℕ)) → class < length own → Ok given.now ≡ window_outcome w input.now own → IsTurnedWindow w input.now own class turn (rows_turned given.now r)) }
{
    let sorted = sorted_class_index(alloc, window, class, input, turn)?;
    let SortedClassIndex { class_index, .. } = sorted;
    let mut is_other = false;
    let mut rows = copy_all(alloc, input)?;
    for number in 0..window.calls.len() {
        let call = &window.calls[number];
        let after = window.calls.len() - number;
        if call.class as usize == class {
            let column = column_of(alloc, call, input, &class_index)?;
            if column.out_of_range {
                return Ok(Err(Fault::OutOfRange));
            }
            is_other = is_other || !are_before(&column.values, given, after);
            rows = rows.with_column(column.values)?;
        } else {
            rows = rows.with_column_of(alloc, given, after)?;
        }
    }
    if is_other {
        Ok(Ok(Some(rows)))
    } else {
        Ok(Ok(None))
    }
}

/// Whether these values stand so many places before the end of each row.
fn are_before(values: &[Value], rows: &RowSource, after: usize) -> bool
    ensures { IsTrue result → (p : ℕ) → p < length rows.now → slice_index_or values.now p value.Null ≡ table.column_of (table.row_at rows.now p) (length (table.row_at rows.now p) - after) }
{
    if values.len() != rows.len() {
        return false;
    }
    for position in 0..values.len() {
        let column = rows.width(position as u64).saturating_sub(after);
        if !same(&values[position], rows.value(position as u64, column)) {
            return false;
        }
    }
    true
}
