//! A Window's rows with the values of its calls.

ghost use Rattle.std.specs.Prelude.{◌≡◌, IfOk, length, map};
ghost use Rattle.std.specs.List.{list_any};
ghost use Rattle.wd_eval.specs.Beside as spec;
ghost use Rattle.wd_eval.specs.Beside.{IsBeside};
ghost use Rattle.wd_eval.specs.ClassIndexes.{WhereIndexed};
ghost use Rattle.wd_plan.specs.Outcomes.{window_outcome};
ghost use Rattle.wd_plan.specs.Plans.{NameBelow, window_of};

use crate::class_index::ClassIndex;
use crate::column::call_columns;
use std::alloc::Global;
use wd_calls::CallColumn;
use wd_columns::{OwnRows, RowSource};
use wd_plan::Window;
use wd_value::{Fault, OutOfMemory};

/// The rows with the values of the calls after each of them, or the least fault of the calls, under the orderings that make these
/// partitions of the classes. Rows and values are moved.
pub(crate) fn with_calls(
    alloc: Global,
    window: &Window,
    rows: OwnRows,
    indexes: &[ClassIndex],
) -> Result<Result<OwnRows, Fault>, OutOfMemory>
    requires { NameBelow (length indexes.now) (window_of window.now).calls }
    ensures { let w = window_of window.now in IfOk result (λ r. WhereIndexed w rows indexes.now (λ orderings. r ≡ window_outcome w rows orderings)) }
{
    let found = values_beside(alloc, window, &rows.source(), indexes)?;
    match found {
        Err(fault) => Ok(Err(fault)),
        Ok(columns) => {
            let extended = with_columns(rows, columns)?;
            Ok(Ok(extended))
        }
    }
}

/// Each row with its values in the columns after its own.
fn with_columns(rows: OwnRows, columns: Vec<CallColumn>) -> Result<OwnRows, OutOfMemory>
    ensures { IfOk result (λ r. r ≡ spec.with_columns rows (map spec.values_of columns.items)) }
{
    let mut extended = rows;
    for column in columns {
        extended = extended.with_column(column.values)?;
    }
    Ok(extended)
}

/// The columns of the calls, or their least fault: a call has no other than a sum that is out of range.
fn values_beside(
    alloc: Global,
    window: &Window,
    rows: &RowSource,
    indexes: &[ClassIndex],
) -> Result<Result<Vec<CallColumn>, Fault>, OutOfMemory>
    requires { NameBelow (length indexes.now) (window_of window.now).calls }
    ensures { let w = window_of window.now in IfOk result (λ r. WhereIndexed w rows.now indexes.now (λ orderings. IsBeside w rows.now orderings r)) }
{
    let columns = call_columns(alloc, window, rows, indexes)?;
    if is_out_of_range(&columns) {
        return Ok(Err(Fault::OutOfRange));
    }
    Ok(Ok(columns))
}

/// Whether a column has a sum that is out of range.
fn is_out_of_range(columns: &[CallColumn]) -> bool
    ensures { result ≡ list_any (λ column. column.out_of_range) columns.now }
{
    columns.iter().any(|column| column.out_of_range)
}
