//! Rows gathered one after another, as far as they are needed, and the least fault among them. The rows' values go into columns.

ghost use Rattle.std.specs.Prelude.{◌≡◌, ℕ, ◌+◌, ◌∷◌, [], Err, IfOk, List, OnOk, Result, false, true};
ghost use Rattle.wd_column_store.specs.Along.{with_row};
ghost use Rattle.wd_group.specs.Gathered.{AreAdded, AreFirst, HasWidth};
ghost use Rattle.wd_join.specs.Joins.{has_more_rows};
ghost use Rattle.wd_join.specs.declared.error.StepError.TheVariants as error;
ghost use Rattle.wd_plan.specs.Faults.{all_ok};
ghost use Rattle.wd_steps.specs.Gathered.{row_of};
ghost use Rattle.wd_value.specs.Rows as table;
ghost use Rattle.wd_value.specs.Rows.{rows_of};
ghost use Rattle.wd_value.specs.declared.value.Fault as faults;

use std::alloc::Global;
use wd_columns::{Columns, empty_columns, push_row};
use wd_join::StepError;
use wd_steps::with_fault;
use wd_value::{Fault, OutOfMemory, Row, Value};

/// The first rows, one more than `most` of them, and the least fault.
#[derive(Drop)]
pub struct Gathered {
    pub columns: Vec<Vec<Value>>,
    pub count: usize,
    pub fault: Option<Fault>,
}

/// Before the first row of those of this width.
pub(crate) fn nothing(alloc: Global, width: usize) -> Result<Gathered, OutOfMemory>
    ensures { IfOk result (λ g. (most : ℕ) → AreFirst width most [] g) }
{
    let columns = empty_columns(alloc, width)?;
    Ok(Gathered {
        columns,
        count: 0,
        fault: None,
    })
}

/// Adds one more row of the others' width, or a fault in its place. A row that is not needed is dropped.
pub(crate) fn add(
    gathered: &mut Gathered,
    row: Result<Row, Fault>,
    most: u64,
) -> Result<(), OutOfMemory>
    ensures { OnOk result ((width : ℕ) → HasWidth width (row_of row) → AreAdded width most (row_of row ∷ []) gathered.old gathered.new) }
{
    match row {
        Ok(row) => {
            if gathered.count as u64 <= most {
                add_row(gathered, row)?;
            }
            Ok(())
        }
        Err(found) => {
            gathered.fault = Some(with_fault(gathered.fault, found));
            Ok(())
        }
    }
}

/// Adds the values of a row to the columns. There is no memory for more rows than can be counted.
fn add_row(gathered: &mut Gathered, row: Row) -> Result<(), OutOfMemory>
    ensures columns { OnOk result (rows_of gathered.new.columns.items ≡ with_row (rows_of gathered.old.columns.items) row.items) }
    ensures count { OnOk result (gathered.new.count ≡ gathered.old.count + 1) }
    ensures fault { gathered.new.fault ≡ gathered.old.fault }
{
    let Some(count) = gathered.count.checked_add(1) else {
        return Err(OutOfMemory);
    };
    push_row(&mut gathered.columns, row)?;
    gathered.count = count;
    Ok(())
}

/// The least fault, or the rows, or the error that there are more than `most` rows.
pub(crate) fn rows_within(
    gathered: Gathered,
    most: u64,
) -> Result<Result<Columns, Fault>, StepError>
    ensures outcome { IfOk result (λ o. (width : ℕ) (results : List (Result table.Row faults.Fault)) → AreFirst width most results gathered → o ≡ all_ok results) }
    ensures within { IfOk result (λ o. has_more_rows most o ≡ false) }
    ensures too_many { result ≡ Err error.TooManyRows → (width : ℕ) (results : List (Result table.Row faults.Fault)) → AreFirst width most results gathered → has_more_rows most (all_ok results) ≡ true }
{
    let Gathered {
        columns,
        count,
        fault,
    } = gathered;
    match fault {
        Some(fault) => Ok(Err(fault)),
        None => {
            if count as u64 > most {
                return Err(StepError::TooManyRows);
            }
            Ok(Ok(Columns::new(columns, count)))
        }
    }
}
