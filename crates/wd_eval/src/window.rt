//! A Window of a plan, under the orderings of a choice or under sorted ones.

ghost use Rattle.std.specs.Prelude.{◌≡◌, ◌-◌, ◌^◌, ◌<◌, ◌≤◌, Ok, length};
ghost use Rattle.wd_eval.specs.Walks.{GivesOrStops, IsWithin};
ghost use Rattle.wd_eval.specs.Windows.{AreFew, IsExtendedOrUnserved, orderings_of};
ghost use Rattle.wd_nodes.specs.Relation.{relation_of, relation_or_fault_of};
ghost use Rattle.wd_plan.specs.Outcomes.{outcome_of};
ghost use Rattle.wd_plan.specs.Plans as tree;
ghost use Rattle.wd_plan.specs.Plans.{NamesClasses, window_of};

use crate::answer::listed;
use crate::calls::with_calls;
use crate::error::EvalError;
use crate::orderings::{MOST_ROWS, Orderings};
use std::alloc::Global;
use wd_columns::OwnRows;
use wd_nodes::{Relation, StoredRows, Tables, into_own_rows, store};
use wd_plan::{Outcome, Window};
use wd_value::Fault;

/// The input's rows with the values of the calls after each of them, under the next orderings: one for each class, each lawful. Rows
/// that are kept column by column stay so.
pub(crate) fn extend_rows(
    alloc: Global,
    tables: &Tables,
    window: &Window,
    input: Relation,
    orderings: &mut Orderings,
) -> Result<Result<Relation, Fault>, EvalError>
    requires few { length (relation_of tables.now input) < 2 ^ 32 }
    requires within { IsWithin orderings.old }
    requires named { NamesClasses (window_of window.now) }
    ensures { GivesOrStops (relation_or_fault_of tables.now) (tree.Window (window_of window.now)) (Ok (relation_of tables.now input)) orderings.old orderings.new result }
{
    let stored = store(alloc, tables, input)?;
    let rows = into_own_rows(alloc, tables, stored)?;
    match extend_own(alloc, window, rows, orderings)? {
        Ok(extended) => Ok(Ok(Relation::Stored(StoredRows::Own(extended)))),
        Err(fault) => Ok(Err(fault)),
    }
}

/// Rows of their own, each followed by the values of the calls.
fn extend_own(
    alloc: Global,
    window: &Window,
    rows: OwnRows,
    orderings: &mut Orderings,
) -> Result<Result<OwnRows, Fault>, EvalError>
    requires few { length rows < 2 ^ 32 }
    requires within { IsWithin orderings.old }
    requires named { NamesClasses (window_of window.now) }
    ensures { GivesOrStops (λ r. r) (tree.Window (window_of window.now)) (Ok rows) orderings.old orderings.new result }
{
    let indexes = orderings.next_indexes(alloc, window, &rows.source())?;
    let extended = with_calls(alloc, window, rows, &indexes)?;
    Ok(extended)
}

/// The rows of an outcome, each followed by the values of the calls; a fault stays one.
fn extend_outcome(
    alloc: Global,
    window: &Window,
    input: Outcome,
    orderings: &mut Orderings,
) -> Result<Outcome, EvalError>
    requires few { AreFew (2 ^ 32 - 1) (outcome_of input) }
    requires within { IsWithin orderings.old }
    requires named { NamesClasses (window_of window.now) }
    ensures { GivesOrStops outcome_of (tree.Window (window_of window.now)) (outcome_of input) orderings.old orderings.new result }
{
    match input {
        Outcome::Fault(fault) => {
            orderings.next_empty(alloc, window.classes.len())?;
            Ok(Outcome::Fault(fault))
        }
        Outcome::Rows(rows) => {
            let extended = extend_own(alloc, window, OwnRows::of_rows(rows), orderings)?;
            let outcome = listed(alloc, extended)?;
            Ok(outcome)
        }
    }
}

/// The input's rows with the values of the calls after each of them, under the choice's orderings from
/// `first` on: one for each class, each lawful, and empty where the input is a fault (SQL, window
/// clause). The first ordering that is not so is refused by its number, 801; the count of rows is not
/// judged.
pub fn evaluate_window(
    alloc: Global,
    window: &Window,
    input: Outcome,
    choice: &[Vec<u64>],
    first: usize,
) -> Result<Outcome, EvalError>
    requires few { AreFew (2 ^ 32 - 1) (outcome_of input) }
    requires within { first ≤ length choice.now }
    requires named { NamesClasses (window_of window.now) }
    ensures { IsExtendedOrUnserved outcome_of (window_of window.now) (outcome_of input) (orderings_of choice.now) first result }
{
    let mut orderings = Orderings::Chosen {
        choice,
        next: first,
        most: MOST_ROWS as u64,
    };
    extend_outcome(alloc, window, input, &mut orderings)
}
