//! Parts of a plan by themselves, under sorted orderings: the rows of one over an instance, and its last step over rows.

ghost use Rattle.std.specs.Prelude.{◌≡◌, true, false, ℕ, List, None, IfErr, IfOk, length, nat_lt};
ghost use Rattle.wd_eval.specs.Runs.{IsUnderTurned};
ghost use Rattle.wd_eval.specs.Tied.{IsTurnedRefused};
ghost use Rattle.wd_eval.specs.Turning.{IsStepUnder};
ghost use Rattle.wd_nodes.specs.Relation.{most_rows, relation_or_fault_of};
ghost use Rattle.wd_plan.specs.Fits.{fits};
ghost use Rattle.wd_plan.specs.Plans.{EachNamesClasses, Over, PlanTree, Step, plan_of};
ghost use Rattle.wd_schema.specs.Schemas.{schema_of};
ghost use Rattle.wd_value.specs.Rows.{instance_of};

use crate::error::EvalError;
use crate::eval::walk_turned;
use crate::node::step_over_rows;
use crate::orderings::Orderings;
use crate::turned::Turned;
use std::alloc::Global;
use std::slice;
use wd_columns::OwnRows;
use wd_nodes::{Relation, StoredRows, Tables, into_own_rows, store};
use wd_plan::Plan;
use wd_schema::Schema;
use wd_value::{Fault, Instance, OutOfMemory};

/// The rows of a plan over an instance under the choice that leaves rows that tie as they are, or its fault.
pub fn stable_rows(
    alloc: Global,
    plan: &Plan,
    schema: &Schema,
    instance: &Instance,
) -> Result<Result<OwnRows, Fault>, EvalError>
    requires { fits (schema_of schema.now) (plan_of plan.now) ≡ true }
    ensures rows { IfOk result (λ r. (choice : List (List ℕ)) × IsUnderTurned (plan_of plan.now) (instance_of instance.now.items) None choice r) }
    ensures refused { IfErr result (λ e. IsTurnedRefused (plan_of plan.now) (instance_of instance.now.items) None e) }
{
    let (_, given) = walk_turned(alloc, plan, schema, instance, None)?;
    let rows = given_rows(alloc, &Tables::of_rows(instance), given)?;
    Ok(rows)
}

/// What the plan's last step gives over rows under its sorted orderings, of which the one of the class with the number of `turned`
/// takes rows that tie in another turn. (A Scan and a Join are no step over rows.)
pub fn turned_step(
    alloc: Global,
    plan: &Plan,
    rows: &OwnRows,
    turned: Option<Turned>,
) -> Result<Result<OwnRows, Fault>, EvalError>
    requires small { nat_lt most_rows (length rows.now) ≡ false }
    requires named { EachNamesClasses (plan_of plan.now) }
    ensures { IfOk result (λ r. (step : Step) (below : PlanTree) → plan_of plan.now ≡ Over step below → IsStepUnder step rows.now turned r) }
{
    let tables = Tables::of_own(slice::from_ref(rows));
    let input = Relation::Stored(StoredRows::Table(0));
    let mut orderings = Orderings::Sorted {
        turned,
        made: Vec::new(alloc),
    };
    let given = step_over_rows(alloc, plan, &tables, input, &mut orderings)?;
    let found = given_rows(alloc, &tables, given)?;
    Ok(found)
}

/// Moves what a node gives into rows of its own, for which those of a table are copied.
fn given_rows(
    alloc: Global,
    tables: &Tables,
    given: Result<Relation, Fault>,
) -> Result<Result<OwnRows, Fault>, OutOfMemory>
    ensures { IfOk result (λ r. r ≡ relation_or_fault_of tables.now given) }
{
    match given {
        Ok(relation) => {
            let stored = store(alloc, tables, relation)?;
            let rows = into_own_rows(alloc, tables, stored)?;
            Ok(Ok(rows))
        }
        Err(fault) => Ok(Err(fault)),
    }
}
