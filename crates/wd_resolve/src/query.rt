//! The plan of a query under a schema.

ghost use Rattle.std.specs.Prelude.{◌≡◌, true, map, IfOk};
ghost use Rattle.wd_schema.specs.Schemas.{schema_of};
ghost use Rattle.wd_plan.specs.Fits.{fits};
ghost use Rattle.wd_plan.specs.Plans.{plan_of};
ghost use Rattle.wd_resolve_operand.specs.Causes.{Gives};
ghost use Rattle.wd_syntax.specs.View.{view_query};
ghost use Rattle.wd_resolve.specs.Answers.{resolved_of, answer, name_in};

use crate::part::LoweredSelect;
use crate::select::{is_sorted, lower};
use std::alloc::Global;
use wd_plan::Plan;
use wd_resolve_operand::ResolveError;
use wd_resolve_select::OutputColumn;
use wd_schema::Schema;
use wd_syntax::Query;
use wd_value::{OutOfMemory, Text};

/// The plan of a query, the names of its outputs, and whether its outermost select has ORDER BY.
#[derive(Drop)]
pub struct Resolved {
    pub plan: Plan,
    pub names: Vec<Text>,
    pub ordered: bool,
}

/// The plan of a query under a schema, the names of its outputs, and whether it is ordered. A name stands for the only column in scope
/// that carries it. An error of 401 to 419 is the first cause for which the query has no plan. The plan fits the schema.
pub fn resolve(alloc: Global, schema: &Schema, query: &Query) -> Result<Resolved, ResolveError>
    ensures fitting { IfOk result (λ r. fits (schema_of schema.now) (plan_of r.plan) ≡ true) }
    ensures meant { Gives resolved_of result (answer (schema_of schema.now) (view_query query.now)) }
{
    let select = lower(alloc, schema, &query.select)?;
    let LoweredSelect { plan, columns } = select;
    let names = names_of(alloc, columns)?;
    let ordered = is_sorted(&query.select.order);
    Ok(Resolved {
        plan,
        names,
        ordered,
    })
}

/// The names of outputs.
fn names_of(alloc: Global, columns: Vec<OutputColumn>) -> Result<Vec<Text>, OutOfMemory>
    ensures { IfOk result (λ v. v.items ≡ map name_in columns.items) }
{
    let mut names = Vec::with_capacity(alloc, columns.len())?;
    for column in columns {
        names.push(column.name)?;
    }
    Ok(names)
}
