//! What the conditions of a plan fix.

ghost use Rattle.std.specs.Prelude.{◌≡◌, ◌++◌, option_map, option_to_list, IfOk};
ghost use Rattle.wd_plan.specs.Expressions.{expression_of};
ghost use Rattle.wd_plan.specs.Plans.{plan_of};
ghost use Rattle.wd_step_facts.specs.Steps.{conjuncts, conjuncts_of, side_of};
ghost use Rattle.wd_candidates.specs.Fixed as spec;
ghost use Rattle.wd_candidates.specs.AllOrigins as listed;

use crate::origins::{
    TableColumn, add_calls, group_origins, origin_in, output_origins, table_origins,
};
use std::alloc::Global;
use wd_plan::{ComparisonOp, Expr, Plan};
use wd_value::{OutOfMemory, Value};

/// What a conjunct sets a column of its node's input to.
#[derive(Drop)]
pub(crate) struct Setting {
    pub column: u16,
    pub value: Value,
}

/// A table column, and the value that a conjunct fixes it to.
#[derive(Drop)]
pub(crate) struct Fixing {
    pub table: u16,
    pub column: u16,
    pub value: Value,
}

/// The column set to the literal, if that is not NULL.
fn set_to(alloc: Global, column: u16, value: &Value) -> Result<Option<Setting>, OutOfMemory>
    ensures { IfOk result (λ s. s ≡ spec.set_to column value.now) }
{
    match value {
        Value::Null => Ok(None),
        _ => {
            let value = value.copy(alloc)?;
            Ok(Some(Setting { column, value }))
        }
    }
}

/// What `a = b` sets.
fn equality_sets(alloc: Global, a: &Expr, b: &Expr) -> Result<Option<Setting>, OutOfMemory>
    ensures { IfOk result (λ s. s ≡ spec.equality_sets (side_of (expression_of a.now)) (side_of (expression_of b.now))) }
{
    match (a, b) {
        (Expr::Column(column), Expr::Literal(value, _)) => set_to(alloc, *column, value),
        (Expr::Literal(value, _), Expr::Column(column)) => set_to(alloc, *column, value),
        _ => Ok(None),
    }
}

/// What `a IS NULL` sets.
fn null_sets(a: &Expr) -> Option<Setting>
    ensures { result ≡ spec.null_sets (side_of (expression_of a.now)) }
{
    match a {
        Expr::Column(column) => Some(Setting {
            column: *column,
            value: Value::Null,
        }),
        _ => None,
    }
}

/// The column that a conjunct sets, and to what.
fn sets(alloc: Global, conjunct: &Expr) -> Result<Option<Setting>, OutOfMemory>
    ensures { IfOk result (λ s. s ≡ spec.sets (expression_of conjunct.now)) }
{
    match conjunct {
        Expr::Compare(ComparisonOp::Equal, a, b) => equality_sets(alloc, a, b),
        Expr::IsNull(a) => Ok(null_sets(a)),
        _ => Ok(None),
    }
}

/// The table column that a conjunct fixes, by the origins of the columns of its node's input.
fn fixing_of(
    alloc: Global,
    origins: &[Option<TableColumn>],
    conjunct: &Expr,
) -> Result<Option<Fixing>, OutOfMemory>
    ensures { IfOk result (λ f. f ≡ spec.fixing (listed.origin_in origins.now) (expression_of conjunct.now)) }
{
    let Some(Setting { column, value }) = sets(alloc, conjunct)? else {
        return Ok(None);
    };
    match origin_in(origins, column) {
        Some(TableColumn { table, column }) => Ok(Some(Fixing {
            table,
            column,
            value,
        })),
        None => Ok(None),
    }
}

/// Appends what a conjunct fixes.
fn add_fixing(
    alloc: Global,
    origins: &[Option<TableColumn>],
    conjunct: &Expr,
    list: &mut Vec<Fixing>,
) -> Result<(), OutOfMemory>
    ensures { IfOk result (λ _. list.new.items ≡ list.old.items ++ option_to_list (spec.fixing (listed.origin_in origins.now) (expression_of conjunct.now))) }
{
    if let Some(fixing) = fixing_of(alloc, origins, conjunct)? {
        list.push(fixing)?;
    }
    Ok(())
}

/// Appends what the conjuncts of a condition fix.
fn add_fixings(
    alloc: Global,
    origins: &[Option<TableColumn>],
    condition: &Expr,
    list: &mut Vec<Fixing>,
) -> Result<(), OutOfMemory>
    ensures { IfOk result (λ _. list.new.items ≡ list.old.items ++ spec.fixings_in (listed.origin_in origins.now) (conjuncts (expression_of condition.now))) }
{
    match condition {
        Expr::And(a, b) => {
            add_fixings(alloc, origins, a, list)?;
            add_fixings(alloc, origins, b, list)
        }
        _ => add_fixing(alloc, origins, condition, list),
    }
}

/// Appends what the conjuncts of a Join's condition fix, if it has one.
fn add_join_fixings(
    alloc: Global,
    origins: &[Option<TableColumn>],
    condition: &Option<Expr>,
    list: &mut Vec<Fixing>,
) -> Result<(), OutOfMemory>
    ensures { IfOk result (λ _. list.new.items ≡ list.old.items ++ spec.fixings_in (listed.origin_in origins.now) (conjuncts_of (option_map expression_of condition.now))) }
{
    match condition {
        Some(condition) => add_fixings(alloc, origins, condition, list),
        None => Ok(()),
    }
}

/// The origins of a plan's columns; appends what the conditions of the plan fix, the nodes in postorder.
#[tactic(auto, using(crate::proofs::Copies::filter_fixings, crate::proofs::Copies::join_fixings))]
pub(crate) fn add_plan_fixings(
    alloc: Global,
    plan: &Plan,
    list: &mut Vec<Fixing>,
) -> Result<Vec<Option<TableColumn>>, OutOfMemory>
    ensures origins { IfOk result (λ v. v.items ≡ listed.origins (plan_of plan.now)) }
    ensures fixings { IfOk result (λ _. list.new.items ≡ list.old.items ++ spec.fixings (plan_of plan.now)) }
{
    match plan {
        Plan::Scan { table, columns } => table_origins(alloc, *table, *columns),
        Plan::Join {
            left,
            right,
            condition,
        } => {
            let mut origins = add_plan_fixings(alloc, left, list)?;
            let mut more = add_plan_fixings(alloc, right, list)?;
            origins.append(&mut more)?;
            add_join_fixings(alloc, &origins, condition, list)?;
            Ok(origins)
        }
        Plan::Filter { input, condition } => {
            let origins = add_plan_fixings(alloc, input, list)?;
            add_fixings(alloc, &origins, condition, list)?;
            Ok(origins)
        }
        Plan::Map { input, outputs } => {
            let origins = add_plan_fixings(alloc, input, list)?;
            output_origins(alloc, &origins, outputs)
        }
        Plan::Group { input, group } => {
            let origins = add_plan_fixings(alloc, input, list)?;
            group_origins(alloc, &origins, group)
        }
        Plan::Window { input, window } => {
            let mut origins = add_plan_fixings(alloc, input, list)?;
            add_calls(&window.calls, &mut origins)?;
            Ok(origins)
        }
        Plan::Distinct { input } | Plan::Limit { input, .. } => add_plan_fixings(
            alloc, input, list,
        ),
    }
}
