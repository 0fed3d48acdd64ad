//! Which columns of a node's rows are not null, by plan and schema.

ghost use Rattle.std.specs.Prelude.{◌≡◌, ◌<◌, true, map, option_map, slice_get};
ghost use Rattle.wd_schema.specs.Schemas.{schema_of};
ghost use Rattle.wd_schema.specs.Tables.{table_of};
ghost use Rattle.wd_plan.specs.Expressions.{expression_of};
ghost use Rattle.wd_plan.specs.Fits as fitting;
ghost use Rattle.std.specs.List.{list_all};
ghost use Rattle.wd_plan.specs.Plans.{group_call_of, has, plan_of, sets_of};
ghost use Rattle.wd_facts.specs.Given as spec;
ghost use Rattle.wd_step_facts.specs.Steps as steps;

use wd_plan::{Call, Expr, GroupCall, Plan, has_column};
use wd_schema::{Column, Schema};
use wd_step_facts::is_column;
use wd_value::Value;

/// The number of columns of a node's rows.
pub(crate) fn width(plan: &Plan) -> u16
    requires { fitting.width (plan_of plan.now) < 65536 }
    ensures { result ≡ fitting.width (plan_of plan.now) }
{
    plan.width() as u16
}

/// Whether a conjunct that is true leaves no NULL in the column.
fn conjunct_rules_out_null(conjunct: &Expr, column: u16) -> bool
    ensures { result ≡ steps.rules_out_null column (expression_of conjunct.now) }
{
    match conjunct {
        Expr::Compare(_, a, b) => is_column(a, column) || is_column(b, column),
        Expr::IsNotNull(a) => is_column(a, column),
        _ => false,
    }
}

/// Whether a condition that is true leaves no NULL in the column. The left operand comes last: a compiler makes a loop of that call.
#[tactic(auto, using(wd_plan::proofs::Groups::any_append))]
fn rules_out_null(condition: &Expr, column: u16) -> bool
    ensures { result ≡ steps.some_rules_out_null (steps.conjuncts (expression_of condition.now)) column }
{
    match condition {
        Expr::And(a, b) => rules_out_null(b, column) || rules_out_null(a, column),
        _ => conjunct_rules_out_null(condition, column),
    }
}

fn join_rules_out_null(condition: &Option<Expr>, column: u16) -> bool
    ensures { result ≡ steps.some_rules_out_null (steps.conjuncts_of (option_map expression_of condition.now)) column }
{
    match condition {
        Some(condition) => rules_out_null(condition, column),
        None => false,
    }
}

/// Whether the column with this number is NOT NULL.
pub(crate) fn is_not_null_column(columns: &[Column], column: u16) -> bool
    ensures { result ≡ spec.is_not_null_column columns.now column }
{
    match columns.get(usize::from(column)) {
        Some(column) => column.not_null,
        None => false,
    }
}

/// Whether a column of the table with this number is NOT NULL.
fn is_not_null_in(schema: &Schema, table: u16, column: u16) -> bool
    ensures { result ≡ spec.is_not_null_column (spec.table_rule (schema_of schema.now) table).columns column }
{
    match schema.tables.get_index(usize::from(table)) {
        Some((_, table)) => is_not_null_column(&table.columns, column),
        None => false,
    }
}

/// Whether the call with this number is never NULL.
fn is_call_not_null(calls: &[Call], number: u16) -> bool
    ensures { result ≡ steps.is_call_not_null (slice_get calls.now number) }
{
    match calls.get(usize::from(number)) {
        Some(call) => !call.function.name().signature().nullable,
        None => false,
    }
}

/// Whether each grouping set has the column.
fn is_in_each(sets: &[Vec<u16>], column: u16) -> bool
    ensures { result ≡ list_all (λ set. has set column) (sets_of sets.now) }
{
    for set in sets {
        if !has_column(set, column) {
            return false;
        }
    }
    true
}

/// Whether the call of a Group with this number is never NULL.
fn is_group_call_not_null(calls: &[GroupCall], number: u16) -> bool
    ensures { result ≡ steps.is_group_call_not_null (slice_get (map group_call_of calls.now) number) }
{
    match calls.get(usize::from(number)) {
        Some(GroupCall::OfRows(aggregate)) => !aggregate.name().signature().nullable,
        Some(GroupCall::Grouping(_)) => true,
        None => false,
    }
}

/// Whether a column of a node's rows is known not null.
#[tactic(auto, using(wd_plan::proofs::Ranges::narrow))]
pub(crate) fn is_not_null(plan: &Plan, schema: &Schema, column: u16) -> bool
    requires { fitting.fits (schema_of schema.now) (plan_of plan.now) ≡ true }
    ensures { result ≡ spec.is_not_null (schema_of schema.now) (plan_of plan.now) column }
{
    match plan {
        Plan::Scan { table, .. } => is_not_null_in(schema, *table, column),
        Plan::Join {
            left,
            right,
            condition,
        } => {
            let own = if column < width(left) {
                is_not_null(left, schema, column)
            } else {
                is_not_null(right, schema, column - width(left))
            };
            own || join_rules_out_null(condition, column)
        }
        Plan::Filter { input, condition } => {
            is_not_null(input, schema, column) || rules_out_null(condition, column)
        }
        Plan::Map { input, outputs } => match outputs.get(usize::from(column)) {
            Some(Expr::Column(c)) => is_not_null(input, schema, *c),
            Some(Expr::Literal(value, _)) => !matches!(value, Value::Null),
            _ => false,
        },
        Plan::Group { input, group } => {
            if column < group.columns {
                is_not_null(input, schema, column) && is_in_each(&group.sets, column)
            } else {
                is_group_call_not_null(&group.calls, column - group.columns)
            }
        }
        Plan::Window { input, window } => {
            if column < width(input) {
                is_not_null(input, schema, column)
            } else {
                is_call_not_null(&window.calls, column - width(input))
            }
        }
        Plan::Distinct { input } | Plan::Limit { input, .. } => is_not_null(input, schema, column),
    }
}
