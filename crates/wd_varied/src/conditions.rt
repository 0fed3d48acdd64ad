//! What a plan's conditions suggest for columns of tables: the literals with which they are compared, and the columns that are equated.

ghost use Rattle.std.specs.Prelude.{◌≡◌, ◌++◌, IfOk, option_map, option_to_list};
ghost use Rattle.wd_candidates.specs.AllOrigins.{origin_in, origins as origins_of};
ghost use Rattle.wd_plan.specs.Expressions.{expression_of};
ghost use Rattle.wd_plan.specs.Plans.{plan_of};
ghost use Rattle.wd_step_facts.specs.Steps.{side_of};
ghost use Rattle.wd_varied.specs.Literals as spec;

use std::alloc::Global;
use wd_candidates::{
    TableColumn, group_origins, origin_in, output_origins, table_origins, window_origins,
};
use wd_plan::{ComparisonOp, Expr, Plan};
use wd_value::{OutOfMemory, Value};

/// A column of a table, and a value that comparisons with it suggest.
#[derive(Drop)]
pub struct Compared {
    pub table: u16,
    pub column: u16,
    pub value: Value,
}

/// Two columns of tables that hold the same value wherever a condition holds.
#[derive(Clone, Copy)]
pub struct Equated {
    pub left: TableColumn,
    pub right: TableColumn,
}

/// What the conditions of a plan suggest for columns of tables.
#[derive(Drop)]
pub(crate) struct Conditions {
    pub compared: Vec<Compared>,
    pub equated: Vec<Equated>,
}

/// The origins of a plan's columns; appends what its conditions compare with literals, also below OR and NOT, and what they equate.
#[tactic(auto, using(crate::proofs::Found::filter_compared, crate::proofs::Found::join_compared, crate::proofs::Found::filter_equated, crate::proofs::Found::join_equated))]
pub(crate) fn add_conditions(
    alloc: Global,
    plan: &Plan,
    found: &mut Conditions,
) -> Result<Vec<Option<TableColumn>>, OutOfMemory>
    ensures origins { IfOk result (λ v. v.items ≡ origins_of (plan_of plan.now)) }
    ensures compared { IfOk result (λ _. found.new.compared.items ≡ found.old.compared.items ++ spec.compared (plan_of plan.now)) }
    ensures equated { IfOk result (λ _. found.new.equated.items ≡ found.old.equated.items ++ spec.equated (plan_of plan.now)) }
{
    match plan {
        Plan::Scan { table, columns } => table_origins(alloc, *table, *columns),
        Plan::Join {
            left,
            right,
            condition,
        } => {
            let mut origins = add_conditions(alloc, left, found)?;
            let mut more = add_conditions(alloc, right, found)?;
            origins.append(&mut more)?;
            add_of_join(alloc, &origins, condition, found)?;
            Ok(origins)
        }
        Plan::Filter { input, condition } => {
            let origins = add_conditions(alloc, input, found)?;
            add_of_condition(alloc, &origins, condition, found)?;
            Ok(origins)
        }
        Plan::Map { input, outputs } => {
            let origins = add_conditions(alloc, input, found)?;
            output_origins(alloc, &origins, outputs)
        }
        Plan::Group { input, group } => {
            let origins = add_conditions(alloc, input, found)?;
            group_origins(alloc, &origins, group)
        }
        Plan::Window { input, window } => {
            let origins = add_conditions(alloc, input, found)?;
            window_origins(origins, &window.calls)
        }
        Plan::Distinct { input } | Plan::Limit { input, .. } => add_conditions(alloc, input, found),
    }
}

/// Appends what a Join's condition suggests, if it has one.
fn add_of_join(
    alloc: Global,
    origins: &[Option<TableColumn>],
    condition: &Option<Expr>,
    found: &mut Conditions,
) -> Result<(), OutOfMemory>
    ensures compared { IfOk result (λ _. found.new.compared.items ≡ found.old.compared.items ++ spec.in_join spec.compared_in (origin_in origins.now) (option_map expression_of condition.now)) }
    ensures equated { IfOk result (λ _. found.new.equated.items ≡ found.old.equated.items ++ spec.in_join spec.equated_in (origin_in origins.now) (option_map expression_of condition.now)) }
{
    match condition {
        Some(condition) => add_of_condition(alloc, origins, condition, found),
        None => Ok(()),
    }
}

/// Appends what a condition suggests.
fn add_of_condition(
    alloc: Global,
    origins: &[Option<TableColumn>],
    condition: &Expr,
    found: &mut Conditions,
) -> Result<(), OutOfMemory>
    ensures compared { IfOk result (λ _. found.new.compared.items ≡ found.old.compared.items ++ spec.compared_in (origin_in origins.now) (expression_of condition.now)) }
    ensures equated { IfOk result (λ _. found.new.equated.items ≡ found.old.equated.items ++ spec.equated_in (origin_in origins.now) (expression_of condition.now)) }
{
    add_compared(alloc, origins, condition, &mut found.compared)?;
    add_equated(origins, condition, &mut found.equated)
}

/// Appends what a condition compares. The left operand comes last, so that the compiler makes a loop of that call.
fn add_compared(
    alloc: Global,
    origins: &[Option<TableColumn>],
    condition: &Expr,
    list: &mut Vec<Compared>,
) -> Result<(), OutOfMemory>
    ensures { IfOk result (λ _. list.new.items ≡ list.old.items ++ spec.compared_in (origin_in origins.now) (expression_of condition.now)) }
{
    match condition {
        Expr::Column(_) | Expr::Literal(..) | Expr::Negate(_) | Expr::Arithmetic(..) => Ok(()),
        Expr::Compare(_, a, b) => add_of_sides(alloc, origins, a, b, list),
        Expr::Not(a) | Expr::IsNull(a) | Expr::IsNotNull(a) => {
            add_compared(alloc, origins, a, list)
        }
        Expr::And(a, b) | Expr::Or(a, b) => {
            add_compared(alloc, origins, b, list)?;
            add_compared(alloc, origins, a, list)
        }
        Expr::Case(_, condition, then, otherwise) => {
            add_compared(alloc, origins, condition, list)?;
            add_compared(alloc, origins, then, list)?;
            add_compared(alloc, origins, otherwise, list)
        }
    }
}

/// Appends a comparison of a column with a literal, on either side.
fn add_of_sides(
    alloc: Global,
    origins: &[Option<TableColumn>],
    a: &Expr,
    b: &Expr,
    list: &mut Vec<Compared>,
) -> Result<(), OutOfMemory>
    ensures { IfOk result (λ _. list.new.items ≡ list.old.items ++ spec.compared_sides (origin_in origins.now) (side_of (expression_of a.now)) (side_of (expression_of b.now))) }
{
    match (a, b) {
        (Expr::Column(column), Expr::Literal(value, _)) => {
            add_at(alloc, origin_in(origins, *column), value, list)
        }
        (Expr::Literal(value, _), Expr::Column(column)) => {
            add_at(alloc, origin_in(origins, *column), value, list)
        }
        _ => Ok(()),
    }
}

/// Appends a table's column and a value, if there is such a column.
fn add_at(
    alloc: Global,
    origin: Option<TableColumn>,
    value: &Value,
    list: &mut Vec<Compared>,
) -> Result<(), OutOfMemory>
    ensures { IfOk result (λ _. list.new.items ≡ list.old.items ++ option_to_list (option_map (spec.with_value value.now) origin)) }
{
    if let Some(TableColumn { table, column }) = origin {
        let value = value.copy(alloc)?;
        list.push(Compared {
            table,
            column,
            value,
        })?;
    }
    Ok(())
}

/// Appends the columns that are equal wherever a condition holds. The left operand comes last, so that the compiler makes a loop of that
/// call.
fn add_equated(
    origins: &[Option<TableColumn>],
    condition: &Expr,
    list: &mut Vec<Equated>,
) -> Result<(), OutOfMemory>
    ensures { IfOk result (λ _. list.new.items ≡ list.old.items ++ spec.equated_in (origin_in origins.now) (expression_of condition.now)) }
{
    match condition {
        Expr::Compare(ComparisonOp::Equal, a, b) => add_equation(origins, a, b, list),
        Expr::And(a, b) => {
            add_equated(origins, b, list)?;
            add_equated(origins, a, list)
        }
        _ => Ok(()),
    }
}

/// Appends the table columns that the two sides of an equation copy, if both copy one.
fn add_equation(
    origins: &[Option<TableColumn>],
    a: &Expr,
    b: &Expr,
    list: &mut Vec<Equated>,
) -> Result<(), OutOfMemory>
    ensures { IfOk result (λ _. list.new.items ≡ list.old.items ++ spec.equated_sides (origin_in origins.now) (side_of (expression_of a.now)) (side_of (expression_of b.now))) }
{
    if let (Expr::Column(a), Expr::Column(b)) = (a, b) {
        if let (Some(left), Some(right)) = (origin_in(origins, *a), origin_in(origins, *b)) {
            list.push(Equated { left, right })?;
        }
    }
    Ok(())
}
