//! The literals of a plan.

ghost use Rattle.std.specs.Prelude.{◌≡◌, ◌++◌, flat_map, map, IfOk};
ghost use Rattle.wd_plan.specs.Expressions.{expression_of};
ghost use Rattle.wd_plan.specs.Plans.{plan_of};
ghost use Rattle.wd_varied.specs.Literals as spec;

use std::alloc::Global;
use wd_plan::{Expr, Plan};
use wd_value::{OutOfMemory, Value};

/// Appends the literals in a plan's conditions and outputs.
pub(crate) fn add_literals(
    alloc: Global,
    plan: &Plan,
    literals: &mut Vec<Value>,
) -> Result<(), OutOfMemory>
    ensures { IfOk result (λ _. literals.new.items ≡ literals.old.items ++ spec.literals (plan_of plan.now)) }
{
    match plan {
        Plan::Scan { .. } => Ok(()),
        Plan::Join {
            left,
            right,
            condition,
        } => {
            add_literals(alloc, left, literals)?;
            add_literals(alloc, right, literals)?;
            match condition {
                Some(condition) => add_of_expression(alloc, condition, literals),
                None => Ok(()),
            }
        }
        Plan::Filter { input, condition } => {
            add_literals(alloc, input, literals)?;
            add_of_expression(alloc, condition, literals)
        }
        Plan::Map { input, outputs } => {
            add_literals(alloc, input, literals)?;
            add_of_outputs(alloc, outputs, literals)
        }
        Plan::Group { input, .. }
        | Plan::Window { input, .. }
        | Plan::Distinct { input }
        | Plan::Limit { input, .. } => add_literals(alloc, input, literals),
    }
}

fn add_of_outputs(
    alloc: Global,
    outputs: &[Expr],
    literals: &mut Vec<Value>,
) -> Result<(), OutOfMemory>
    ensures { IfOk result (λ _. literals.new.items ≡ literals.old.items ++ flat_map spec.literals_in (map expression_of outputs.now)) }
{
    for output in outputs {
        add_of_expression(alloc, output, literals)?;
    }
    Ok(())
}

/// Appends an expression's literals. The left operand comes last, so that the compiler makes a loop of that call.
fn add_of_expression(
    alloc: Global,
    expression: &Expr,
    literals: &mut Vec<Value>,
) -> Result<(), OutOfMemory>
    ensures { IfOk result (λ _. literals.new.items ≡ literals.old.items ++ spec.literals_in (expression_of expression.now)) }
{
    match expression {
        Expr::Column(_) => Ok(()),
        Expr::Literal(value, _) => Ok(literals.push(value.copy(alloc)?)?),
        Expr::Negate(a) | Expr::Not(a) | Expr::IsNull(a) | Expr::IsNotNull(a) => {
            add_of_expression(alloc, a, literals)
        }
        Expr::Arithmetic(_, a, b) | Expr::Compare(_, a, b) | Expr::And(a, b) | Expr::Or(a, b) => {
            add_of_expression(alloc, b, literals)?;
            add_of_expression(alloc, a, literals)
        }
        Expr::Case(_, condition, then, otherwise) => {
            add_of_expression(alloc, condition, literals)?;
            add_of_expression(alloc, then, literals)?;
            add_of_expression(alloc, otherwise, literals)
        }
    }
}
