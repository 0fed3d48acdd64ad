//! Copies of expressions by a loop: the operands still to be copied wait on the heap, so the depth of an expression takes no stack.

ghost use Rattle.std.specs.Prelude.{◌≡◌, ◌<◌, IfOk};
ghost use Rattle.wd_plan.specs.Copies.{closed_tree, first_copied, second_copied, step_tree, steps_left, waiting_steps};
ghost use Rattle.wd_plan.specs.Expressions.{expression_of};
ghost use Rattle.wd_plan.specs.Walks.{rest_steps, second_rest, steps};

use crate::expression::Expr;
use std::alloc::Global;
use wd_value::OutOfMemory;

/// An expression whose operands are being copied: the operand that is being copied by its place, and the copies made before it.
#[derive(Drop)]
enum Waiting<'e> {
    First(&'e Expr),
    Second(&'e Expr, Box<Expr>),
    Third(&'e Expr, Box<Expr>, Box<Expr>),
}

/// A finished copy, or an operand that has to be copied first.
#[derive(Drop)]
enum Step<'e> {
    Made(Expr),
    Into(Waiting<'e>, &'e Expr),
}

/// An equal expression.
#[tactic(auto, using(crate::proofs::Copied::all_closed_push))]
pub(crate) fn copy_expression(alloc: Global, expression: &Expr) -> Result<Expr, OutOfMemory>
    ensures { IfOk result (λ e. expression_of e ≡ expression_of expression.now) }
{
    let mut waiting = Vec::new(alloc);
    let mut step = open(alloc, expression)?;
    loop {
        match step {
            Step::Into(outer, part) => {
                waiting.push(outer)?;
                step = open(alloc, part)?;
            }
            Step::Made(copy) => {
                let Some(outer) = waiting.pop() else {
                    return Ok(copy);
                };
                step = close(outer, Box::new(alloc, copy)?);
            }
        }
    }
}

/// The first step into an expression: its first operand if it has operands, else its copy.
fn open<'e>(alloc: Global, expression: &'e Expr) -> Result<Step<'e>, OutOfMemory>
    ensures tree { IfOk result (λ s. step_tree s ≡ expression_of expression.now) }
    ensures fewer { IfOk result (λ s. steps_left s < steps (expression_of expression.now)) }
{
    match expression {
        Expr::Column(column) => Ok(Step::Made(Expr::Column(*column))),
        Expr::Literal(value, kind) => Ok(Step::Made(Expr::Literal(value.copy(alloc)?, *kind))),
        Expr::Negate(a)
        | Expr::Arithmetic(_, a, _)
        | Expr::Compare(_, a, _)
        | Expr::Not(a)
        | Expr::And(a, _)
        | Expr::Or(a, _)
        | Expr::IsNull(a)
        | Expr::IsNotNull(a)
        | Expr::Case(_, a, _, _) => Ok(Step::Into(Waiting::First(expression), a)),
    }
}

/// The step after an operand is copied: the next operand of the expression around it, or that expression's copy.
fn close<'e>(outer: Waiting<'e>, copy: Box<Expr>) -> Step<'e>
    ensures tree { step_tree result ≡ closed_tree outer.entry (expression_of copy.value) }
    ensures fewer { steps_left result < waiting_steps outer.entry }
{
    match outer {
        Waiting::First(whole) => after_first(whole, copy),
        Waiting::Second(whole, a) => after_second(whole, a, copy),
        Waiting::Third(whole, a, b) => match whole {
            Expr::Case(branch, _, _, _) => Step::Made(Expr::Case(*branch, a, b, copy)),
            _ => Step::Made(Box::into_inner(copy)),
        },
    }
}

/// The step after the first operand is copied.
fn after_first<'e>(whole: &'e Expr, a: Box<Expr>) -> Step<'e>
    ensures tree { step_tree result ≡ first_copied (expression_of whole.now) (expression_of a.value) }
    ensures fewer { steps_left result < rest_steps (expression_of whole.now) }
{
    match whole {
        Expr::Negate(_) => Step::Made(Expr::Negate(a)),
        Expr::Not(_) => Step::Made(Expr::Not(a)),
        Expr::IsNull(_) => Step::Made(Expr::IsNull(a)),
        Expr::IsNotNull(_) => Step::Made(Expr::IsNotNull(a)),
        Expr::Arithmetic(_, _, b)
        | Expr::Compare(_, _, b)
        | Expr::And(_, b)
        | Expr::Or(_, b)
        | Expr::Case(_, _, b, _) => Step::Into(Waiting::Second(whole, a), b),
        Expr::Column(_) | Expr::Literal(_, _) => Step::Made(Box::into_inner(a)),
    }
}

/// The step after the second operand is copied.
fn after_second<'e>(whole: &'e Expr, a: Box<Expr>, b: Box<Expr>) -> Step<'e>
    ensures tree { step_tree result ≡ second_copied (expression_of whole.now) (expression_of a.value) (expression_of b.value) }
    ensures fewer { steps_left result < second_rest (expression_of whole.now) }
{
    match whole {
        Expr::Arithmetic(op, _, _) => Step::Made(Expr::Arithmetic(*op, a, b)),
        Expr::Compare(op, _, _) => Step::Made(Expr::Compare(*op, a, b)),
        Expr::And(_, _) => Step::Made(Expr::And(a, b)),
        Expr::Or(_, _) => Step::Made(Expr::Or(a, b)),
        Expr::Case(_, _, _, c) => Step::Into(Waiting::Third(whole, a, b), c),
        _ => Step::Made(Box::into_inner(b)),
    }
}
