//! The references of an expression.

ghost use Rattle.std.specs.Prelude.{◌≡◌, ◌++◌, ◌+◌, ◌<◌, map, IfOk};
ghost use Rattle.wd_resolve_operand.specs.BoundExpressions.{bound_expression_of, references};
ghost use Rattle.wd_resolve_operand.specs.Mappings.{reference_or_none, part_steps, waiting, waiting_steps};

use crate::expression::{BoundExpression, Reference};
use std::alloc::Global;
use wd_value::OutOfMemory;

/// The references of an expression, from left to right. The operands still to be looked at are on the heap, the next one last, since a chain
/// may have thousands of operators on its left.
#[tactic(auto, using(crate::proofs::Walked::waiting_push, crate::proofs::Walked::found_push))]
pub fn references_of<L: Reference>(
    alloc: Global,
    expression: &BoundExpression<L>,
) -> Result<Vec<&L>, OutOfMemory>
    ensures { IfOk result (λ v. map (λ l. L.shown l.now) v.items ≡ references (bound_expression_of L.shown expression.now)) }
{
    let mut found = Vec::new(alloc);
    let mut pending = Vec::new(alloc);
    pending.push(expression)?;
    while let Some(part) = pending.pop() {
        if let Some(reference) = open(part, &mut pending)? {
            found.push(reference)?;
        }
    }
    Ok(found)
}

/// The reference that the expression is, if it is one; the operands of another expression are appended to those that wait, the first operand
/// last.
#[tactic(auto, using(crate::proofs::Walked::waiting_push))]
fn open<'f, L: Reference>(
    part: &'f BoundExpression<L>,
    pending: &mut Vec<&'f BoundExpression<L>>,
) -> Result<Option<&'f L>, OutOfMemory>
    ensures references { IfOk result (λ o. reference_or_none L.shown o ++ waiting L.shown pending.new.items ≡ references (bound_expression_of L.shown part.now) ++ waiting L.shown pending.old.items) }
    ensures fewer { IfOk result (λ o. waiting_steps L.shown pending.new.items < waiting_steps L.shown pending.old.items + part_steps L.shown part.now) }
{
    match part {
        BoundExpression::Reference(reference) => Ok(Some(reference)),
        BoundExpression::Literal(_, _) => Ok(None),
        BoundExpression::Negate(a)
        | BoundExpression::Not(a)
        | BoundExpression::IsNull(a)
        | BoundExpression::IsNotNull(a) => {
            wait(a, pending)?;
            Ok(None)
        }
        BoundExpression::Arithmetic(_, a, b)
        | BoundExpression::Compare(_, a, b)
        | BoundExpression::And(a, b)
        | BoundExpression::Or(a, b) => {
            wait_both(a, b, pending)?;
            Ok(None)
        }
        BoundExpression::Case(_, a, b, c) => {
            wait(c, pending)?;
            wait_both(a, b, pending)?;
            Ok(None)
        }
    }
}

#[tactic(auto, using(crate::proofs::Walked::waiting_push))]
fn wait<'f, L: Reference>(
    a: &'f BoundExpression<L>,
    pending: &mut Vec<&'f BoundExpression<L>>,
) -> Result<(), OutOfMemory>
    ensures references { IfOk result (λ _. waiting L.shown pending.new.items ≡ references (bound_expression_of L.shown a.now) ++ waiting L.shown pending.old.items) }
    ensures steps { IfOk result (λ _. waiting_steps L.shown pending.new.items ≡ waiting_steps L.shown pending.old.items + part_steps L.shown a.now) }
{
    pending.push(a)?;
    Ok(())
}

fn wait_both<'f, L: Reference>(
    a: &'f BoundExpression<L>,
    b: &'f BoundExpression<L>,
    pending: &mut Vec<&'f BoundExpression<L>>,
) -> Result<(), OutOfMemory>
    ensures references { IfOk result (λ _. waiting L.shown pending.new.items ≡ references (bound_expression_of L.shown a.now) ++ references (bound_expression_of L.shown b.now) ++ waiting L.shown pending.old.items) }
    ensures steps { IfOk result (λ _. waiting_steps L.shown pending.new.items ≡ waiting_steps L.shown pending.old.items + part_steps L.shown a.now + part_steps L.shown b.now) }
{
    wait(b, pending)?;
    wait(a, pending)
}
