//! The walk over an expression that makes a tree of it. The work still to be done waits on the heap, so the depth of the expression takes
//! no stack.

ghost use Rattle.std.specs.Prelude.{◌<◌, IfOk};
ghost use Rattle.wd_resolve_operand.specs.Causes.{Gives};
ghost use Rattle.wd_resolve_operand.specs.BoundExpressions.{bound_expression_of};
ghost use Rattle.wd_resolve_operand.specs.Mappings.{Leads, closed, mapped, part_steps, pending_steps, steps_left};

use crate::cause::ResolveError;
use crate::expression::BoundExpression;
use crate::maker::{Binary, Maker, Unary};
use std::alloc::Global;
use wd_plan::Branch;

/// What is still to be done with the tree of an operand.
#[derive(Drop)]
enum Pending<'f, K, T> {
    Under(Unary),
    /// The tree is that of a left operand; the right operand's is still to be made.
    Left(Binary, &'f BoundExpression<K>),
    Right(Binary, Box<T>),
    /// The tree is that of a branch's condition; those of the result and of the rest are still to be made.
    Condition(Branch, &'f BoundExpression<K>, &'f BoundExpression<K>),
    Result(Branch, Box<T>, &'f BoundExpression<K>),
    Rest(Branch, Box<T>, Box<T>),
}

/// A finished tree, or the operand whose tree has to be made first.
#[derive(Drop)]
enum Step<'f, K, T> {
    Made(T),
    Into(Pending<'f, K, T>, &'f BoundExpression<K>),
}

/// The tree that is made of an expression.
#[tactic(auto, using(crate::proofs::Walked::all_closed_push, crate::proofs::Walked::all_closed_err))]
pub(crate) fn make<M: Maker>(
    alloc: Global,
    maker: &M,
    expression: &BoundExpression<M::From>,
) -> Result<M::To, ResolveError>
    ensures { Gives M.shown result (mapped M.making (M.meaning maker.now) (bound_expression_of M.read expression.now)) }
{
    let mut pending = Vec::new(alloc);
    let mut step = open(alloc, maker, expression)?;
    loop {
        match step {
            Step::Into(outer, part) => {
                pending.push(outer)?;
                step = open(alloc, maker, part)?;
            }
            Step::Made(tree) => {
                let Some(outer) = pending.pop() else {
                    return Ok(tree);
                };
                step = close(alloc, maker, outer, tree)?;
            }
        }
    }
}

/// The first step into an expression: along its left side.
fn open<'f, M: Maker>(
    alloc: Global,
    maker: &M,
    expression: &'f BoundExpression<M::From>,
) -> Result<Step<'f, M::From, M::To>, ResolveError>
    ensures leads { Leads M.read M.shown M.making (M.meaning maker.now) result (mapped M.making (M.meaning maker.now) (bound_expression_of M.read expression.now)) }
    ensures fewer { IfOk result (λ s. steps_left M.read s < part_steps M.read expression.now) }
{
    match expression {
        BoundExpression::Reference(reference) => Ok(Step::Made(maker.reference(alloc, reference)?)),
        BoundExpression::Literal(value, kind) => Ok(Step::Made(M::literal(
            value.copy(alloc)?,
            *kind,
        ))),
        BoundExpression::Negate(a) => Ok(Step::Into(Pending::Under(Unary::Negate), a)),
        BoundExpression::Arithmetic(op, a, b) => Ok(Step::Into(
            Pending::Left(Binary::Arithmetic(*op), b),
            a,
        )),
        BoundExpression::Compare(op, a, b) => Ok(Step::Into(
            Pending::Left(Binary::Compare(*op), b),
            a,
        )),
        BoundExpression::Not(a) => Ok(Step::Into(Pending::Under(Unary::Not), a)),
        BoundExpression::And(a, b) => Ok(Step::Into(Pending::Left(Binary::And, b), a)),
        BoundExpression::Or(a, b) => Ok(Step::Into(Pending::Left(Binary::Or, b), a)),
        BoundExpression::IsNull(a) => Ok(Step::Into(Pending::Under(Unary::IsNull), a)),
        BoundExpression::IsNotNull(a) => Ok(Step::Into(Pending::Under(Unary::IsNotNull), a)),
        BoundExpression::Case(branch, a, b, c) => Ok(Step::Into(
            Pending::Condition(*branch, b, c),
            a,
        )),
    }
}

/// The step after the tree of an operand is made.
fn close<'f, M: Maker>(
    alloc: Global,
    maker: &M,
    outer: Pending<'f, M::From, M::To>,
    tree: M::To,
) -> Result<Step<'f, M::From, M::To>, ResolveError>
    ensures leads { Leads M.read M.shown M.making (M.meaning maker.now) result (closed M.read M.shown M.making (M.meaning maker.now) outer.entry (M.shown tree)) }
    ensures fewer { IfOk result (λ s. steps_left M.read s < pending_steps M.read outer.entry) }
{
    let tree = Box::new(alloc, tree)?;
    match outer {
        Pending::Under(operator) => Ok(Step::Made(M::under(operator, tree))),
        Pending::Left(operator, b) => Ok(Step::Into(Pending::Right(operator, tree), b)),
        Pending::Right(operator, a) => Ok(Step::Made(M::between(operator, a, tree))),
        Pending::Condition(branch, b, c) => Ok(Step::Into(Pending::Result(branch, tree, c), b)),
        Pending::Result(branch, a, c) => Ok(Step::Into(Pending::Rest(branch, a, tree), c)),
        Pending::Rest(branch, a, b) => Ok(Step::Made(M::branch(branch, a, b, tree))),
    }
}
