//! The facts of a condition's conjuncts.

ghost use Rattle.std.specs.Prelude.{◌≡◌, ◌++◌, map, option_map, IfOk, OnErr, OnOk};
ghost use Rattle.wd_plan.specs.Expressions.{expression_of};
ghost use Rattle.wd_step_facts.specs.Facts.{fact_of};
ghost use Rattle.wd_step_facts.specs.Steps as spec;

use crate::facts::Given;
use crate::members::{add_all, add_column_fact, add_fixed};
use std::alloc::Global;
use wd_plan::{ComparisonOp, Expr};
use wd_value::OutOfMemory;

/// Appends what follows where the other side equals this column.
fn add_equal(
    alloc: Global,
    column: u16,
    other: &Expr,
    list: &mut Vec<Given>,
) -> Result<(), OutOfMemory>
    ensures { IfOk result (λ _. map fact_of list.new.items ≡ map fact_of list.old.items ++ spec.facts_of_equal column (spec.side_of (expression_of other.now))) }
{
    match other {
        Expr::Column(d) => {
            add_column_fact(alloc, column, *d, list)?;
            add_column_fact(alloc, *d, column, list)
        }
        Expr::Literal(_, _) => add_fixed(alloc, column, list),
        _ => Ok(()),
    }
}

/// Appends what follows where the other side equals a literal.
fn add_equal_to_literal(
    alloc: Global,
    other: &Expr,
    list: &mut Vec<Given>,
) -> Result<(), OutOfMemory>
    ensures { IfOk result (λ _. map fact_of list.new.items ≡ map fact_of list.old.items ++ spec.facts_of_fixed (spec.side_of (expression_of other.now))) }
{
    match other {
        Expr::Column(d) => add_fixed(alloc, *d, list),
        _ => Ok(()),
    }
}

fn add_equality(alloc: Global, a: &Expr, b: &Expr, list: &mut Vec<Given>) -> Result<(), OutOfMemory>
    ensures { IfOk result (λ _. map fact_of list.new.items ≡ map fact_of list.old.items ++ spec.equality_facts (spec.side_of (expression_of a.now)) (spec.side_of (expression_of b.now))) }
{
    match a {
        Expr::Column(c) => add_equal(alloc, *c, b, list),
        Expr::Literal(_, _) => add_equal_to_literal(alloc, b, list),
        _ => Ok(()),
    }
}

fn add_comparison(
    alloc: Global,
    op: ComparisonOp,
    a: &Expr,
    b: &Expr,
    list: &mut Vec<Given>,
) -> Result<(), OutOfMemory>
    ensures { IfOk result (λ _. map fact_of list.new.items ≡ map fact_of list.old.items ++ spec.comparison_facts op (spec.side_of (expression_of a.now)) (spec.side_of (expression_of b.now))) }
{
    match op {
        ComparisonOp::Equal => add_equality(alloc, a, b, list),
        _ => Ok(()),
    }
}

/// Appends what follows where the side is NULL.
fn add_null(alloc: Global, a: &Expr, list: &mut Vec<Given>) -> Result<(), OutOfMemory>
    ensures { IfOk result (λ _. map fact_of list.new.items ≡ map fact_of list.old.items ++ spec.null_facts (spec.side_of (expression_of a.now))) }
{
    match a {
        Expr::Column(c) => add_fixed(alloc, *c, list),
        _ => Ok(()),
    }
}

fn add_conjunct(alloc: Global, conjunct: &Expr, list: &mut Vec<Given>) -> Result<(), OutOfMemory>
    ensures { IfOk result (λ _. map fact_of list.new.items ≡ map fact_of list.old.items ++ spec.conjunct_facts (expression_of conjunct.now)) }
{
    match conjunct {
        Expr::Compare(op, a, b) => add_comparison(alloc, *op, a, b, list),
        Expr::IsNull(a) => add_null(alloc, a, list),
        _ => Ok(()),
    }
}

/// Appends the facts of a condition's conjuncts to those gathered before.
#[tactic(auto, using(crate::proofs::Appended::conjuncts_append))]
fn gather_conjuncts(
    alloc: Global,
    condition: &Expr,
    list: &mut Vec<Given>,
) -> Result<(), OutOfMemory>
    ensures { IfOk result (λ _. map fact_of list.new.items ≡ map fact_of list.old.items ++ spec.facts_of_conjuncts (spec.conjuncts (expression_of condition.now))) }
{
    match condition {
        Expr::And(a, b) => {
            gather_conjuncts(alloc, a, list)?;
            gather_conjuncts(alloc, b, list)
        }
        _ => add_conjunct(alloc, condition, list),
    }
}

/// Appends the facts of a condition's conjuncts.
///
/// # Errors
/// Where memory runs out; the list is then unchanged.
pub fn add_conjuncts(
    alloc: Global,
    condition: &Expr,
    list: &mut Vec<Given>,
) -> Result<(), OutOfMemory>
    ensures added { OnOk result (map fact_of list.new.items ≡ map fact_of list.old.items ++ spec.facts_of_conjuncts (spec.conjuncts (expression_of condition.now))) }
    ensures kept { OnErr result (list.new.items ≡ list.old.items) }
{
    let mut more = Vec::new(alloc);
    gather_conjuncts(alloc, condition, &mut more)?;
    add_all(more, list)
}

/// Appends the facts of the conjuncts of a Join's condition, if it has one.
///
/// # Errors
/// Where memory runs out; the list is then unchanged.
pub fn add_join_conjuncts(
    alloc: Global,
    condition: &Option<Expr>,
    list: &mut Vec<Given>,
) -> Result<(), OutOfMemory>
    ensures added { OnOk result (map fact_of list.new.items ≡ map fact_of list.old.items ++ spec.facts_of_conjuncts (spec.conjuncts_of (option_map expression_of condition.now))) }
    ensures kept { OnErr result (list.new.items ≡ list.old.items) }
{
    match condition {
        Some(condition) => add_conjuncts(alloc, condition, list),
        None => Ok(()),
    }
}
