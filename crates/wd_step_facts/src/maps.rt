//! The facts of a Map's outputs.

ghost use Rattle.std.specs.Prelude.{◌≡◌, ◌+◌, ◌-◌, ◌++◌, ◌<◌, true, map, length, nat_lt, IfOk, OnErr, OnOk};
ghost use Rattle.std.specs.List.{list_all};
ghost use Rattle.wd_plan.specs.Expressions.{expression_of};
ghost use Rattle.wd_step_facts.specs.Facts.{columns_named, fact_of};
ghost use Rattle.wd_step_facts.specs.Steps as spec;

use crate::facts::{Given, Member};
use crate::members::{add_all, add_column_fact};
use std::alloc::Global;
use wd_plan::Expr;
use wd_value::OutOfMemory;

/// Whether an expression is this column.
pub fn is_column(expression: &Expr, column: u16) -> bool
    ensures { result ≡ spec.is_side column (spec.side_of (expression_of expression.now)) }
{
    match expression {
        Expr::Column(c) => column == *c,
        _ => false,
    }
}

/// Appends the columns that an expression uses.
#[tactic(auto, using(crate::proofs::Appended::columns_append, crate::proofs::Appended::columns_append_twice))]
fn add_used(expression: &Expr, list: &mut Vec<u16>) -> Result<(), OutOfMemory>
    ensures { IfOk result (λ _. list.new.items ≡ list.old.items ++ spec.used (expression_of expression.now)) }
{
    match expression {
        Expr::Column(column) => {
            list.push(*column)?;
            Ok(())
        }
        Expr::Literal(_, _) => Ok(()),
        Expr::Negate(a) => add_used(a, list),
        Expr::Arithmetic(_, a, b) => {
            add_used(a, list)?;
            add_used(b, list)
        }
        Expr::Compare(_, a, b) => {
            add_used(a, list)?;
            add_used(b, list)
        }
        Expr::Not(a) => add_used(a, list),
        Expr::And(a, b) => {
            add_used(a, list)?;
            add_used(b, list)
        }
        Expr::Or(a, b) => {
            add_used(a, list)?;
            add_used(b, list)
        }
        Expr::IsNull(a) => add_used(a, list),
        Expr::IsNotNull(a) => add_used(a, list),
        Expr::Case(_, a, b, c) => {
            add_used(a, list)?;
            add_used(b, list)?;
            add_used(c, list)
        }
    }
}

/// The columns, renumbered, as members.
fn inputs(alloc: Global, by: u16, columns: &[u16]) -> Result<Vec<Member>, OutOfMemory>
    requires { list_all (λ c. nat_lt c (65536 - by)) columns.now ≡ true }
    ensures { IfOk result (λ v. v.items ≡ columns_named (map (λ c. by + c) columns.now)) }
{
    let mut list = Vec::with_capacity(alloc, columns.len())?;
    for column in columns {
        list.push(Member::Column(by + *column))?;
    }
    Ok(list)
}

/// The number of the first output that copies a column.
pub fn copy_of(outputs: &[Expr], column: u16) -> Option<u16>
    requires { length outputs.now < 65536 }
    ensures { result ≡ spec.copy_from 0 (map expression_of outputs.now) column }
{
    for number in 0..outputs.len() {
        if is_column(&outputs[number], column) {
            return Some(number as u16);
        }
    }
    None
}

/// The fact that the inputs that an output uses determine it.
fn used_fact(alloc: Global, by: u16, number: u16, output: &Expr) -> Result<Given, OutOfMemory>
    requires { list_all (λ c. nat_lt c (65536 - by)) (spec.used (expression_of output.now)) ≡ true }
    ensures { IfOk result (λ g. fact_of g ≡ spec.used_fact by number (expression_of output.now)) }
{
    let mut columns = Vec::new(alloc);
    add_used(output, &mut columns)?;
    let from = inputs(alloc, by, &columns)?;
    let to = Vec::from_slice(alloc, &[Member::Column(number)])?;
    Ok(Given { from, to })
}

/// Appends, for an output that is a column, that it determines the input that it copies.
fn add_copy(
    alloc: Global,
    by: u16,
    number: u16,
    output: &Expr,
    list: &mut Vec<Given>,
) -> Result<(), OutOfMemory>
    requires { list_all (λ c. nat_lt c (65536 - by)) (spec.used (expression_of output.now)) ≡ true }
    ensures { IfOk result (λ _. map fact_of list.new.items ≡ map fact_of list.old.items ++ spec.copy_facts by number (spec.side_of (expression_of output.now))) }
{
    match output {
        Expr::Column(column) => add_column_fact(alloc, number, by + *column, list),
        _ => Ok(()),
    }
}

/// Appends the facts of an output.
fn add_output(
    alloc: Global,
    by: u16,
    number: u16,
    output: &Expr,
    list: &mut Vec<Given>,
) -> Result<(), OutOfMemory>
    requires { list_all (λ c. nat_lt c (65536 - by)) (spec.used (expression_of output.now)) ≡ true }
    ensures { IfOk result (λ _. map fact_of list.new.items ≡ map fact_of list.old.items ++ spec.output_facts by number (expression_of output.now)) }
{
    let fact = used_fact(alloc, by, number, output)?;
    list.push(fact)?;
    add_copy(alloc, by, number, output, list)
}

/// The facts of a Map's outputs, where input columns are renumbered.
#[tactic(auto, using(crate::proofs::Added::outputs_next))]
fn outputs_facts(alloc: Global, by: u16, outputs: &[Expr]) -> Result<Vec<Given>, OutOfMemory>
    requires narrow { length outputs.now < 65536 }
    requires used { list_all (λ e. list_all (λ c. nat_lt c (65536 - by)) (spec.used e)) (map expression_of outputs.now) ≡ true }
    ensures { IfOk result (λ v. map fact_of v.items ≡ spec.outputs_facts by 0 (map expression_of outputs.now)) }
{
    let mut list = Vec::new(alloc);
    let mut number = 0;
    for output in outputs {
        add_output(alloc, by, number, output, &mut list)?;
        number += 1;
    }
    Ok(list)
}

/// Appends the facts of a Map's outputs, where input columns are renumbered.
///
/// # Errors
/// Where memory runs out; the list is then unchanged.
pub fn add_outputs(
    alloc: Global,
    by: u16,
    outputs: &[Expr],
    list: &mut Vec<Given>,
) -> Result<(), OutOfMemory>
    requires narrow { length outputs.now < 65536 }
    requires used { list_all (λ e. list_all (λ c. nat_lt c (65536 - by)) (spec.used e)) (map expression_of outputs.now) ≡ true }
    ensures added { OnOk result (map fact_of list.new.items ≡ map fact_of list.old.items ++ spec.outputs_facts by 0 (map expression_of outputs.now)) }
    ensures kept { OnErr result (list.new.items ≡ list.old.items) }
{
    let more = outputs_facts(alloc, by, outputs)?;
    add_all(more, list)
}
