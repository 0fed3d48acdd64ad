//! The columns that are tried at a node.

ghost use Rattle.std.specs.Prelude.{◌≡◌, ◌+◌, ◌-◌, ◌++◌, ◌<◌, [], ◌∷◌, true, length, map, nat_lt, option_map, vec_items, IfOk};
ghost use Rattle.std.specs.List.{list_all};
ghost use Rattle.wd_plan.specs.Expressions.{expression_of};
ghost use Rattle.wd_plan.specs.Fits as fitting;
ghost use Rattle.wd_plan.specs.Plans.{plan_of};
ghost use Rattle.wd_schema.specs.Schemas.{schema_of};
ghost use Rattle.wd_step_facts.specs.Facts.{fact_of, is_plain_fact, kept_by};
ghost use Rattle.wd_facts.specs.Laws.{AreOfChildren};
ghost use Rattle.wd_analyse.specs.Sources as spec;
ghost use Rattle.wd_analyse.specs.Steps.{copy_in, left_sides_by, output_by, outputs_by};

use crate::copies::Copies;
use std::alloc::Global;
use wd_facts::{Facts, Given, Member};
use wd_plan::{Expr, Plan};
use wd_schema::Schema;
use wd_value::OutOfMemory;

/// The columns among members.
fn columns_in(alloc: Global, members: &[Member]) -> Result<Vec<u16>, OutOfMemory>
    ensures { IfOk result (λ v. v.items ≡ spec.columns_in members.now) }
{
    let mut list = Vec::with_capacity(alloc, members.len())?;
    for member in members {
        if let Member::Column(column) = member {
            list.push(*column)?;
        }
    }
    Ok(list)
}

/// A column as one of the first `width` columns: by itself, or by the lowest output that copies it.
fn output_of(copies: &Copies, width: u16, column: u16) -> Option<u16>
    ensures { result ≡ output_by (copy_in copies.now) width column }
{
    if column < width {
        Some(column)
    } else {
        copies.get(column - width)
    }
}

/// The columns as columns of the node, if each is one or is copied by one.
#[tactic(auto, using(crate::proofs::Outputs::outputs_next, crate::proofs::Outputs::outputs_stop))]
fn outputs_of(
    alloc: Global,
    copies: &Copies,
    width: u16,
    columns: &[u16],
) -> Result<Option<Vec<u16>>, OutOfMemory>
    ensures { IfOk result (λ o. option_map (λ k. k.items) o ≡ outputs_by (copy_in copies.now) width columns.now) }
{
    let mut list = Vec::with_capacity(alloc, columns.len())?;
    for column in columns {
        match output_of(copies, width, *column) {
            Some(number) => list.push(number)?,
            None => return Ok(None),
        }
    }
    Ok(Some(list))
}

/// Appends the left side of a given fact as columns of the node, if the node has them.
fn add_left_side(
    alloc: Global,
    copies: &Copies,
    width: u16,
    fact: &Given,
    list: &mut Vec<Vec<u16>>,
) -> Result<(), OutOfMemory>
    ensures { IfOk result (λ _. map vec_items list.new.items ≡ map vec_items list.old.items ++ left_sides_by (copy_in copies.now) width (fact_of fact.now ∷ [])) }
{
    let columns = columns_in(alloc, &fact.from)?;
    if let Some(from) = outputs_of(alloc, copies, width, &columns)? {
        list.push(from)?;
    }
    Ok(())
}

/// Appends the left side of each given fact as columns of the node, which these copies tell.
fn add_left_sides_by(
    alloc: Global,
    copies: &Copies,
    width: u16,
    facts: &[Given],
    list: &mut Vec<Vec<u16>>,
) -> Result<(), OutOfMemory>
    ensures { IfOk result (λ _. map vec_items list.new.items ≡ map vec_items list.old.items ++ left_sides_by (copy_in copies.now) width (map fact_of facts.now)) }
{
    for fact in facts {
        add_left_side(alloc, copies, width, fact, list)?;
    }
    Ok(())
}

/// Appends the left side of each given fact as columns of a node with these outputs.
fn add_left_sides(
    alloc: Global,
    outputs: &[Expr],
    width: u16,
    facts: &[Given],
    list: &mut Vec<Vec<u16>>,
) -> Result<(), OutOfMemory>
    requires { length outputs.now < 65536 }
    ensures { IfOk result (λ _. map vec_items list.new.items ≡ map vec_items list.old.items ++ spec.left_sides (map expression_of outputs.now) width (map fact_of facts.now)) }
{
    let copies = Copies::new(alloc, outputs)?;
    add_left_sides_by(alloc, &copies, width, facts, list)
}

/// One list of columns, then another whose columns are renumbered.
fn union(alloc: Global, columns: &[u16], by: u16, others: &[u16]) -> Result<Vec<u16>, OutOfMemory>
    requires { list_all (λ c. nat_lt c (65536 - by)) others.now ≡ true }
    ensures { IfOk result (λ v. v.items ≡ columns.now ++ map (λ c. by + c) others.now) }
{
    let mut list = Vec::from_slice(alloc, columns)?;
    for column in others {
        list.push(by + *column)?;
    }
    Ok(list)
}

/// Appends the union of columns and the left side of a fact of a Join's right input.
fn add_union(
    alloc: Global,
    columns: &[u16],
    by: u16,
    fact: &Given,
    list: &mut Vec<Vec<u16>>,
) -> Result<(), OutOfMemory>
    requires { is_plain_fact (65536 - by) (fact_of fact.now) ≡ true }
    ensures { IfOk result (λ _. map vec_items list.new.items ≡ map vec_items list.old.items ++ spec.unions_with columns.now by (fact_of fact.now ∷ [])) }
{
    let others = columns_in(alloc, &fact.from)?;
    let both = union(alloc, columns, by, &others)?;
    list.push(both)?;
    Ok(())
}

/// Appends the union of columns and each left side that the right input of a Join keeps.
fn add_unions_with(
    alloc: Global,
    columns: &[u16],
    by: u16,
    right: &[Given],
    list: &mut Vec<Vec<u16>>,
) -> Result<(), OutOfMemory>
    requires { list_all (is_plain_fact (65536 - by)) (map fact_of right.now) ≡ true }
    ensures { IfOk result (λ _. map vec_items list.new.items ≡ map vec_items list.old.items ++ spec.unions_with columns.now by (map fact_of right.now)) }
{
    for fact in right {
        add_union(alloc, columns, by, fact, list)?;
    }
    Ok(())
}

/// Appends each union of a left side that the left input of a Join keeps and one that the right input does.
fn add_unions(
    alloc: Global,
    left: &[Given],
    by: u16,
    right: &[Given],
    list: &mut Vec<Vec<u16>>,
) -> Result<(), OutOfMemory>
    requires { list_all (is_plain_fact (65536 - by)) (map fact_of right.now) ≡ true }
    ensures { IfOk result (λ _. map vec_items list.new.items ≡ map vec_items list.old.items ++ spec.unions (map fact_of left.now) by (map fact_of right.now)) }
{
    for fact in left {
        let columns = columns_in(alloc, &fact.from)?;
        add_unions_with(alloc, &columns, by, right, list)?;
    }
    Ok(())
}

/// The outputs of a Map; none at another node.
fn outputs(plan: &Plan) -> &[Expr]
    ensures { map expression_of result.now ≡ spec.outputs_in (plan_of plan.now) }
{
    match plan {
        Plan::Map { outputs, .. } => outputs,
        _ => &[],
    }
}

/// The number of columns of a node's rows.
pub(crate) fn width(plan: &Plan) -> u16
    requires { fitting.width (plan_of plan.now) < 65536 }
    ensures { result ≡ fitting.width (plan_of plan.now) }
{
    plan.width() as u16
}

/// At a Join, appends the unions of what its inputs keep.
#[tactic(auto, using(wd_plan::proofs::Ranges::narrow))]
fn add_unions_at(
    alloc: Global,
    plan: &Plan,
    schema: &Schema,
    kept: &[&[Given]],
    list: &mut Vec<Vec<u16>>,
) -> Result<(), OutOfMemory>
    requires fits { fitting.fits (schema_of schema.now) (plan_of plan.now) ≡ true }
    requires kept { AreOfChildren (plan_of plan.now) (kept_by kept.now 0) (kept_by kept.now 1) }
    ensures { IfOk result (λ _. map vec_items list.new.items ≡ map vec_items list.old.items ++ spec.unions_at (plan_of plan.now) (kept_by kept.now 0) (kept_by kept.now 1)) }
{
    match plan {
        Plan::Join { left, .. } => {
            let (first, second) = (facts_of_child(kept, 0), facts_of_child(kept, 1));
            add_unions(alloc, first, width(left), second, list)
        }
        _ => Ok(()),
    }
}

/// The facts that the child with this number keeps; none past the last child.
fn facts_of_child<'a>(kept: &[&'a [Given]], child: usize) -> &'a [Given]
    ensures { map fact_of result.now ≡ kept_by kept.now child }
{
    match kept.get(child) {
        Some(facts) => facts,
        None => &[],
    }
}

/// The columns that are tried at a plan's top node with these given facts, whose inputs keep these.
#[tactic(auto, using(wd_plan::proofs::Ranges::narrow))]
pub(crate) fn sources_of(
    alloc: Global,
    facts: &Facts,
    plan: &Plan,
    schema: &Schema,
    kept: &[&[Given]],
) -> Result<Vec<Vec<u16>>, OutOfMemory>
    requires fits { fitting.fits (schema_of schema.now) (plan_of plan.now) ≡ true }
    requires kept { AreOfChildren (plan_of plan.now) (kept_by kept.now 0) (kept_by kept.now 1) }
    ensures { IfOk result (λ v. map vec_items v.items ≡ spec.sources (plan_of plan.now) (map fact_of facts.now.list.items) (kept_by kept.now 0) (kept_by kept.now 1)) }
{
    let mut list = Vec::new(alloc);
    add_left_sides(alloc, outputs(plan), width(plan), &facts.list, &mut list)?;
    list.push(Vec::new(alloc))?;
    add_unions_at(alloc, plan, schema, kept, &mut list)?;
    Ok(list)
}
