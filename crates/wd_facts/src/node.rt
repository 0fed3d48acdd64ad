//! The given facts of a plan's top node.

ghost use Rattle.std.specs.Prelude.{◌≡◌, ◌+◌, ◌-◌, ◌++◌, ◌<◌, ◌≤◌, [], ◌∷◌, true, length, map, nat_lt, None, Some, option_map, IfOk};
ghost use Rattle.std.specs.List.{list_all};
ghost use Rattle.wd_step_facts.specs.Facts.{fact_of, facts_of, kept_by, key_fact};
ghost use Rattle.wd_step_facts.specs.Facts as facts_spec;
ghost use Rattle.wd_facts.specs.Given as spec;
ghost use Rattle.wd_step_facts.specs.Steps as steps;
ghost use Rattle.wd_facts.specs.Laws.{AreOfChildren};
ghost use Rattle.wd_step_facts.specs.declared.facts.Member.TheVariants as member;
ghost use Rattle.wd_plan.specs.Expressions.{expression_of};
ghost use Rattle.wd_plan.specs.Fits as fitting;
ghost use Rattle.wd_plan.specs.Plans.{NamesClasses, plan_of, window_of};
ghost use Rattle.wd_schema.specs.Schemas.{schema_of};

use crate::columns::width;
use crate::nullable::{add_full_keys, moved_keys, nullable_keys};
use crate::tables::table_facts;
use std::alloc::Global;
use wd_plan::{Expr, Plan, Window};
use wd_schema::Schema;
use wd_step_facts::{
    Facts, Given, Member, add_calls, add_conjuncts, add_join_conjuncts, add_key, add_moved_facts,
    add_outputs, copied_facts, first_columns, group_facts,
};
use wd_value::OutOfMemory;

/// The given facts of a plan's top node, in the order in which certificates number them. `kept` has for each child of the node the
/// facts that the child keeps.
pub fn given(
    alloc: Global,
    plan: &Plan,
    schema: &Schema,
    kept: &[&[Given]],
) -> Result<Facts, OutOfMemory>
    requires fits { fitting.fits (schema_of schema.now) (plan_of plan.now) ≡ true }
    requires named { AreOfChildren (plan_of plan.now) (kept_by kept.now 0) (kept_by kept.now 1) }
    ensures { IfOk result (λ f. facts_of f ≡ spec.given (schema_of schema.now) (plan_of plan.now) (kept_by kept.now 0) (kept_by kept.now 1)) }
{
    let (first, second) = (facts_of_child(kept, 0), facts_of_child(kept, 1));
    match plan {
        Plan::Scan { table, columns } => {
            let list = table_facts(alloc, schema, *table)?;
            Ok(unsplit(*columns, list))
        }
        Plan::Join {
            left,
            right,
            condition,
        } => {
            let mut list = facts_of_sides(alloc, width(left), condition, first, second)?;
            add_keys_of_sides(alloc, plan, schema, left, right, &mut list)?;
            Ok(split(width(plan), width(left), list))
        }
        Plan::Filter { input, condition } => {
            let list = filter_facts(alloc, plan, schema, input, condition, first)?;
            Ok(unsplit(width(input), list))
        }
        Plan::Map { input, outputs } => {
            let list = map_facts(alloc, outputs, first)?;
            Ok(unsplit(outputs.len() as u16 + width(input), list))
        }
        Plan::Group { group, .. } => {
            let list = group_facts(alloc, group, first)?;
            Ok(unsplit(width(plan), list))
        }
        Plan::Window { input, window } => {
            let list = window_facts(alloc, width(input), window, first)?;
            Ok(unsplit(width(plan), list))
        }
        Plan::Distinct { input } => {
            let list = distinct_facts(alloc, width(input), first)?;
            Ok(unsplit(width(input), list))
        }
        Plan::Limit { input, .. } => {
            let list = copied_facts(alloc, first)?;
            Ok(unsplit(width(input), list))
        }
    }
}

/// The facts that the child with this number keeps; none past the last child.
fn facts_of_child<'a>(kept: &[&'a [Given]], child: usize) -> &'a [Given]
    ensures { map fact_of result.now ≡ kept_by kept.now child }
{
    match kept.get(child) {
        Some(facts) => facts,
        None => &[],
    }
}

/// Facts of a Join, whose first `left` columns are the left side's.
fn split(columns: u16, left: u16, list: Vec<Given>) -> Facts
    ensures { facts_of result ≡ record { columns = columns; split = Some left; list = map fact_of list.items } }
{
    Facts {
        columns,
        split: Some(left),
        list,
    }
}

/// Facts of a node that is no Join.
fn unsplit(columns: u16, list: Vec<Given>) -> Facts
    ensures { facts_of result ≡ record { columns = columns; split = None; list = map fact_of list.items } }
{
    Facts {
        columns,
        split: None,
        list,
    }
}

/// The facts that the sides of a Join keep, the right side's columns after the left one's, and those of its condition.
fn facts_of_sides(
    alloc: Global,
    split: u16,
    condition: &Option<Expr>,
    left: &[Given],
    right: &[Given],
) -> Result<Vec<Given>, OutOfMemory>
    requires left { list_all (facts_spec.is_plain_fact 65536) (map fact_of left.now) ≡ true }
    requires right { list_all (facts_spec.is_plain_fact (65536 - split)) (map fact_of right.now) ≡ true }
    ensures { IfOk result (λ v. map fact_of v.items ≡ (facts_spec.moved_facts (λ c. c) member.Left (map fact_of left.now) ++ facts_spec.moved_facts (λ c. split + c) member.Right (map fact_of right.now)) ++ steps.facts_of_conjuncts (steps.conjuncts_of (option_map expression_of condition.now))) }
{
    let mut list = Vec::new(alloc);
    add_moved_facts(alloc, 0, Member::Left, left, &mut list)?;
    add_moved_facts(alloc, split, Member::Right, right, &mut list)?;
    add_join_conjuncts(alloc, condition, &mut list)?;
    Ok(list)
}

/// Appends that a side's nullable keys that are full in the rows of the Join determine that side.
fn add_keys_of_sides(
    alloc: Global,
    plan: &Plan,
    schema: &Schema,
    left: &Plan,
    right: &Plan,
    list: &mut Vec<Given>,
) -> Result<(), OutOfMemory>
    requires fits { fitting.fits (schema_of schema.now) (plan_of plan.now) ≡ true }
    requires left { fitting.fits (schema_of schema.now) (plan_of left.now) ≡ true }
    requires right { fitting.fits (schema_of schema.now) (plan_of right.now) ≡ true }
    requires narrow { fitting.width (plan_of left.now) + fitting.width (plan_of right.now) ≤ 1024 }
    ensures { IfOk result (λ _. map fact_of list.new.items ≡ (map fact_of list.old.items ++ spec.keys_facts member.Left (spec.full_keys (spec.is_not_null (schema_of schema.now) (plan_of plan.now)) (spec.nullable_keys (schema_of schema.now) (plan_of left.now)))) ++ spec.keys_facts member.Right (spec.full_keys (spec.is_not_null (schema_of schema.now) (plan_of plan.now)) (map (map (λ c. fitting.width (plan_of left.now) + c)) (spec.nullable_keys (schema_of schema.now) (plan_of right.now))))) }
{
    let keys = nullable_keys(alloc, left, schema)?;
    add_full_keys(alloc, plan, schema, Member::Left, &keys, list)?;
    let keys = nullable_keys(alloc, right, schema)?;
    let moved = moved_keys(alloc, width(left), &keys)?;
    add_full_keys(alloc, plan, schema, Member::Right, &moved, list)?;
    Ok(())
}

/// The facts of a Filter: those that its input keeps, those of its condition, and the nullable keys that are full in its rows.
fn filter_facts(
    alloc: Global,
    plan: &Plan,
    schema: &Schema,
    input: &Plan,
    condition: &Expr,
    kept: &[Given],
) -> Result<Vec<Given>, OutOfMemory>
    requires fits { fitting.fits (schema_of schema.now) (plan_of plan.now) ≡ true }
    requires below { fitting.fits (schema_of schema.now) (plan_of input.now) ≡ true }
    ensures { IfOk result (λ v. map fact_of v.items ≡ (map fact_of kept.now ++ steps.facts_of_conjuncts (steps.conjuncts (expression_of condition.now))) ++ spec.keys_facts member.Row (spec.full_keys (spec.is_not_null (schema_of schema.now) (plan_of plan.now)) (spec.nullable_keys (schema_of schema.now) (plan_of input.now)))) }
{
    let mut list = copied_facts(alloc, kept)?;
    add_conjuncts(alloc, condition, &mut list)?;
    let keys = nullable_keys(alloc, input, schema)?;
    add_full_keys(alloc, plan, schema, Member::Row, &keys, &mut list)?;
    Ok(list)
}

/// The facts of a Map over its outputs and, after them, its input's columns: those that its input keeps, and those of its outputs.
fn map_facts(alloc: Global, outputs: &[Expr], kept: &[Given]) -> Result<Vec<Given>, OutOfMemory>
    requires narrow { length outputs.now ≤ 1024 }
    requires kept { list_all (facts_spec.is_plain_fact (65536 - length outputs.now)) (map fact_of kept.now) ≡ true }
    requires used { list_all (λ e. list_all (λ c. nat_lt c (65536 - length outputs.now)) (steps.used e)) (map expression_of outputs.now) ≡ true }
    ensures { IfOk result (λ v. map fact_of v.items ≡ facts_spec.moved_facts (λ c. length outputs.now + c) member.Row (map fact_of kept.now) ++ steps.outputs_facts (length outputs.now) 0 (map expression_of outputs.now)) }
{
    let by = outputs.len() as u16;
    let mut list = Vec::new(alloc);
    add_moved_facts(alloc, by, Member::Row, kept, &mut list)?;
    add_outputs(alloc, by, outputs, &mut list)?;
    Ok(list)
}

/// The facts of a Window: those that its input keeps, and those of its calls, whose columns come after the input's.
fn window_facts(
    alloc: Global,
    first: u16,
    window: &Window,
    kept: &[Given],
) -> Result<Vec<Given>, OutOfMemory>
    requires named { NamesClasses (window_of window.now) }
    requires narrow { first + length (window_of window.now).calls < 65536 }
    ensures { IfOk result (λ v. map fact_of v.items ≡ map fact_of kept.now ++ steps.calls_facts (window_of window.now) first (window_of window.now).calls) }
{
    let mut list = copied_facts(alloc, kept)?;
    add_calls(alloc, window, first, &mut list)?;
    Ok(list)
}

/// The facts of a Distinct: those that its input keeps, and that all columns determine the row.
fn distinct_facts(alloc: Global, columns: u16, kept: &[Given]) -> Result<Vec<Given>, OutOfMemory>
    ensures { IfOk result (λ v. map fact_of v.items ≡ map fact_of kept.now ++ (key_fact member.Row (steps.all_columns columns) ∷ [])) }
{
    let mut list = copied_facts(alloc, kept)?;
    let all = first_columns(alloc, columns)?;
    add_key(alloc, Member::Row, &all, &mut list)?;
    Ok(list)
}
