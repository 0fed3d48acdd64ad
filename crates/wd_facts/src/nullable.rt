//! The nullable keys of a node's rows, by plan and schema.

ghost use Rattle.std.specs.Prelude.{◌≡◌, ◌+◌, ◌-◌, ◌++◌, [], ◌∷◌, ◌<◌, true, length, map, nat_lt, option_map, IfOk};
ghost use Rattle.std.specs.List.{list_all};
ghost use Rattle.wd_schema.specs.Schemas.{schema_of};
ghost use Rattle.wd_plan.specs.Expressions.{expression_of};
ghost use Rattle.wd_plan.specs.Fits.{fits};
ghost use Rattle.wd_plan.specs.Plans.{plan_of};
ghost use Rattle.wd_step_facts.specs.Facts.{fact_of};
ghost use Rattle.wd_facts.specs.Given as spec;
ghost use Rattle.wd_step_facts.specs.Steps as steps;
ghost use Rattle.wd_facts.specs.Known.{IsKnown};

use crate::columns::{is_not_null, width};
use crate::tables::table_null_keys;
use std::alloc::Global;
use wd_plan::{Expr, Plan};
use wd_schema::Schema;
use wd_step_facts::{Given, Member, add_key, copy_of};
use wd_value::OutOfMemory;

/// The columns by their lowest copies, if each has one.
#[tactic(auto, using(crate::proofs::Added::copies_next, crate::proofs::Added::copies_stop))]
fn copies(alloc: Global, outputs: &[Expr], key: &[u16]) -> Result<Option<Vec<u16>>, OutOfMemory>
    requires { length outputs.now < 65536 }
    ensures { IfOk result (λ o. option_map (λ k. k.items) o ≡ steps.copies (map expression_of outputs.now) key.now) }
{
    let mut list = Vec::with_capacity(alloc, key.len())?;
    for column in key {
        match copy_of(outputs, *column) {
            Some(number) => list.push(number)?,
            None => return Ok(None),
        }
    }
    Ok(Some(list))
}

/// Appends the key by its copies, if it has them.
fn add_copied_key(
    alloc: Global,
    outputs: &[Expr],
    key: &[u16],
    list: &mut Vec<Vec<u16>>,
) -> Result<(), OutOfMemory>
    requires { length outputs.now < 65536 }
    ensures { IfOk result (λ _. map (λ k. k.items) list.new.items ≡ map (λ k. k.items) list.old.items ++ steps.if_copied (steps.copies (map expression_of outputs.now) key.now) []) }
{
    if let Some(copy) = copies(alloc, outputs, key)? {
        list.push(copy)?;
    }
    Ok(())
}

/// The keys by their copies, of those that have them.
#[tactic(auto, using(crate::proofs::Added::copied_next))]
fn copied_keys(
    alloc: Global,
    outputs: &[Expr],
    keys: &[Vec<u16>],
) -> Result<Vec<Vec<u16>>, OutOfMemory>
    requires { length outputs.now < 65536 }
    ensures { IfOk result (λ v. map (λ k. k.items) v.items ≡ steps.copied_keys (map expression_of outputs.now) (map (λ k. k.items) keys.now)) }
{
    let mut list = Vec::new(alloc);
    for key in keys {
        add_copied_key(alloc, outputs, key, &mut list)?;
    }
    Ok(list)
}

/// The nullable keys of a node's rows.
#[tactic(auto, using(wd_plan::proofs::Ranges::narrow))]
pub(crate) fn nullable_keys(
    alloc: Global,
    plan: &Plan,
    schema: &Schema,
) -> Result<Vec<Vec<u16>>, OutOfMemory>
    requires { fits (schema_of schema.now) (plan_of plan.now) ≡ true }
    ensures { IfOk result (λ v. map (λ k. k.items) v.items ≡ spec.nullable_keys (schema_of schema.now) (plan_of plan.now)) }
{
    match plan {
        Plan::Scan { table, .. } => table_null_keys(alloc, schema, *table),
        Plan::Join { .. } => Ok(Vec::new(alloc)),
        Plan::Filter { input, .. }
        | Plan::Window { input, .. }
        | Plan::Distinct { input }
        | Plan::Limit { input, .. } => nullable_keys(alloc, input, schema),
        Plan::Map { input, outputs } => {
            let keys = nullable_keys(alloc, input, schema)?;
            copied_keys(alloc, outputs, &keys)
        }
        Plan::Group { .. } => Ok(Vec::new(alloc)),
    }
}

/// The columns renumbered.
fn moved_columns(alloc: Global, by: u16, columns: &[u16]) -> Result<Vec<u16>, OutOfMemory>
    requires { list_all (λ c. nat_lt c (65536 - by)) columns.now ≡ true }
    ensures { IfOk result (λ v. v.items ≡ map (λ c. by + c) columns.now) }
{
    let mut moved = Vec::with_capacity(alloc, columns.len())?;
    for column in columns {
        moved.push(by + *column)?;
    }
    Ok(moved)
}

/// Appends the key with its columns renumbered.
fn add_moved_key(
    alloc: Global,
    by: u16,
    key: &[u16],
    list: &mut Vec<Vec<u16>>,
) -> Result<(), OutOfMemory>
    requires { list_all (λ c. nat_lt c (65536 - by)) key.now ≡ true }
    ensures { IfOk result (λ _. map (λ k. k.items) list.new.items ≡ map (λ k. k.items) list.old.items ++ (map (λ c. by + c) key.now ∷ [])) }
{
    let moved = moved_columns(alloc, by, key)?;
    list.push(moved)?;
    Ok(())
}

/// The keys with their columns renumbered.
#[tactic(auto, using(crate::proofs::Added::moved_next))]
pub(crate) fn moved_keys(
    alloc: Global,
    by: u16,
    keys: &[Vec<u16>],
) -> Result<Vec<Vec<u16>>, OutOfMemory>
    requires { list_all (list_all (λ c. nat_lt c (65536 - by))) (map (λ k. k.items) keys.now) ≡ true }
    ensures { IfOk result (λ v. map (λ k. k.items) v.items ≡ map (map (λ c. by + c)) (map (λ k. k.items) keys.now)) }
{
    let mut moved = Vec::with_capacity(alloc, keys.len())?;
    for key in keys {
        add_moved_key(alloc, by, key, &mut moved)?;
    }
    Ok(moved)
}

/// Which of a node's columns are known not null, by their numbers.
#[tactic(auto, using(wd_plan::proofs::Ranges::narrow, crate::proofs::Added::known_next))]
fn known_columns(alloc: Global, plan: &Plan, schema: &Schema) -> Result<Vec<bool>, OutOfMemory>
    requires { fits (schema_of schema.now) (plan_of plan.now) ≡ true }
    ensures { IfOk result (λ v. IsKnown (spec.is_not_null (schema_of schema.now) (plan_of plan.now)) v.items) }
{
    let mut known = Vec::with_capacity(alloc, plan.width() as usize)?;
    for column in 0..width(plan) {
        known.push(is_not_null(plan, schema, column))?;
    }
    Ok(known)
}

/// Whether a column is known not null, where `known` has the answers for the first columns.
fn is_known(known: &[bool], plan: &Plan, schema: &Schema, column: u16) -> bool
    requires fits { fits (schema_of schema.now) (plan_of plan.now) ≡ true }
    requires known { IsKnown (spec.is_not_null (schema_of schema.now) (plan_of plan.now)) known.now }
    ensures { result ≡ spec.is_not_null (schema_of schema.now) (plan_of plan.now) column }
{
    match known.get(usize::from(column)) {
        Some(is) => *is,
        None => is_not_null(plan, schema, column),
    }
}

/// Whether all columns of a key are known not null in a node's rows.
fn is_full_key(known: &[bool], plan: &Plan, schema: &Schema, key: &[u16]) -> bool
    requires fits { fits (schema_of schema.now) (plan_of plan.now) ≡ true }
    requires known { IsKnown (spec.is_not_null (schema_of schema.now) (plan_of plan.now)) known.now }
    ensures { result ≡ list_all (spec.is_not_null (schema_of schema.now) (plan_of plan.now)) key.now }
{
    for column in key {
        if !is_known(known, plan, schema, *column) {
            return false;
        }
    }
    true
}

/// Appends that each key that is full in a node's rows determines the row, or a side.
pub(crate) fn add_full_keys(
    alloc: Global,
    plan: &Plan,
    schema: &Schema,
    row: Member,
    keys: &[Vec<u16>],
    list: &mut Vec<Given>,
) -> Result<(), OutOfMemory>
    requires { fits (schema_of schema.now) (plan_of plan.now) ≡ true }
    ensures { IfOk result (λ _. map fact_of list.new.items ≡ map fact_of list.old.items ++ spec.keys_facts row (spec.full_keys (spec.is_not_null (schema_of schema.now) (plan_of plan.now)) (map (λ k. k.items) keys.now))) }
{
    if keys.is_empty() {
        return Ok(());
    }
    let known = known_columns(alloc, plan, schema)?;
    for key in keys {
        if is_full_key(&known, plan, schema, key) {
            add_key(alloc, row, key, list)?;
        }
    }
    Ok(())
}
