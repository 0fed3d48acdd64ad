//! The facts given at a node.

ghost use Rattle.std.specs.Prelude.{◌≡◌, true};
ghost use Rattle.wd_plan.specs.Fits as spec;
ghost use Rattle.wd_plan.specs.Plans.{plan_of};
ghost use Rattle.wd_schema.specs.Schemas.{schema_of};

use crate::shown::{push, push_between, push_number};
use std::alloc::Global;
use wd_cases::Failure;
use wd_cases_notation::State;
use wd_facts::{Facts, Given, Member, given};
use wd_plan::Plan;
use wd_schema::Schema;

/// `given PLAN`: the given facts of the plan's top node, whose children keep none.
pub fn answer(alloc: Global, state: &State, out: &mut String) -> Result<(), Failure> {
    match (state.stacks.plans.first(), &state.schema) {
        (Some(plan), Some(schema)) if plan.fits(schema) => push_given(alloc, plan, schema, out),
        _ => Err(Failure::NoCase),
    }
}

#[tactic(auto, using(crate::proofs::NoneKept::none_kept))]
fn push_given(alloc: Global, plan: &Plan, schema: &Schema, out: &mut String) -> Result<(), Failure>
    requires { spec.fits (schema_of schema.now) (plan_of plan.now) ≡ true }
{
    push_facts(out, &given(alloc, plan, schema, &[])?)
}

/// The number of columns, at a Join also that of the left side, and the facts.
fn push_facts(out: &mut String, facts: &Facts) -> Result<(), Failure> {
    push_number(out, i64::from(facts.columns))?;
    if let Some(split) = facts.split {
        push(out, " after ")?;
        push_number(out, i64::from(split))?;
    }
    for fact in &facts.list {
        push_fact(out, fact)?;
    }
    Ok(())
}

fn push_fact(out: &mut String, fact: &Given) -> Result<(), Failure> {
    push(out, "; ")?;
    push_members(out, &fact.from)?;
    push(out, " > ")?;
    push_members(out, &fact.to)
}

fn push_members(out: &mut String, members: &[Member]) -> Result<(), Failure> {
    for (place, member) in members.iter().enumerate() {
        push_between(out, place, ",")?;
        push_member(out, *member)?;
    }
    Ok(())
}

fn push_member(out: &mut String, member: Member) -> Result<(), Failure> {
    match member {
        Member::Column(column) => push_number(out, i64::from(column)),
        Member::Left => push(out, "left"),
        Member::Right => push(out, "right"),
        Member::Row => push(out, "row"),
    }
}
