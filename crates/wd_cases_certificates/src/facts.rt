//! The facts given at a node, whose children keep facts.

ghost use Rattle.std.specs.Prelude.{◌≡◌, true, map};
ghost use Rattle.wd_step_facts.specs.Facts.{fact_of};
ghost use Rattle.wd_facts.specs.Laws.{AreOfChildren};
ghost use Rattle.wd_plan.specs.Fits as spec;
ghost use Rattle.wd_plan.specs.Plans.{plan_of};
ghost use Rattle.wd_schema.specs.Schemas.{schema_of};

use crate::case::CertificateCases;
use crate::notation::facts_of;
use crate::plain::are_of_children;
use crate::shown::push_facts;
use crate::verdict::plan_of_query;
use std::alloc::Global;
use wd_cases::Failure;
use wd_cert::{Given, given};
use wd_plan::Plan;
use wd_schema::Schema;

/// `given NODE FACTS`: the given facts of the node with a number, whose child keeps these; at a Join `FACTS | FACTS`.
pub fn facts_at(alloc: Global, texts: &CertificateCases, text: &str) -> Result<String, Failure> {
    let (number, text) = text.split_once(' ').unwrap_or((text, ""));
    let (first, second) = text.split_once('|').unwrap_or((text, ""));
    let first = facts_of(alloc, first)?;
    let second = facts_of(alloc, second)?;
    facts_of_node(alloc, texts, number.parse()?, &first, &second)
}

fn facts_of_node(
    alloc: Global,
    texts: &CertificateCases,
    number: u32,
    first: &[Given],
    second: &[Given],
) -> Result<String, Failure> {
    let planned = plan_of_query(alloc, texts)?;
    match node_at(&planned.resolved.plan, number) {
        Some(plan) => facts_shown(alloc, plan, &planned.schema, first, second),
        None => Err(Failure::NoCase),
    }
}

/// The node of a plan with a number in postorder.
fn node_at(plan: &Plan, number: u32) -> Option<&Plan> {
    if number.checked_add(1) == Some(plan.nodes()) {
        return Some(plan);
    }
    match plan {
        Plan::Scan { .. } => None,
        Plan::Join { left, right, .. } => {
            let split = left.nodes();
            if number < split {
                node_at(left, number)
            } else {
                node_at(right, number - split)
            }
        }
        Plan::Filter { input, .. }
        | Plan::Map { input, .. }
        | Plan::Group { input, .. }
        | Plan::Window { input, .. }
        | Plan::Distinct { input }
        | Plan::Limit { input, .. } => node_at(input, number),
    }
}

fn facts_shown(
    alloc: Global,
    plan: &Plan,
    schema: &Schema,
    first: &[Given],
    second: &[Given],
) -> Result<String, Failure> {
    if plan.fits(schema) && are_of_children(plan, first, second) {
        given_shown(alloc, plan, schema, first, second)
    } else {
        Err(Failure::NoCase)
    }
}

fn given_shown(
    alloc: Global,
    plan: &Plan,
    schema: &Schema,
    first: &[Given],
    second: &[Given],
) -> Result<String, Failure>
    requires fits { spec.fits (schema_of schema.now) (plan_of plan.now) ≡ true }
    requires named { AreOfChildren (plan_of plan.now) (map fact_of first.now) (map fact_of second.now) }
{
    let facts = given(alloc, plan, schema, &[first, second])?;
    let mut out = String::new(alloc);
    push_facts(&mut out, &facts)?;
    Ok(out)
}
