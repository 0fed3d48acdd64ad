//! The evaluations of one instance.

ghost use Rattle.std.specs.Prelude.{◌≡◌, ◌+◌, ◌≤◌, min, true, IfOk};
ghost use Rattle.wd_plan.specs.Fits.{fits};
ghost use Rattle.wd_plan.specs.Plans.{plan_of};
ghost use Rattle.wd_schema.specs.Meets.{Meets};
ghost use Rattle.wd_schema.specs.Schemas.{schema_of};
ghost use Rattle.wd_seek.specs.Evaluations.{evaluations, most_evaluations};
ghost use Rattle.wd_seek.specs.Probed.{IsKeptOf, IsOther, IsProbed};
ghost use Rattle.wd_seek.specs.Searched.{IsSearched};
ghost use Rattle.wd_sizes.specs.Sizes.{IsBounded};
ghost use Rattle.wd_value.specs.Rows.{instance_of};

use crate::evaluated::{Evaluated, evaluate};
use crate::searched::Searched;
use crate::trailed::{First, agrees_turned, first_of};
use std::alloc::Global;
use wd_eval::{Turn, Turned};
use wd_plan::{Choice, Plan};
use wd_schema::Schema;
use wd_sizes::most_rows;
use wd_value::{Instance, OutOfMemory};

/// The most evaluations of a search.
pub(crate) const MOST_EVALUATIONS: u32 = 2000;

/// Two choices over an instance, under which the outcomes do not agree.
#[derive(Drop)]
pub(crate) struct Pair {
    pub first: Choice,
    pub second: Choice,
}

/// Evaluates a plan over an instance under the choice that keeps tied rows in their order, and then turns one ordering after another
/// until an outcome does not agree with the first. It gives up at a step of more than 10,000,000 rows, and at the most evaluations.
/// `spent` is the number of evaluations before; the result has that number with the evaluations made here.
pub(crate) fn probe(
    alloc: Global,
    schema: &Schema,
    plan: &Plan,
    instance: &Instance,
    turn: Turn,
    spent: u32,
) -> Result<(Option<Pair>, u32), OutOfMemory>
    requires fitting { fits (schema_of schema.now) (plan_of plan.now) ≡ true }
    requires few { spent ≤ most_evaluations }
    ensures few { IfOk result (λ r. r.1 ≤ most_evaluations) }
    ensures tried { IfOk result (λ r. IsProbed turn (plan_of plan.now) (instance_of instance.now.items) spent r.1 r.0) }
{
    if spent == MOST_EVALUATIONS {
        return Ok((None, spent));
    }
    let Some(first) = first_of(alloc, schema, plan, instance)? else {
        return Ok((None, spent + 1));
    };
    let (other, made) = other_choice(alloc, schema, plan, instance, &first, turn, spent + 1)?;
    drop(first);
    let Some(second) = other else {
        return Ok((None, made));
    };
    match evaluate(alloc, schema, plan, instance, None)? {
        Some(Evaluated { choice: first, .. }) => Ok((Some(Pair { first, second }), made)),
        None => Ok((None, spent + 1)),
    }
}

/// What the evaluations of a plan over an instance of the schema show, by those of the plan that is searched. Where that is known to have
/// one answer, and no step of it can be too large, they all agree, and none is made.
pub(crate) fn probe_searched(
    alloc: Global,
    schema: &Schema,
    plan: &Plan,
    searched: Searched<'_>,
    instance: &Instance,
    turn: Turn,
    spent: u32,
) -> Result<(Option<Pair>, u32), OutOfMemory>
    requires searched { IsSearched (schema_of schema.now) (plan_of plan.now) searched }
    requires meets { Meets (schema_of schema.now) (instance_of instance.now.items) }
    requires few { spent ≤ most_evaluations }
    ensures few { IfOk result (λ r. r.1 ≤ most_evaluations) }
    ensures tried { IfOk result (λ r. IsProbed turn (plan_of plan.now) (instance_of instance.now.items) spent r.1 r.0) }
{
    if all_agree(searched.plan, searched.has_one, instance) {
        return Ok((None, all_made(searched.plan, spent)));
    }
    probe(alloc, schema, searched.plan, instance, turn, spent)
}

/// Whether all evaluations are known to agree: the plan has one answer, and no step of it can be too large over the instance.
fn all_agree(plan: &Plan, has_one: bool, instance: &Instance) -> bool
    ensures one { result ≡ true → has_one ≡ true }
    ensures bounded { result ≡ true → IsBounded (plan_of plan.now) (instance_of instance.now.items) }
{
    match most_rows(plan, instance) {
        Some(_) => has_one,
        None => false,
    }
}

/// The number of evaluations after those of one candidate of a plan, up to the most.
fn all_made(plan: &Plan, spent: u32) -> u32
    requires { spent ≤ most_evaluations }
    ensures { result ≡ min (spent + evaluations (plan_of plan.now)) most_evaluations }
{
    let left = MOST_EVALUATIONS - spent;
    if plan.orderings() < left {
        spent + plan.orderings() + 1
    } else {
        MOST_EVALUATIONS
    }
}

/// Turns one ordering after another until the outcome does not agree with the first; the result is the choice under which it does not,
/// and the number of evaluations. One whose outcome is known to agree from what is kept of the first counts, and is not made.
fn other_choice(
    alloc: Global,
    schema: &Schema,
    plan: &Plan,
    instance: &Instance,
    first: &First,
    turn: Turn,
    spent: u32,
) -> Result<(Option<Choice>, u32), OutOfMemory>
    requires fitting { fits (schema_of schema.now) (plan_of plan.now) ≡ true }
    requires first { IsKeptOf (plan_of plan.now) (instance_of instance.now.items) first.now }
    requires few { spent ≤ most_evaluations }
    ensures few { IfOk result (λ r. r.1 ≤ most_evaluations) }
    ensures other { IfOk result (λ r. IsOther turn (plan_of plan.now) (instance_of instance.now.items) first.now.outcome spent r.1 r.0) }
{
    let orderings = plan.orderings();
    for flipped in 0..orderings {
        let made = spent + flipped;
        if made == MOST_EVALUATIONS {
            return Ok((None, made));
        }
        if agrees_turned(alloc, plan, first, flipped, turn) {
            continue;
        }
        let turned = Turned {
            number: flipped,
            turn,
        };
        let Some(other) = evaluate(alloc, schema, plan, instance, Some(turned))? else {
            return Ok((None, made + 1));
        };
        if !first.outcome.agrees(&other.outcome) {
            return Ok((Some(other.choice), made + 1));
        }
    }
    Ok((None, spent + orderings))
}
