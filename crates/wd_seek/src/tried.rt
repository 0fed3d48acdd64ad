//! The candidates for one call or limit, and their evaluations.

ghost use Rattle.std.specs.Prelude.{◌≡◌, ◌≤◌, [], ◌∷◌, map, filter, true, IfOk};
ghost use Rattle.wd_candidates.specs.Candidates.{candidate as candidate_of, shapes as all_shapes};
ghost use Rattle.wd_candidates.specs.Outlines.{AreTied, IsOutline};
ghost use Rattle.wd_candidates.specs.Tied.{NodeColumns};
ghost use Rattle.wd_plan.specs.Fits.{fits};
ghost use Rattle.wd_partition.specs.declared.turn.Turn.TheVariants.{Reversed};
ghost use Rattle.wd_plan.specs.Plans.{plan_of};
ghost use Rattle.wd_seek.specs.Evaluations.{most_evaluations};
ghost use Rattle.wd_schema.specs.Meets.{Meets};
ghost use Rattle.wd_schema.specs.Schemas.{schema_of};
ghost use Rattle.wd_seek.specs.Searched.{IsSearched};
ghost use Rattle.wd_seek.specs.Sought.{IsSought, is_meeting};
ghost use Rattle.wd_seek.specs.Tried.{IsTried};
ghost use Rattle.wd_seek.specs.Witnesses.{HasFewRows};
ghost use Rattle.wd_value.specs.Rows.{instance_of};

use crate::probed::{MOST_EVALUATIONS, probe_searched};
use crate::searched::Searched;
use crate::witness::{names_differ, witness_over};
use std::alloc::Global;
use wd_candidates::{Outline, Shape, TiedColumns, candidate, shapes};
use wd_eval::Turn;
use wd_plan::Plan;
use wd_schema::{Schema, meets};
use wd_value::{Instance, OutOfMemory};
use wd_witness_text::Witness;

/// Tries the candidates of all shapes.
pub(crate) fn try_shapes(
    alloc: Global,
    schema: &Schema,
    plan: &Plan,
    searched: Searched<'_>,
    outline: &Outline,
    tied: &TiedColumns,
    spent: u32,
) -> Result<(Option<Witness>, u32), OutOfMemory>
    requires searched { IsSearched (schema_of schema.now) (plan_of plan.now) searched }
    requires outline { IsOutline (schema_of schema.now) (plan_of plan.now) outline.now }
    requires few { spent ≤ most_evaluations }
    ensures few { IfOk result (λ r. r.1 ≤ most_evaluations) }
    ensures sought { IfOk result (λ r. (o : NodeColumns) → AreTied (schema_of schema.now) o tied.now → IsSought Reversed (schema_of schema.now) (plan_of plan.now) (filter (is_meeting (schema_of schema.now)) (map (candidate_of (schema_of schema.now) (plan_of plan.now) o) all_shapes)) spent r.0 r.1) }
{
    let mut total = spent;
    for shape in &shapes() {
        let (found, made) = try_shape(alloc, schema, plan, searched, outline, tied, *shape, total)?;
        if let Some(witness) = found {
            return Ok((Some(witness), made));
        }
        total = made;
    }
    Ok((None, total))
}

/// Tries the candidate of a shape, if an evaluation is left.
fn try_shape(
    alloc: Global,
    schema: &Schema,
    plan: &Plan,
    searched: Searched<'_>,
    outline: &Outline,
    tied: &TiedColumns,
    shape: Shape,
    spent: u32,
) -> Result<(Option<Witness>, u32), OutOfMemory>
    requires searched { IsSearched (schema_of schema.now) (plan_of plan.now) searched }
    requires outline { IsOutline (schema_of schema.now) (plan_of plan.now) outline.now }
    requires small { shape.rows ≤ 64 }
    requires few { spent ≤ most_evaluations }
    ensures few { IfOk result (λ r. r.1 ≤ most_evaluations) }
    ensures sought { IfOk result (λ r. (o : NodeColumns) → AreTied (schema_of schema.now) o tied.now → IsSought Reversed (schema_of schema.now) (plan_of plan.now) (filter (is_meeting (schema_of schema.now)) (candidate_of (schema_of schema.now) (plan_of plan.now) o shape ∷ [])) spent r.0 r.1) }
{
    if spent == MOST_EVALUATIONS {
        return Ok((None, spent));
    }
    let instance = candidate(alloc, schema, outline, tied, shape)?;
    try_lighter(
        alloc,
        schema,
        plan,
        searched,
        outline,
        instance,
        Turn::Reversed,
        spent,
    )
}

/// Tries an instance of a plan's tables, if it meets the schema: under the orderings that keep tied rows in their order, and with one
/// ordering after another that takes them in the given turn. The result is the witness over the instance, where two outcomes do not
/// agree, and the number of evaluations, including those before.
pub fn try_candidate(
    alloc: Global,
    schema: &Schema,
    plan: &Plan,
    outline: &Outline,
    instance: Instance,
    turn: Turn,
    spent: u32,
) -> Result<(Option<Witness>, u32), OutOfMemory>
    requires fitting { fits (schema_of schema.now) (plan_of plan.now) ≡ true }
    requires outline { IsOutline (schema_of schema.now) (plan_of plan.now) outline.now }
    requires few { spent ≤ most_evaluations }
    ensures few { IfOk result (λ r. r.1 ≤ most_evaluations) }
    ensures sought { IfOk result (λ r. HasFewRows (schema_of schema.now) (plan_of plan.now) (instance_of instance.items) → IsSought turn (schema_of schema.now) (plan_of plan.now) (filter (is_meeting (schema_of schema.now)) (instance_of instance.items ∷ [])) spent r.0 r.1) }
{
    let searched = Searched {
        plan,
        has_one: false,
    };
    try_lighter(
        alloc, schema, plan, searched, outline, instance, turn, spent,
    )
}

/// Tries an instance as `try_candidate` does, and evaluates it over the lighter plan.
fn try_lighter(
    alloc: Global,
    schema: &Schema,
    plan: &Plan,
    searched: Searched<'_>,
    outline: &Outline,
    instance: Instance,
    turn: Turn,
    spent: u32,
) -> Result<(Option<Witness>, u32), OutOfMemory>
    requires searched { IsSearched (schema_of schema.now) (plan_of plan.now) searched }
    requires outline { IsOutline (schema_of schema.now) (plan_of plan.now) outline.now }
    requires few { spent ≤ most_evaluations }
    ensures few { IfOk result (λ r. r.1 ≤ most_evaluations) }
    ensures sought { IfOk result (λ r. HasFewRows (schema_of schema.now) (plan_of plan.now) (instance_of instance.items) → IsSought turn (schema_of schema.now) (plan_of plan.now) (filter (is_meeting (schema_of schema.now)) (instance_of instance.items ∷ [])) spent r.0 r.1) }
{
    match meets(schema, &instance) {
        Ok(()) => try_instance(
            alloc, schema, plan, searched, outline, instance, turn, spent,
        ),
        Err(_) => Ok((None, spent)),
    }
}

/// Evaluates an instance; the result is the witness over it, where two outcomes do not agree.
fn try_instance(
    alloc: Global,
    schema: &Schema,
    plan: &Plan,
    searched: Searched<'_>,
    outline: &Outline,
    instance: Instance,
    turn: Turn,
    spent: u32,
) -> Result<(Option<Witness>, u32), OutOfMemory>
    requires searched { IsSearched (schema_of schema.now) (plan_of plan.now) searched }
    requires meets { Meets (schema_of schema.now) (instance_of instance.items) }
    requires few { spent ≤ most_evaluations }
    ensures few { IfOk result (λ r. r.1 ≤ most_evaluations) }
    ensures tried { IfOk result (λ r. IsTried turn (schema_of schema.now) (plan_of plan.now) outline.now (instance_of instance.items) spent r.0 r.1) }
{
    names_differ(schema);
    let (pair, spent) = probe_searched(alloc, schema, plan, searched, &instance, turn, spent)?;
    match pair {
        None => Ok((None, spent)),
        Some(pair) => {
            let witness = witness_over(alloc, schema, outline, instance, pair)?;
            Ok((Some(witness), spent))
        }
    }
}
