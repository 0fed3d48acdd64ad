//! The answers of a query under the two choices of a witness.

ghost use Rattle.std.specs.Prelude.{◌≡◌, true, IfOk, IfSome};
ghost use Rattle.wd_eval.specs.Judged.{IsOutcome};
ghost use Rattle.wd_finding.specs.Findings.{AreUnder};
ghost use Rattle.wd_plan.specs.Fits.{fits};
ghost use Rattle.wd_plan.specs.Outcomes.{outcome_of};
ghost use Rattle.wd_plan.specs.Plans.{plan_of};
ghost use Rattle.wd_schema.specs.Schemas.{schema_of};
ghost use Rattle.wd_value.specs.Rows.{instance_of};
ghost use Rattle.wd_witness_text.specs.Witnesses.{positions_of, witness_of};

use std::alloc::Global;
use wd_eval::{EvalError, eval_with};
use wd_plan::{Choice, Outcome};
use wd_query::PlannedQuery;
use wd_value::{Instance, OutOfMemory};
use wd_witness_text::Witness;

/// The outcomes of a query under the two choices of a witness.
#[derive(Drop)]
pub struct Answers {
    pub first: Outcome,
    pub second: Outcome,
}

/// The answers of a query over a witness's tables. `None` where a choice is not valid or a step has more than 10,000,000 rows.
pub(crate) fn answers_under(
    alloc: Global,
    planned: &PlannedQuery,
    witness: &Witness,
) -> Result<Option<Answers>, OutOfMemory>
    requires { fits (schema_of planned.now.schema) (plan_of planned.now.resolved.plan) ≡ true }
    ensures { IfOk result (λ found. IfSome found (AreUnder (schema_of planned.now.schema) (plan_of planned.now.resolved.plan) (witness_of witness.now))) }
{
    let instance = witness.instance(alloc, &planned.schema)?;
    let first = outcome_under(alloc, planned, &instance, &witness.first)?;
    let second = outcome_under(alloc, planned, &instance, &witness.second)?;
    match (first, second) {
        (Some(first), Some(second)) => Ok(Some(Answers { first, second })),
        _ => Ok(None),
    }
}

/// The answer over an instance under one choice.
fn outcome_under(
    alloc: Global,
    planned: &PlannedQuery,
    instance: &Instance,
    choice: &Choice,
) -> Result<Option<Outcome>, OutOfMemory>
    requires { fits (schema_of planned.now.schema) (plan_of planned.now.resolved.plan) ≡ true }
    ensures { IfOk result (λ found. IfSome found (λ o. IsOutcome (plan_of planned.now.resolved.plan) (instance_of instance.now.items) (positions_of choice.now.orderings.items) (outcome_of o))) }
{
    match eval_with(
        alloc,
        &planned.resolved.plan,
        &planned.schema,
        instance,
        choice,
    ) {
        Ok(outcome) => Ok(Some(outcome)),
        Err(EvalError::OutOfMemory) => Err(OutOfMemory),
        Err(_) => Ok(None),
    }
}
