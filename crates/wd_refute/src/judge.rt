//! Whether a witness is true of a plan.

ghost use Rattle.std.specs.Prelude.{◌≡◌, true, OnOk, IfOk, IfErr};
ghost use Rattle.wd_plan.specs.Fits.{fits};
ghost use Rattle.wd_plan.specs.Plans.{plan_of};
ghost use Rattle.wd_refute.specs.Refutation.{IsTrue, RefusesChoices, RefusesText, RefusesWitness, SpellsTrue};
ghost use Rattle.wd_refute.specs.Judged.{Differ, IsOutcomeUnder, RefusesChoice};
ghost use Rattle.wd_refute.specs.Kept.{IsKeptUnder};
ghost use Rattle.wd_schema.specs.Schemas.{schema_of};
ghost use Rattle.wd_value.specs.Rows.{instance_of};
ghost use Rattle.wd_witness_text.specs.Witnesses.{positions_of, witness_of};

use crate::error::Refusal;
use crate::kept::Kept;
use std::alloc::Global;
use std::hash::{DefaultHasher, Hasher};
use wd_eval::{Answer, EvalError, answer_with};
use wd_plan::{Choice, Plan};
use wd_schema::{Schema, meets};
use wd_sort::Seeded;
use wd_value::Instance;
use wd_witness_text::{Witness, read_witness};

/// Whether a text spells a true witness of a plan.
pub(crate) fn refute_plan(
    alloc: Global,
    schema: &Schema,
    plan: &Plan,
    witness: &[u8],
) -> Result<(), Refusal>
    requires { fits (schema_of schema.now) (plan_of plan.now) ≡ true }
    ensures refuted { OnOk result (SpellsTrue witness.now (schema_of schema.now) (plan_of plan.now)) }
    ensures refused { IfErr result (λ r. RefusesText r witness.now (schema_of schema.now) (plan_of plan.now)) }
{
    let seeded = seed_from(witness);
    let witness = read_witness(alloc, schema, witness)?;
    check(alloc, schema, plan, &witness, seeded)
}

/// A seed for the hashes of the values that the plan makes of a witness's values, computed from the witness's text.
fn seed_from(witness: &[u8]) -> Seeded {
    let mut all = DefaultHasher::new();
    all.write(witness);
    Seeded::by(&all)
}

/// Whether a witness is true of a plan.
fn check(
    alloc: Global,
    schema: &Schema,
    plan: &Plan,
    witness: &Witness,
    seeded: Seeded,
) -> Result<(), Refusal>
    requires { fits (schema_of schema.now) (plan_of plan.now) ≡ true }
    ensures is_true { OnOk result (IsTrue (schema_of schema.now) (plan_of plan.now) (witness_of witness.now)) }
    ensures refused { IfErr result (λ r. RefusesWitness r (schema_of schema.now) (plan_of plan.now) (witness_of witness.now)) }
{
    let instance = witness.instance(alloc, schema)?;
    if meets(schema, &instance).is_err() {
        return Err(Refusal::NotMet);
    }
    differ(alloc, schema, plan, &instance, witness, seeded)
}

/// Whether a plan's outcomes over an instance differ under the two choices of a witness. Where the rows of the first outcome have
/// numbers, they are dropped before the second outcome is evaluated.
fn differ(
    alloc: Global,
    schema: &Schema,
    plan: &Plan,
    instance: &Instance,
    witness: &Witness,
    seeded: Seeded,
) -> Result<(), Refusal>
    requires fits { fits (schema_of schema.now) (plan_of plan.now) ≡ true }
    ensures differ { OnOk result (Differ (plan_of plan.now) (instance_of instance.now.items) (positions_of witness.now.first.orderings.items) (positions_of witness.now.second.orderings.items)) }
    ensures refused { IfErr result (λ r. RefusesChoices r (plan_of plan.now) (instance_of instance.now.items) (positions_of witness.now.first.orderings.items) (positions_of witness.now.second.orderings.items)) }
{
    let first = keep_under(alloc, schema, plan, instance, &witness.first, seeded)?;
    let second = answer_under(alloc, schema, plan, instance, &witness.second)?;
    if first.agrees(alloc, second)? {
        return Err(Refusal::OneAnswer);
    }
    Ok(())
}

/// What is kept of a plan's outcome over an instance under a choice.
fn keep_under(
    alloc: Global,
    schema: &Schema,
    plan: &Plan,
    instance: &Instance,
    choice: &Choice,
    seeded: Seeded,
) -> Result<Kept, Refusal>
    requires { fits (schema_of schema.now) (plan_of plan.now) ≡ true }
    ensures kept { IfOk result (λ k. IsKeptUnder (plan_of plan.now) (instance_of instance.now.items) (positions_of choice.now.orderings.items) k) }
    ensures refused { IfErr result (λ r. RefusesChoice r (plan_of plan.now) (instance_of instance.now.items) (positions_of choice.now.orderings.items)) }
{
    let answer = answer_under(alloc, schema, plan, instance, choice)?;
    let kept = Kept::new(alloc, answer, seeded)?;
    Ok(kept)
}

/// A plan's outcome over an instance under a choice.
fn answer_under(
    alloc: Global,
    schema: &Schema,
    plan: &Plan,
    instance: &Instance,
    choice: &Choice,
) -> Result<Answer, Refusal>
    requires { fits (schema_of schema.now) (plan_of plan.now) ≡ true }
    ensures outcome { IfOk result (λ o. IsOutcomeUnder (plan_of plan.now) (instance_of instance.now.items) (positions_of choice.now.orderings.items) o) }
    ensures refused { IfErr result (λ r. RefusesChoice r (plan_of plan.now) (instance_of instance.now.items) (positions_of choice.now.orderings.items)) }
{
    match answer_with(alloc, plan, schema, instance, choice) {
        Ok(answer) => Ok(answer),
        Err(EvalError::NotValid(_)) => Err(Refusal::NotValid),
        Err(EvalError::TooManyRows) => Err(Refusal::TooManyRows),
        Err(EvalError::OutOfMemory) => Err(Refusal::OutOfMemory),
    }
}
