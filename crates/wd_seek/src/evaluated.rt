//! The evaluation of a plan under one choice.

ghost use Rattle.std.specs.Prelude.{◌≡◌, true, IfOk};
ghost use Rattle.wd_plan.specs.Fits.{fits};
ghost use Rattle.wd_plan.specs.Plans.{plan_of};
ghost use Rattle.wd_schema.specs.Schemas.{schema_of};
ghost use Rattle.wd_seek.specs.Probed.{IsEvaluated};
ghost use Rattle.wd_value.specs.Rows.{instance_of};

use std::alloc::Global;
use wd_eval::{EvalError, Turned, TurnedAnswer, answer_turned};
use wd_plan::{Choice, Plan};
use wd_refute::SortedOutcome;
use wd_schema::Schema;
use wd_value::{Instance, OutOfMemory};

/// A choice, and the outcome under it, prepared for comparison.
#[derive(Drop)]
pub(crate) struct Evaluated {
    pub choice: Choice,
    pub outcome: SortedOutcome,
}

/// The plan's outcome over an instance under the choice that turns an ordering or none; `None` where a step is too large.
pub(crate) fn evaluate(
    alloc: Global,
    schema: &Schema,
    plan: &Plan,
    instance: &Instance,
    turned: Option<Turned>,
) -> Result<Option<Evaluated>, OutOfMemory>
    requires { fits (schema_of schema.now) (plan_of plan.now) ≡ true }
    ensures { IfOk result (IsEvaluated (plan_of plan.now) (instance_of instance.now.items) turned) }
{
    match answer_turned(alloc, plan, schema, instance, turned) {
        Ok(TurnedAnswer { choice, answer }) => {
            let outcome = SortedOutcome::new(alloc, answer)?;
            Ok(Some(Evaluated { choice, outcome }))
        }
        Err(EvalError::OutOfMemory) => Err(OutOfMemory),
        Err(_) => Ok(None),
    }
}
