//! A lighter plan.

ghost use Rattle.std.specs.Prelude.{◌≡◌, true, IfOk};
ghost use Rattle.wd_lighter.specs.Lighter.{IsLighter};
ghost use Rattle.wd_plan.specs.Fits.{fits};
ghost use Rattle.wd_plan.specs.Plans.{plan_of};
ghost use Rattle.wd_schema.specs.Schemas.{schema_of};

use crate::copied::copied_plan;
use std::alloc::Global;
use wd_plan::Plan;
use wd_schema::Schema;
use wd_simpler::simpler;
use wd_value::OutOfMemory;

/// A plan that is searched as this one is, without what nothing reads: its sorted choices are choices of this plan, with the same outcomes.
pub fn lighter(alloc: Global, schema: &Schema, plan: &Plan) -> Result<Plan, OutOfMemory>
    requires { fits (schema_of schema.now) (plan_of plan.now) ≡ true }
    ensures { IfOk result (λ p. IsLighter (schema_of schema.now) (plan_of plan.now) (plan_of p)) }
{
    let simple = simpler(alloc, schema, copied_plan(alloc, plan)?)?;
    if simple.fits(schema) {
        Ok(simple)
    } else {
        copied_plan(alloc, plan)
    }
}
