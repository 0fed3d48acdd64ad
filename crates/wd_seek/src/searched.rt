//! The plan over which candidates are evaluated.

ghost use Rattle.std.specs.Prelude.{◌≡◌, true, IfOk};
ghost use Rattle.wd_plan.specs.Fits.{fits};
ghost use Rattle.wd_plan.specs.Plans.{plan_of};
ghost use Rattle.wd_rules.specs.Laws.{HasOneAnswer};
ghost use Rattle.wd_schema.specs.Schemas.{schema_of};

use std::alloc::Global;
use wd_analyse::{Analysis, analyse};
use wd_plan::Plan;
use wd_rules::laws::valid_has_one;
use wd_schema::Schema;
use wd_value::OutOfMemory;

/// A plan that is searched in place of another one, and whether it is known to have one answer.
#[derive(Clone, Copy)]
pub(crate) struct Searched<'a> {
    pub plan: &'a Plan,
    pub has_one: bool,
}

/// Whether an analysis certifies that the plan has one answer.
pub(crate) fn has_one_answer(
    alloc: Global,
    schema: &Schema,
    plan: &Plan,
) -> Result<bool, OutOfMemory>
    requires { fits (schema_of schema.now) (plan_of plan.now) ≡ true }
    ensures { IfOk result (λ b. b ≡ true → HasOneAnswer (schema_of schema.now) (plan_of plan.now)) }
{
    valid_has_one();
    match analyse(alloc, plan, schema)? {
        Analysis::Certified(_) => Ok(true),
        Analysis::Open(_, _) => Ok(false),
    }
}
