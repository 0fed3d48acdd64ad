//! Which versions of certificates are allowed for a plan.

ghost use Rattle.std.specs.Prelude.{◌≡◌};
ghost use Rattle.wd_plan.specs.Plans.{plan_of};
ghost use Rattle.wd_rules.specs.Validity as validity;

use wd_certificate::Version;
use wd_plan::Plan;

/// Whether some node of a plan is a Group.
fn has_group(plan: &Plan) -> bool
    ensures { result ≡ validity.has_group (plan_of plan.now) }
{
    match plan {
        Plan::Scan { .. } => false,
        Plan::Group { .. } => true,
        Plan::Join { left, right, .. } => has_group(left) || has_group(right),
        Plan::Filter { input, .. }
        | Plan::Map { input, .. }
        | Plan::Window { input, .. }
        | Plan::Distinct { input }
        | Plan::Limit { input, .. } => has_group(input),
    }
}

/// The least version whose certificates may describe the plan: 2 where a node is a Group, else 1.
pub fn version_needed(plan: &Plan) -> Version
    ensures { result ≡ validity.version_needed (plan_of plan.now) }
{
    if has_group(plan) {
        Version::Two
    } else {
        Version::One
    }
}

/// Whether a version is allowed for a plan: version 2 for every plan, version 1 for a plan without a Group.
pub fn is_read_for(plan: &Plan, version: Version) -> bool
    ensures { result ≡ validity.is_read_for (plan_of plan.now) version }
{
    match version {
        Version::One => !has_group(plan),
        Version::Two => true,
    }
}
