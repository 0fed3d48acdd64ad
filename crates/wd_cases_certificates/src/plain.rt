//! Whether facts are facts of the rows of a node's children.

ghost use Rattle.std.specs.Prelude.{◌≡◌, true, map};
ghost use Rattle.std.specs.List.{list_all};
ghost use Rattle.wd_step_facts.specs.Facts as spec;
ghost use Rattle.wd_facts.specs.Laws.{AreOfChildren, ArePlain};
ghost use Rattle.wd_plan.specs.Fits.{width};
ghost use Rattle.wd_plan.specs.Plans.{plan_of};

use wd_facts::{Given, Member};
use wd_plan::Plan;

fn is_plain(width: u32, member: Member) -> bool
    ensures { result ≡ spec.is_plain width member }
{
    match member {
        Member::Column(column) => u32::from(column) < width,
        Member::Row => true,
        _ => false,
    }
}

fn are_plain(width: u32, members: &[Member]) -> bool
    ensures { result ≡ list_all (spec.is_plain width) members.now }
{
    for member in members {
        if !is_plain(width, *member) {
            return false;
        }
    }
    true
}

fn are_plain_facts(width: u32, facts: &[Given]) -> bool
    ensures { result ≡ list_all (spec.is_plain_fact width) (map spec.fact_of facts.now) }
{
    for fact in facts {
        if !(are_plain(width, &fact.from) && are_plain(width, &fact.to)) {
            return false;
        }
    }
    true
}

/// Whether facts are facts of the rows of a plan.
#[tactic(auto, using(crate::proofs::Widths::capped))]
fn are_of(plan: &Plan, facts: &[Given]) -> bool
    ensures { result ≡ true → ArePlain (width (plan_of plan.now)) (map spec.fact_of facts.now) }
{
    are_plain_facts(plan.width(), facts)
}

/// Whether these facts are facts of a node's children; a node with one child has the first list.
pub fn are_of_children(plan: &Plan, first: &[Given], second: &[Given]) -> bool
    ensures { result ≡ true → AreOfChildren (plan_of plan.now) (map spec.fact_of first.now) (map spec.fact_of second.now) }
{
    match plan {
        Plan::Scan { .. } => true,
        Plan::Join { left, right, .. } => are_of(left, first) && are_of(right, second),
        Plan::Filter { input, .. }
        | Plan::Map { input, .. }
        | Plan::Group { input, .. }
        | Plan::Window { input, .. }
        | Plan::Distinct { input }
        | Plan::Limit { input, .. } => are_of(input, first),
    }
}
