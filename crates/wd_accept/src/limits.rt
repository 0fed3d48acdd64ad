//! The Limit that gives an answer's rows their order.

ghost use Rattle.std.specs.Prelude.{◌≡◌, map};
ghost use Rattle.wd_certificate.specs.Certificates.{node_of};
ghost use Rattle.wd_plan.specs.Plans.{node_count, plan_of};
ghost use Rattle.wd_resolve.specs.Answers.{resolved_of};
ghost use Rattle.wd_rules.specs.Lists as rules;
ghost use Rattle.wd_accept.specs.Lists as spec;

use wd_certificate::Node;
use wd_plan::Plan;
use wd_resolve::Resolved;

/// The number of the last Limit of a plan with `nodes` nodes, where only Maps are above it.
fn final_limit(plan: &Plan, nodes: u64) -> Option<u64>
    requires { nodes ≡ node_count (plan_of plan.now) }
    ensures { result ≡ rules.final_limit (plan_of plan.now) 0 }
{
    match plan {
        Plan::Map { input, .. } => final_limit(input, nodes - 1),
        Plan::Limit { .. } => Some(nodes - 1),
        _ => None,
    }
}

/// The number of the answer's Limit of a plan with `nodes` nodes: of the last Limit in postorder, where the outermost select has ORDER BY.
pub fn answer_limit(resolved: &Resolved, nodes: u64) -> Option<u64>
    requires { nodes ≡ node_count (plan_of resolved.now.plan) }
    ensures { result ≡ spec.answer_limit (resolved_of resolved.now) }
{
    if resolved.ordered {
        final_limit(&resolved.plan, nodes)
    } else {
        None
    }
}

/// Whether there is an answer's Limit and its entry names a trace, so that the Limit goes by `keys`.
pub fn goes_by_keys(nodes: &[Node], limit: Option<u64>) -> bool
    ensures { result ≡ rules.goes_by_keys (map node_of nodes.now) limit }
{
    match limit {
        None => false,
        Some(number) => match nodes.get(number as usize) {
            Some(node) => node.limit.is_some(),
            None => false,
        },
    }
}
