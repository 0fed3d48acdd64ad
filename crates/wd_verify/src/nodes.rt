//! The entries of a plan's nodes in postorder.

ghost use Rattle.std.specs.Prelude.{◌≡◌, ◌≢◌, ◌+◌, ◌-◌, ◌≤◌, ◌<◌, true, length, map, None, Some, IfOk, IfErr, IfSome, IfNone};
ghost use Rattle.wd_schema.specs.Schemas.{schema_of};
ghost use Rattle.wd_plan.specs.Fits as fitting;
ghost use Rattle.wd_plan.specs.Plans.{node_count, plan_of};
ghost use Rattle.wd_certificate.specs.Certificates.{node_of};
ghost use Rattle.wd_facts.specs.Given.{given};
ghost use Rattle.wd_facts.specs.Laws.{AreOfChildren, ArePlain};
ghost use Rattle.wd_rules.specs.Rules as rules;
ghost use Rattle.wd_rules.specs.Validity as spec;
ghost use Rattle.wd_verify.specs.Lean.{lean_of};
ghost use Rattle.wd_node_facts.specs.Seen.{HasNoOther, facts_kept};

use crate::entry::check_entry;
use std::alloc::Global;
use wd_certificate::{CertError, Node};
use wd_node_facts::Keeps;
use wd_plan::Plan;
use wd_schema::Schema;

/// How many of the entries are left when each node of the plan has taken one; `None` where there are too few.
pub(crate) fn entries_left(plan: &Plan, entries: usize) -> Option<usize>
    ensures enough { IfSome result (λ n. n + node_count (plan_of plan.now) ≡ entries) }
    ensures few { IfNone result (entries < node_count (plan_of plan.now)) }
{
    let left = match plan {
        Plan::Scan { .. } => entries,
        Plan::Join { left, right, .. } => entries_left(right, entries_left(left, entries)?)?,
        Plan::Filter { input, .. }
        | Plan::Map { input, .. }
        | Plan::Group { input, .. }
        | Plan::Window { input, .. }
        | Plan::Distinct { input }
        | Plan::Limit { input, .. } => entries_left(input, entries)?,
    };
    left.checked_sub(1)
}

/// Whether an entry has a limit only at a Limit.
fn has_its_limit(plan: &Plan, entry: &Node) -> bool
    ensures { result ≡ spec.has_its_limit (plan_of plan.now) (node_of entry.now) }
{
    match plan {
        Plan::Limit { .. } => true,
        _ => entry.limit.is_none(),
    }
}

/// Whether an entry has as many rules as its node has calls.
fn has_its_calls(plan: &Plan, entry: &Node) -> bool
    ensures { result ≡ spec.has_its_calls (plan_of plan.now) (node_of entry.now) }
{
    match plan {
        Plan::Window { window, .. } => entry.calls.len() == window.calls.len(),
        _ => entry.calls.is_empty(),
    }
}

/// What a first look over the entries of a plan finds.
#[derive(Drop)]
pub(crate) struct Seen {
    /// The number after the plan's top node.
    next: usize,
    /// Whether only Limits have limits.
    pub(crate) limits: bool,
    /// Whether each node has as many rules as calls.
    pub(crate) calls: bool,
}

/// Looks over the entries of a plan, whose nodes are numbered from `first` on.
pub(crate) fn look_over(plan: &Plan, nodes: &[Node], first: usize) -> Seen
    requires { first + node_count (plan_of plan.now) ≤ length nodes.now }
    ensures next { result.next ≡ first + node_count (plan_of plan.now) }
    ensures limits { result.limits ≡ spec.all_entries spec.has_its_limit (plan_of plan.now) first (map node_of nodes.now) }
    ensures calls { result.calls ≡ spec.all_entries spec.has_its_calls (plan_of plan.now) first (map node_of nodes.now) }
{
    let below = match plan {
        Plan::Scan { .. } => Seen {
            next: first,
            limits: true,
            calls: true,
        },
        Plan::Join { left, right, .. } => {
            let left = look_over(left, nodes, first);
            let right = look_over(right, nodes, left.next);
            Seen {
                next: right.next,
                limits: left.limits && right.limits,
                calls: left.calls && right.calls,
            }
        }
        Plan::Filter { input, .. }
        | Plan::Map { input, .. }
        | Plan::Group { input, .. }
        | Plan::Window { input, .. }
        | Plan::Distinct { input }
        | Plan::Limit { input, .. } => look_over(input, nodes, first),
    };
    let entry = &nodes[below.next];
    Seen {
        next: below.next + 1,
        limits: below.limits && has_its_limit(plan, entry),
        calls: below.calls && has_its_calls(plan, entry),
    }
}

/// The result for a plan whose entries are valid.
#[derive(Drop)]
pub(crate) struct Checked {
    /// The number after the plan's top node.
    next: usize,
    /// What the top node's entry keeps.
    kept: Keeps,
}

/// Checks the entry of a plan's top node, which has this number and whose children keep these facts.
#[tactic(auto, using(wd_plan::proofs::Ranges::narrow))]
fn check_top(
    alloc: Global,
    plan: &Plan,
    schema: &Schema,
    nodes: &[Node],
    number: usize,
    left: Keeps,
    right: Keeps,
) -> Result<Checked, CertError>
    requires fits { fitting.fits (schema_of schema.now) (plan_of plan.now) ≡ true }
    requires within { number < length nodes.now }
    requires named { AreOfChildren (plan_of plan.now) (facts_kept left) (facts_kept right) }
    requires alone { HasNoOther (plan_of plan.now) (facts_kept left) (facts_kept right) }
    ensures next { IfOk result (λ c. c.next ≡ number + 1) }
    ensures plain { IfOk result (λ c. ArePlain (fitting.width (plan_of plan.now)) (facts_kept c.kept)) }
    ensures kept { IfOk result (λ c. facts_kept c.kept ≡ rules.kept_facts (spec.entry_at (map lean_of nodes.now) number)) }
    ensures passed { IfOk result (λ _. rules.entry_refusal number (given (schema_of schema.now) (plan_of plan.now) (facts_kept left) (facts_kept right)) (plan_of plan.now) (spec.entry_at (map lean_of nodes.now) number) ≡ None) }
    ensures refused { IfErr result (λ e. e ≢ CertError.OutOfMemory → rules.entry_refusal number (given (schema_of schema.now) (plan_of plan.now) (facts_kept left) (facts_kept right)) (plan_of plan.now) (spec.entry_at (map lean_of nodes.now) number) ≡ Some e) }
{
    let entry = &nodes[number];
    let kept = check_entry(alloc, plan, schema, number as u64, entry, left, right)?;
    Ok(Checked {
        next: number + 1,
        kept,
    })
}

/// Checks the entries of a plan's nodes, which are numbered from `first` on.
pub(crate) fn check_nodes(
    alloc: Global,
    plan: &Plan,
    schema: &Schema,
    nodes: &[Node],
    first: usize,
) -> Result<Checked, CertError>
    requires fits { fitting.fits (schema_of schema.now) (plan_of plan.now) ≡ true }
    requires within { first + node_count (plan_of plan.now) ≤ length nodes.now }
    ensures next { IfOk result (λ c. c.next ≡ first + node_count (plan_of plan.now)) }
    ensures plain { IfOk result (λ c. ArePlain (fitting.width (plan_of plan.now)) (facts_kept c.kept)) }
    ensures kept { IfOk result (λ c. facts_kept c.kept ≡ rules.kept_facts (spec.top_at (plan_of plan.now) first (map lean_of nodes.now))) }
    ensures passed { IfOk result (λ _. spec.nodes_refusal (schema_of schema.now) (plan_of plan.now) first (map lean_of nodes.now) ≡ None) }
    ensures refused { IfErr result (λ e. e ≢ CertError.OutOfMemory → spec.nodes_refusal (schema_of schema.now) (plan_of plan.now) first (map lean_of nodes.now) ≡ Some e) }
{
    match plan {
        Plan::Scan { .. } => {
            let (left, right) = (Keeps::none(alloc), Keeps::none(alloc));
            check_top(alloc, plan, schema, nodes, first, left, right)
        }
        Plan::Join { left, right, .. } => {
            let left = check_nodes(alloc, left, schema, nodes, first)?;
            let right = check_nodes(alloc, right, schema, nodes, left.next)?;
            check_top(
                alloc, plan, schema, nodes, right.next, left.kept, right.kept,
            )
        }
        Plan::Filter { input, .. }
        | Plan::Map { input, .. }
        | Plan::Group { input, .. }
        | Plan::Window { input, .. }
        | Plan::Distinct { input }
        | Plan::Limit { input, .. } => {
            let below = check_nodes(alloc, input, schema, nodes, first)?;
            let right = Keeps::none(alloc);
            check_top(alloc, plan, schema, nodes, below.next, below.kept, right)
        }
    }
}
