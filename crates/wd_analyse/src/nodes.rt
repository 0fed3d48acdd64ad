//! The nodes of a plan in postorder.

ghost use Rattle.std.specs.Prelude.{◌≡◌, true, [], map, IfOk};
ghost use Rattle.wd_step_facts.specs.Facts.{fact_of, kept_by};
ghost use Rattle.wd_facts.specs.Laws.{AreOfChildren};
ghost use Rattle.wd_plan.specs.Fits.{fits};
ghost use Rattle.wd_plan.specs.Plans.{limit_of, plan_of};
ghost use Rattle.wd_plan.specs.Plans as plans;
ghost use Rattle.wd_schema.specs.Schemas.{schema_of};
ghost use Rattle.wd_analyse.specs.Analysis.{IsAnswer};
ghost use Rattle.wd_analyse.specs.Lists.{IsLack, IsLackOf};
ghost use Rattle.wd_analyse.specs.Steps.{Finds, FindsTop};

use crate::analysis::Analysis;
use crate::closed::close;
use crate::decided::missing;
use crate::entry::{Findings, Here, found_entry, key_columns};
use crate::kept::kept_facts;
use crate::search::claims_of;
use crate::sources::{sources_of, width};
use std::alloc::Global;
use wd_certificate::{Certificate, Node};
use wd_close::Prepared;
use wd_facts::{Given, given};
use wd_plan::{Limit, Plan};
use wd_rules::version_needed;
use wd_schema::Schema;
use wd_value::OutOfMemory;

/// What is found of a plan's nodes: their entries, and what is said of them.
#[derive(Drop)]
struct Found {
    nodes: Vec<Node>,
    findings: Findings,
}

/// Nothing is found yet.
fn nothing(alloc: Global) -> Found
    ensures nodes { result.nodes.items ≡ [] }
    ensures reasons { result.findings.reasons.items ≡ [] }
    ensures marks { result.findings.marks.items ≡ [] }
{
    Found {
        nodes: Vec::new(alloc),
        findings: Findings {
            reasons: Vec::new(alloc),
            marks: Vec::new(alloc),
        },
    }
}

/// Analyses a plan's top node, whose inputs keep these facts, and returns what it keeps.
#[tactic(auto, using(wd_plan::proofs::Ranges::narrow))]
fn analyse_top(
    alloc: Global,
    plan: &Plan,
    schema: &Schema,
    kept: &[&[Given]],
    found: &mut Found,
) -> Result<Vec<Given>, OutOfMemory>
    requires fits { fits (schema_of schema.now) (plan_of plan.now) ≡ true }
    requires kept { AreOfChildren (plan_of plan.now) (kept_by kept.now 0) (kept_by kept.now 1) }
    ensures { IfOk result (λ v. FindsTop (schema_of schema.now) (plan_of plan.now) (kept_by kept.now 0) (kept_by kept.now 1) found.old found.new (map fact_of v.items)) }
{
    let facts = given(alloc, plan, schema, kept)?;
    let sources = sources_of(alloc, &facts, plan, schema, kept)?;
    let prepared = Prepared::new(alloc, &facts)?;
    let claims = claims_of(alloc, &prepared, width(plan), &sources)?;
    let node = found.nodes.len() as u64;
    let here = Here {
        node,
        facts: prepared,
        claims,
    };
    let entry = found_entry(alloc, &here, plan, schema, &mut found.findings)?;
    found.nodes.push(entry)?;
    kept_facts(alloc, &here.claims, width(plan))
}

/// Analyses a plan's nodes, and returns what the top node keeps.
fn analyse_nodes(
    alloc: Global,
    plan: &Plan,
    schema: &Schema,
    found: &mut Found,
) -> Result<Vec<Given>, OutOfMemory>
    requires { fits (schema_of schema.now) (plan_of plan.now) ≡ true }
    ensures { IfOk result (λ v. Finds (schema_of schema.now) (plan_of plan.now) found.old found.new (map fact_of v.items)) }
{
    match plan {
        Plan::Scan { .. } => analyse_top(alloc, plan, schema, &[], found),
        Plan::Join { left, right, .. } => {
            let left = analyse_nodes(alloc, left, schema, found)?;
            let right = analyse_nodes(alloc, right, schema, found)?;
            analyse_top(alloc, plan, schema, &[&left, &right], found)
        }
        Plan::Filter { input, .. }
        | Plan::Map { input, .. }
        | Plan::Group { input, .. }
        | Plan::Window { input, .. }
        | Plan::Distinct { input }
        | Plan::Limit { input, .. } => {
            let below = analyse_nodes(alloc, input, schema, found)?;
            analyse_top(alloc, plan, schema, &[&below], found)
        }
    }
}

/// Looks for a rule for each window call and each limit of a plan that fits the schema. Where each has one the plan has one answer, and
/// the certificate says why: it is valid for the plan, and of version 1 where the plan has no Group. Else the answer is open: a reason
/// for each call and limit without a rule, of which there is at least one, and a mark for each that has one.
///
/// # Errors
/// Where memory runs out.
pub fn analyse(alloc: Global, plan: &Plan, schema: &Schema) -> Result<Analysis, OutOfMemory>
    requires { fits (schema_of schema.now) (plan_of plan.now) ≡ true }
    ensures { IfOk result (IsAnswer (schema_of schema.now) (plan_of plan.now)) }
{
    let mut found = nothing(alloc);
    analyse_nodes(alloc, plan, schema, &mut found)?;
    let Found { nodes, findings } = found;
    let Findings { reasons, marks } = findings;
    if reasons.is_empty() {
        let version = version_needed(plan);
        Ok(Analysis::Certified(Certificate { nodes, version }))
    } else {
        Ok(Analysis::Open(reasons, marks))
    }
}

/// The least column that the sort keys of a Limit do not determine, by the facts that its input keeps.
#[tactic(auto, using(wd_plan::proofs::Ranges::narrow))]
fn limit_lack(
    alloc: Global,
    plan: &Plan,
    input: &Plan,
    limit: &Limit,
    schema: &Schema,
) -> Result<Option<u16>, OutOfMemory>
    requires is { plan_of plan.now ≡ plans.Over (plans.Limit (limit_of limit.now)) (plan_of input.now) }
    requires fits { fits (schema_of schema.now) (plan_of plan.now) ≡ true }
    ensures { IfOk result (IsLackOf (schema_of schema.now) (limit_of limit.now) (plan_of input.now)) }
{
    let mut found = nothing(alloc);
    let kept = analyse_nodes(alloc, input, schema, &mut found)?;
    let facts = given(alloc, plan, schema, &[&kept])?;
    let prepared = Prepared::new(alloc, &facts)?;
    let columns = key_columns(alloc, &limit.keys)?;
    let closed = close(alloc, &prepared, &columns)?;
    Ok(missing(&closed, width(input)))
}

/// The least column of the rows that a plan's last Limit reads that its sort keys do not determine, by the facts that its input keeps;
/// none where they determine every column, or where neither the plan's top node nor the node below the Maps at its top is a Limit.
///
/// # Errors
/// Where memory runs out.
pub fn lacking_column(
    alloc: Global,
    plan: &Plan,
    schema: &Schema,
) -> Result<Option<u16>, OutOfMemory>
    requires { fits (schema_of schema.now) (plan_of plan.now) ≡ true }
    ensures { IfOk result (IsLack (schema_of schema.now) (plan_of plan.now)) }
{
    match plan {
        Plan::Map { input, .. } => lacking_column(alloc, input, schema),
        Plan::Limit { input, limit } => limit_lack(alloc, plan, input, limit, schema),
        _ => Ok(None),
    }
}
