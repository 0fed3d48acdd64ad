//! A node's entry in a certificate.

ghost use Rattle.std.specs.Prelude.{◌≡◌, ◌≢◌, ◌<◌, true, None, Some, IfOk, IfErr};
ghost use Rattle.wd_schema.specs.Schemas.{schema_of};
ghost use Rattle.wd_plan.specs.Fits as fitting;
ghost use Rattle.wd_plan.specs.Plans.{plan_of};
ghost use Rattle.wd_facts.specs.Given.{given as given_facts};
ghost use Rattle.wd_facts.specs.Laws.{AreOfChildren, ArePlain};
ghost use Rattle.wd_rules.specs.Rules as rules;
ghost use Rattle.wd_verify.specs.Lean.{lean_of};
ghost use Rattle.wd_node_facts.specs.Seen.{HasNoOther, facts_kept, seen_of};
ghost use Rattle.wd_traces.specs.Known.{AreKnown};
ghost use Rattle.wd_verify.specs.Named.{is_of_rules};
ghost use Rattle.wd_verify.specs.Shown.{AreFollowed, AreGood, evidence_of};

use crate::evidence::{Evidence, follow_each};
use crate::kept::{check_keep, keeps_of};
use crate::named::traces_to_keep;
use crate::rules::{check_limit, check_window};
use std::alloc::Global;
use wd_certificate::{CertError, Node};
use wd_node_facts::{Keeps, facts_at};
use wd_plan::Plan;
use wd_schema::Schema;
use wd_traces::{Followed, Known, with_sets};

/// The number of columns of a node's rows.
pub(crate) fn width(plan: &Plan) -> u16
    requires { fitting.width (plan_of plan.now) < 65536 }
    ensures { result ≡ fitting.width (plan_of plan.now) }
{
    plan.width() as u16
}

/// Checks the rules of an entry.
#[tactic(auto, using(wd_plan::proofs::Ranges::narrow))]
fn check_rules(
    alloc: Global,
    evidence: &Evidence,
    plan: &Plan,
    schema: &Schema,
    entry: &Node,
) -> Result<(), CertError>
    requires { fitting.fits (schema_of schema.now) (plan_of plan.now) ≡ true }
    ensures passed { IfOk result (λ _. rules.rules_refusal (evidence_of evidence.now) (plan_of plan.now) (lean_of entry.now) ≡ None) }
    ensures refused { IfErr result (λ e. e ≢ CertError.OutOfMemory → rules.rules_refusal (evidence_of evidence.now) (plan_of plan.now) (lean_of entry.now) ≡ Some e) }
{
    match plan {
        Plan::Window { input, window } => {
            check_window(alloc, evidence, width(input), window, &entry.calls)
        }
        Plan::Limit { input, limit } => {
            check_limit(alloc, evidence, width(input), limit, entry.limit)
        }
        _ => Ok(()),
    }
}

/// Checks what an entry claims, by its traces, which were followed.
#[tactic(auto, using(wd_plan::proofs::Ranges::narrow))]
fn check_claims(
    alloc: Global,
    evidence: &Evidence,
    plan: &Plan,
    schema: &Schema,
    entry: &Node,
) -> Result<(), CertError>
    requires fits { fitting.fits (schema_of schema.now) (plan_of plan.now) ≡ true }
    requires known { AreKnown evidence.now.known }
    requires followed { AreFollowed evidence.now.node (seen_of evidence.now.known.facts) (lean_of entry.now).traces (is_of_rules (lean_of entry.now)) evidence.now.traces.items }
    ensures passed { IfOk result (λ _. rules.entry_refusal evidence.now.node (seen_of evidence.now.known.facts) (plan_of plan.now) (lean_of entry.now) ≡ None) }
    ensures refused { IfErr result (λ e. e ≢ CertError.OutOfMemory → rules.entry_refusal evidence.now.node (seen_of evidence.now.known.facts) (plan_of plan.now) (lean_of entry.now) ≡ Some e) }
{
    check_keep(alloc, evidence, width(plan), &entry.traces, &entry.keep)?;
    check_rules(alloc, evidence, plan, schema, entry)
}

/// Follows the traces of an entry over the given facts of its node, and checks the entry's claims by them; the result is what is known.
fn judge_entry(
    alloc: Global,
    plan: &Plan,
    schema: &Schema,
    node: u64,
    entry: &Node,
    known: Known,
) -> Result<Known, CertError>
    requires fits { fitting.fits (schema_of schema.now) (plan_of plan.now) ≡ true }
    requires known { AreKnown known }
    ensures same { IfOk result (λ k. k ≡ known) }
    ensures good { IfOk result (λ _. AreGood node (seen_of known.facts) (lean_of entry.now).traces) }
    ensures passed { IfOk result (λ _. rules.entry_refusal node (seen_of known.facts) (plan_of plan.now) (lean_of entry.now) ≡ None) }
    ensures refused { IfErr result (λ e. e ≢ CertError.OutOfMemory → rules.entry_refusal node (seen_of known.facts) (plan_of plan.now) (lean_of entry.now) ≡ Some e) }
{
    let marks = traces_to_keep(alloc, entry)?;
    let traces = follow_each(alloc, node, &known, &entry.traces, &marks)?;
    let evidence = Evidence {
        node,
        known,
        traces,
        unnamed: Followed::new(alloc),
    };
    check_claims(alloc, &evidence, plan, schema, entry)?;
    Ok(evidence.known)
}

/// Checks the entry of a plan's top node, where the children keep the given facts; the result is what the entry keeps itself.
#[tactic(auto, using(wd_plan::proofs::Ranges::narrow))]
pub(crate) fn check_entry(
    alloc: Global,
    plan: &Plan,
    schema: &Schema,
    node: u64,
    entry: &Node,
    left: Keeps,
    right: Keeps,
) -> Result<Keeps, CertError>
    requires fits { fitting.fits (schema_of schema.now) (plan_of plan.now) ≡ true }
    requires named { AreOfChildren (plan_of plan.now) (facts_kept left) (facts_kept right) }
    requires alone { HasNoOther (plan_of plan.now) (facts_kept left) (facts_kept right) }
    ensures plain { IfOk result (λ k. ArePlain (fitting.width (plan_of plan.now)) (facts_kept k)) }
    ensures kept { IfOk result (λ k. facts_kept k ≡ rules.kept_facts (lean_of entry.now)) }
    ensures passed { IfOk result (λ _. rules.entry_refusal node (given_facts (schema_of schema.now) (plan_of plan.now) (facts_kept left) (facts_kept right)) (plan_of plan.now) (lean_of entry.now) ≡ None) }
    ensures refused { IfErr result (λ e. e ≢ CertError.OutOfMemory → rules.entry_refusal node (given_facts (schema_of schema.now) (plan_of plan.now) (facts_kept left) (facts_kept right)) (plan_of plan.now) (lean_of entry.now) ≡ Some e) }
{
    let facts = facts_at(alloc, plan, schema, left, right)?;
    let known = with_sets(alloc, facts)?;
    let known = judge_entry(alloc, plan, schema, node, entry, known)?;
    keeps_of(alloc, width(plan), node, &known.facts, entry)
}
