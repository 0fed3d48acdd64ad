//! Whether a certificate is valid.

ghost use Rattle.std.specs.Prelude.{◌≡◌, ◌≢◌, ◌≤◌, true, length, map, None, Some, IfOk, IfErr};
ghost use Rattle.wd_schema.specs.Schemas.{schema_of};
ghost use Rattle.wd_plan.specs.Fits.{fits};
ghost use Rattle.wd_plan.specs.Plans.{node_count, plan_of};
ghost use Rattle.wd_certificate.specs.Certificates.{certificate_of, node_of, nodes_of};
ghost use Rattle.wd_rules.specs.Laws.{AlwaysShows, HasOneAnswer};
ghost use Rattle.wd_rules.specs.Validity.{IsValidCertificate, entries_refusal, first_refusal, form_refusal, nodes_refusal};
ghost use Rattle.wd_verify.specs.Shown.{refusal_of};

use crate::evidence::refuse_unless;
use crate::nodes::{Checked, check_nodes, entries_left, look_over};
use std::alloc::Global;
use wd_certificate::{CertError, Certificate, Node};
use wd_plan::Plan;
use wd_rules::is_read_for;
use wd_schema::Schema;

/// Checks the form of the entries: one for each node, limits only at Limits, a rule for each call.
fn check_form(plan: &Plan, nodes: &[Node]) -> Result<(), CertError>
    ensures { refusal_of result ≡ form_refusal (plan_of plan.now) (map node_of nodes.now) }
{
    if entries_left(plan, nodes.len()) != Some(0) {
        return Err(CertError::Count);
    }
    let seen = look_over(plan, nodes, 0);
    if !seen.limits {
        return Err(CertError::Shape);
    }
    if !seen.calls {
        return Err(CertError::Count);
    }
    Ok(())
}

/// Checks the entries of a plan's nodes, in postorder.
fn check_entries(
    alloc: Global,
    plan: &Plan,
    schema: &Schema,
    nodes: &[Node],
) -> Result<Checked, CertError>
    requires fits { fits (schema_of schema.now) (plan_of plan.now) ≡ true }
    requires within { node_count (plan_of plan.now) ≤ length nodes.now }
    ensures passed { IfOk result (λ _. nodes_refusal (schema_of schema.now) (plan_of plan.now) 0 (map node_of nodes.now) ≡ None) }
    ensures refused { IfErr result (λ e. e ≢ CertError.OutOfMemory → nodes_refusal (schema_of schema.now) (plan_of plan.now) 0 (map node_of nodes.now) ≡ Some e) }
{
    check_nodes(alloc, plan, schema, nodes, 0)
}

/// Checks the form of a plan's entries, then the entries.
fn check(alloc: Global, plan: &Plan, schema: &Schema, nodes: &[Node]) -> Result<(), CertError>
    requires { fits (schema_of schema.now) (plan_of plan.now) ≡ true }
    ensures passed { IfOk result (λ _. entries_refusal (schema_of schema.now) (plan_of plan.now) (map node_of nodes.now) ≡ None) }
    ensures refused { IfErr result (λ e. e ≢ CertError.OutOfMemory → entries_refusal (schema_of schema.now) (plan_of plan.now) (map node_of nodes.now) ≡ Some e) }
{
    check_form(plan, nodes)?;
    check_entries(alloc, plan, schema, nodes)?;
    Ok(())
}

/// Checks a certificate against a plan that fits the schema. Exactly valid certificates are accepted. Where one is accepted, the kept and
/// the given facts of each node hold in its rows, over each instance that meets the schema and under any valid choice, and the plan has
/// one answer.
///
/// # Errors
/// The first refusal in this order: 503 for version 1 where a node of the plan is a Group; 504 where the number of entries is not the
/// plan's number of nodes; 502 for a limit at a node that is no Limit; 504 where the number of rules is not the node's number of calls;
/// then, node by node in postorder, 505 to 510 of its traces, of what it keeps, and of its calls or its limit. Out of memory.
pub fn verify_plan(
    alloc: Global,
    plan: &Plan,
    schema: &Schema,
    certificate: &Certificate,
) -> Result<(), CertError>
    requires { fits (schema_of schema.now) (plan_of plan.now) ≡ true }
    ensures valid { IfOk result (λ _. IsValidCertificate (schema_of schema.now) (plan_of plan.now) (certificate_of certificate.now)) }
    ensures refused { IfErr result (λ e. e ≢ CertError.OutOfMemory → first_refusal (schema_of schema.now) (plan_of plan.now) (certificate_of certificate.now) ≡ Some e) }
    ensures shows { IfOk result (λ _. AlwaysShows (schema_of schema.now) (plan_of plan.now) (nodes_of certificate.now)) }
    ensures one_answer { IfOk result (λ _. HasOneAnswer (schema_of schema.now) (plan_of plan.now)) }
{
    let is_read = is_read_for(plan, certificate.version);
    refuse_unless(is_read, CertError::Version)?;
    check(alloc, plan, schema, &certificate.nodes)
}
