//! Whether certificates are accepted.

ghost use Rattle.std.specs.Prelude.{◌≡◌, true, IfOk};
ghost use Rattle.wd_plan.specs.Fits.{fits};
ghost use Rattle.wd_plan.specs.Plans.{plan_of};
ghost use Rattle.wd_schema.specs.Schemas.{schema_of};

use crate::case::CertificateCases;
use crate::notation::certificate_of;
use crate::refusal::failure_of;
use crate::shown::push_nodes;
use std::alloc::Global;
use wd_cases::{Failure, unescape};
use wd_cert::{Certificate, VerifyError, VerifyOrigin, verify, verify_plan};
use wd_plan::Plan;
use wd_query::{PlannedQuery, TextError, read_texts};
use wd_schema::Schema;

/// The plan of the query.
pub fn plan_of_query(alloc: Global, given: &CertificateCases) -> Result<PlannedQuery, Failure>
    ensures { IfOk result (λ p. fits (schema_of p.schema) (plan_of p.resolved.plan) ≡ true) }
{
    match read_texts(alloc, &given.schema.bytes, &given.query) {
        Ok(planned) => Ok(planned),
        Err(error) => Err(refused_text(&error)),
    }
}

fn refused_text(error: &TextError) -> Failure {
    Failure::refused(error.number(), error.place())
}

/// The nodes of the query's plan.
pub fn nodes(alloc: Global, given: &CertificateCases) -> Result<String, Failure> {
    let planned = plan_of_query(alloc, given)?;
    nodes_of(alloc, &planned.resolved.plan)
}

fn nodes_of(alloc: Global, plan: &Plan) -> Result<String, Failure> {
    let mut out = String::new(alloc);
    push_nodes(&mut out, plan)?;
    Ok(out)
}

/// `verify TEXT`: whether a certificate's text is accepted for the texts of the schema and the query.
pub fn verify_text(alloc: Global, given: &CertificateCases, text: &str) -> Result<String, Failure> {
    let text = unescape(alloc, text)?;
    match verify(alloc, &given.schema.bytes, &given.query, &text) {
        Ok(_) => Ok(String::from_str(alloc, "accepted")?),
        Err(error) => show_refusal(alloc, &error),
    }
}

fn show_refusal(alloc: Global, error: &VerifyError) -> Result<String, Failure> {
    let shown = failure_in(error).shown(alloc)?;
    let origin = origin_of(error);
    Ok(format!(in alloc; "{origin}: {shown}")?)
}

fn failure_in(error: &VerifyError) -> Failure {
    Failure::refused(error.number(), error.place())
}

fn origin_of(error: &VerifyError) -> &'static str {
    match error.origin() {
        VerifyOrigin::Schema => "schema",
        VerifyOrigin::Query => "query",
        VerifyOrigin::Certificate => "certificate",
    }
}

/// `why TEXT`: the refusal of a certificate's text with its message.
pub fn why(alloc: Global, given: &CertificateCases, text: &str) -> Result<String, Failure> {
    let text = unescape(alloc, text)?;
    match verify(alloc, &given.schema.bytes, &given.query, &text) {
        Ok(accepted) => Ok(format!(in alloc; "{accepted:?}")?),
        Err(error) => failure_in(&error).explained(alloc, &error),
    }
}

/// `verdict ENTRIES`: whether a certificate is accepted for the query's plan, and, where it differs, also as a text.
pub fn verdict(alloc: Global, given: &CertificateCases, text: &str) -> Result<String, Failure> {
    let certificate = certificate_of(alloc, text)?;
    let of_plan = verdict_of_plan(alloc, given, &certificate)?;
    let of_text = verdict_of_text(alloc, given, &certificate)?;
    if of_plan.as_str() == of_text.as_str() {
        Ok(of_plan)
    } else {
        Ok(format!(in alloc; "{of_plan}, as a text {of_text}")?)
    }
}

fn verdict_of_plan(
    alloc: Global,
    given: &CertificateCases,
    certificate: &Certificate,
) -> Result<String, Failure> {
    let planned = plan_of_query(alloc, given)?;
    verdict_on(alloc, &planned.resolved.plan, &planned.schema, certificate)
}

fn verdict_on(
    alloc: Global,
    plan: &Plan,
    schema: &Schema,
    certificate: &Certificate,
) -> Result<String, Failure>
    requires { fits (schema_of schema.now) (plan_of plan.now) ≡ true }
{
    match verify_plan(alloc, plan, schema, certificate) {
        Ok(()) => Ok(String::from_str(alloc, "accepted")?),
        Err(error) => Ok(failure_of(&error).shown(alloc)?),
    }
}

fn verdict_of_text(
    alloc: Global,
    given: &CertificateCases,
    certificate: &Certificate,
) -> Result<String, Failure> {
    let text = certificate.to_json(alloc)?;
    match verify(alloc, &given.schema.bytes, &given.query, &text) {
        Ok(_) => Ok(String::from_str(alloc, "accepted")?),
        Err(error) => Ok(failure_in(&error).shown(alloc)?),
    }
}
