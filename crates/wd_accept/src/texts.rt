//! From the texts of a schema, a query and a certificate to whether the certificate is valid.

ghost use Rattle.std.specs.Prelude.{◌≡◌, true, None, IfOk, IfErr};
ghost use Rattle.wd_certificate.specs.Certificates.{certificate_of, nodes_of};
ghost use Rattle.wd_certificate.specs.Json.{Spells};
ghost use Rattle.wd_query.specs.Laws.{HaveMeaning};
ghost use Rattle.wd_query.specs.Readings.{IsRead};
ghost use Rattle.wd_resolve.specs.Answers.{resolved_of};
ghost use Rattle.wd_rules.specs.Lists.{goes_by_keys};
ghost use Rattle.wd_rules.specs.Validity.{IsValidCertificate};
ghost use Rattle.wd_plan.specs.Fits.{fits};
ghost use Rattle.wd_plan.specs.Plans.{plan_of};
ghost use Rattle.wd_schema.specs.Schemas.{schema_of};
ghost use Rattle.wd_accept.specs.Acceptance.{HasCause, HaveOneAnswer, IsAccepted, RefusesPlan, verify_number};
ghost use Rattle.wd_accept.specs.Lists.{HasListCause, HaveOneList, IsListAccepted, answer_limit};

use crate::error::VerifyError;
use crate::laws::{accepted_has_one, accepted_is_taken, listed_has_one_list, listed_is_taken};
use crate::limits::{answer_limit, goes_by_keys};
use std::alloc::Global;
use wd_certificate::{CertError, Certificate, from_json};
use wd_plan::Plan;
use wd_query::{PlannedQuery, read_texts};
use wd_schema::Schema;
use wd_verify::verify_plan;

/// What `verify` answers for a certificate that is valid.
#[derive(Clone, Copy, Debug)]
pub struct Accepted;

/// The parts of an accepted certificate's text: the plan of the texts of a schema and a query, and the valid certificate that it spells.
#[derive(Drop)]
struct Verified {
    planned: PlannedQuery,
    certificate: Certificate,
}

/// Whether a certificate's text spells a certificate that is valid for the plan of a schema's text and a query's text. Where it
/// does, the query has one answer over each instance that meets the schema: in any row order and under any lawful orderings of
/// rows that tie, one multiset of rows or one fault. No query is evaluated.
///
/// Each refusal occurs only where its cause holds, in this order: 101 to 107 and 301 to 309 of the schema; 101 to 107, 201, 202 and 401
/// to 419 of the query; 501 to 503 of the certificate's text; 503 for version 1 where the plan has a Group; 504, or 502 for a limit at
/// a node that is no Limit; 505 to 510 at the first node in postorder whose entry is not valid.
pub fn verify(
    alloc: Global,
    schema: &[u8],
    query: &[u8],
    certificate: &[u8],
) -> Result<Accepted, VerifyError>
    ensures accepted { IfOk result (λ _. IsAccepted schema.now query.now certificate.now) }
    ensures one_answer { IfOk result (λ _. HaveOneAnswer schema.now query.now) }
    ensures refused { IfErr result (λ e. HasCause schema.now query.now certificate.now e) }

    // For texts that have a meaning a valid certificate is refused only where memory runs out.
    ensures taken { IfErr result (λ e. HaveMeaning schema.now query.now → IsAccepted schema.now query.now certificate.now → verify_number e ≡ None) }
{
    accepted_has_one();
    accepted_is_taken();
    let _verified = match verify_texts(alloc, schema, query, certificate) {
        Ok(verified) => verified,
        Err(error) => return Err(error),
    };
    Ok(Accepted)
}

/// Whether a certificate's text spells a certificate that is valid for the plan of a schema's text and a query's text, and by which
/// the answer's Limit goes by `keys`. Where it does, the query has one list of rows, or one fault, over each instance that meets the
/// schema: in any row order and under any lawful orderings of rows that tie. No query is evaluated.
///
/// It refuses as `verify` does, and then with 511 where there is no answer's Limit, or the certificate's limit there is null.
pub fn verify_list(
    alloc: Global,
    schema: &[u8],
    query: &[u8],
    certificate: &[u8],
) -> Result<Accepted, VerifyError>
    ensures accepted { IfOk result (λ _. IsListAccepted schema.now query.now certificate.now) }
    ensures one_list { IfOk result (λ _. HaveOneList schema.now query.now) }
    ensures refused { IfErr result (λ e. HasListCause schema.now query.now certificate.now e) }

    // For texts that have a meaning a certificate that is valid and shows one list is refused only where memory runs out.
    ensures taken { IfErr result (λ e. HaveMeaning schema.now query.now → IsListAccepted schema.now query.now certificate.now → verify_number e ≡ None) }
{
    listed_has_one_list();
    listed_is_taken();
    let verified = match verify_texts(alloc, schema, query, certificate) {
        Ok(verified) => verified,
        Err(error) => return Err(error),
    };
    if is_listed(&verified) {
        Ok(Accepted)
    } else {
        Err(VerifyError::Unlisted)
    }
}

/// Whether the answer's Limit goes by `keys`.
fn is_listed(verified: &Verified) -> bool
    requires { IsValidCertificate (schema_of verified.now.planned.schema) (plan_of verified.now.planned.resolved.plan) (certificate_of verified.now.certificate) }
    ensures { result ≡ goes_by_keys (nodes_of verified.now.certificate) (answer_limit (resolved_of verified.now.planned.resolved)) }
{
    let nodes = &verified.certificate.nodes;
    let limit = answer_limit(&verified.planned.resolved, nodes.len() as u64);
    goes_by_keys(nodes, limit)
}

/// Reads the texts of a schema and a query, and the certificate, which is valid for the plan.
fn verify_texts(
    alloc: Global,
    schema: &[u8],
    query: &[u8],
    certificate: &[u8],
) -> Result<Verified, VerifyError>
    ensures read { IfOk result (λ v. IsRead schema.now query.now v.planned) }
    ensures spelled { IfOk result (λ v. Spells (certificate_of v.certificate) certificate.now) }
    ensures valid { IfOk result (λ v. IsValidCertificate (schema_of v.planned.schema) (plan_of v.planned.resolved.plan) (certificate_of v.certificate)) }
    ensures refused { IfErr result (λ e. HasCause schema.now query.now certificate.now e) }
{
    let planned = match read_texts(alloc, schema, query) {
        Ok(planned) => planned,
        Err(error) => return Err(VerifyError::Texts(error)),
    };
    match verify_text(alloc, &planned.resolved.plan, &planned.schema, certificate) {
        Ok(certificate) => Ok(Verified {
            planned,
            certificate,
        }),
        Err(error) => Err(VerifyError::Certificate(error)),
    }
}

/// The certificate that a text spells, which is valid for a plan.
#[tactic(auto, using(crate::proofs::Verdicts::refuses))]
fn verify_text(
    alloc: Global,
    plan: &Plan,
    schema: &Schema,
    certificate: &[u8],
) -> Result<Certificate, CertError>
    requires { fits (schema_of schema.now) (plan_of plan.now) ≡ true }
    ensures spelled { IfOk result (λ c. Spells (certificate_of c) certificate.now) }
    ensures valid { IfOk result (λ c. IsValidCertificate (schema_of schema.now) (plan_of plan.now) (certificate_of c)) }
    ensures refused { IfErr result (λ e. RefusesPlan e certificate.now (schema_of schema.now) (plan_of plan.now)) }
{
    let certificate = from_json(alloc, certificate)?;
    verify_plan(alloc, plan, schema, &certificate)?;
    Ok(certificate)
}
