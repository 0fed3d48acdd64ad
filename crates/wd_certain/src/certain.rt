//! Certifies a query by its simpler plan.

ghost use Rattle.std.specs.Prelude.{◌≡◌, true, None, IfErr, IfNone, IfOk, IfSome};
ghost use Rattle.wd_accept.specs.Acceptance.{HaveOneAnswer};
ghost use Rattle.wd_certain.specs.Certain.{IsCertain, IsCertainOf, IsOpenStill, IsUncertain};
ghost use Rattle.wd_plan.specs.Fits.{fits};
ghost use Rattle.wd_plan.specs.Plans.{plan_of};
ghost use Rattle.wd_query.specs.Causes.{text_number};
ghost use Rattle.wd_schema.specs.Schemas.{schema_of};

use crate::laws::certain_has_one;
use std::alloc::Global;
use wd_analyse::{Analysis, analyse};
use wd_certificate::Certificate;
use wd_plan::Plan;
use wd_query::{PlannedQuery, TextError, read_texts};
use wd_simpler::simpler;
use wd_value::OutOfMemory;

/// The simpler plan of a query, and a certificate that is valid for it.
#[derive(Drop)]
pub struct Certain {
    pub plan: Plan,
    pub certificate: Certificate,
}

/// Whether the query of a text has one answer over the schema of a text because its simpler plan has one; if so, that plan and the
/// certificate that says why. The simpler plan has the same nodes and the same choices, and under each of them the same outcome
/// (wd_simpler).
///
/// `None` where a text is refused, or where the simpler plan leaves something open too; that says nothing of the query.
pub fn certify_simpler(
    alloc: Global,
    schema: &[u8],
    query: &[u8],
) -> Result<Option<Certain>, OutOfMemory>
    ensures certain { IfOk result (λ o. IfSome o (IsCertain schema.now query.now)) }
    ensures one_answer { IfOk result (λ o. IfSome o (λ _. HaveOneAnswer schema.now query.now)) }
    ensures uncertain { IfOk result (λ o. IfNone o (IsUncertain schema.now query.now)) }
{
    certain_has_one();
    let planned = match read_texts(alloc, schema, query) {
        Ok(planned) => planned,
        Err(error) => return without_certificate(error),
    };
    certify(alloc, planned)
}

/// The answer for a text that is refused: nothing is certified.
fn without_certificate(error: TextError) -> Result<Option<Certain>, OutOfMemory>
    ensures none { IfOk result (λ o. o ≡ None) }
    ensures memory { IfErr result (λ _. text_number error ≡ None) }
{
    match error.number() {
        Some(_) => Ok(None),
        None => Err(OutOfMemory),
    }
}

/// The simpler plan of a plan that reads the texts, where it is certified.
fn certify(alloc: Global, planned: PlannedQuery) -> Result<Option<Certain>, OutOfMemory>
    requires { fits (schema_of planned.schema) (plan_of planned.resolved.plan) ≡ true }
    ensures certain { IfOk result (λ o. IfSome o (λ certain. IsCertainOf certain (schema_of planned.schema) (plan_of planned.resolved.plan))) }
    ensures open { IfOk result (λ o. IfNone o (IsOpenStill (schema_of planned.schema) (plan_of planned.resolved.plan))) }
{
    let PlannedQuery { schema, resolved } = planned;
    let plan = simpler(alloc, &schema, resolved.plan)?;
    if !plan.fits(&schema) {
        return Ok(None);
    }
    match analyse(alloc, &plan, &schema)? {
        Analysis::Certified(certificate) => Ok(Some(Certain { plan, certificate })),
        Analysis::Open(_, _) => Ok(None),
    }
}
