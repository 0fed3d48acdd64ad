//! The verdict on whether a query has one list of rows.

ghost use Rattle.std.specs.Prelude.{◌≡◌, true, IfOk, IfErr};
ghost use Rattle.wd_analyse.specs.Analysis.{IsAnswer};
ghost use Rattle.wd_analyse.specs.declared.analysis.Analysis.TheVariants.{Certified};
ghost use Rattle.wd_plan.specs.Fits.{fits};
ghost use Rattle.wd_plan.specs.Plans.{plan_of};
ghost use Rattle.wd_query.specs.Laws.{HaveMeaning};
ghost use Rattle.wd_resolve.specs.Answers.{resolved_of};
ghost use Rattle.wd_schema.specs.Schemas.{schema_of};
ghost use Rattle.wd_decide.specs.Lists.{IsListVerdict, IsListVerdictOf, IsOfVerdict};
ghost use Rattle.wd_decide.specs.Lists as spec;
ghost use Rattle.wd_decide.specs.Verdicts.{HasCause};
ghost use Rattle.wd_decide.specs.declared.verdict.Verdict.TheVariants as plain;

use crate::error::DecideError;
use crate::verdict::{Examined, Verdict, examine, verdict_of};
use std::alloc::Global;
use wd_accept::{answer_limit, goes_by_keys};
use wd_analyse::laws::keys_come_first;
use wd_analyse::{Reason, lacking_column};
use wd_certificate::Certificate;
use wd_query::PlannedQuery;
use wd_seek::seek;
use wd_value::OutOfMemory;
use wd_witness_text::Witness;

/// Why a certificate shows no order of the answer's rows.
#[derive(Clone, Copy)]
pub enum ListReason {
    /// The outermost select has no ORDER BY.
    NoOrder,
    /// The sort keys of the Limit with this number do not determine this column, the least such.
    Column { node: u64, column: u16 },
}

/// Whether a query has one list of rows over each instance that meets the schema, in any row order
/// and under any lawful orderings of rows that tie.
#[derive(Drop)]
pub enum ListVerdict {
    /// It has: the certificate says why.
    Listed(Certificate),
    /// It has one answer, whose order is open for this reason.
    Unlisted(ListReason),
    /// It has not even one answer: the witness shows two.
    Depends(Witness),
    /// As for `Verdict`.
    Unknown(Vec<Reason>),
}

/// Whether the query of a text has one list of rows over the schema of a text. The verdict is that of `decide`, except for a query with
/// a certificate: where the answer's Limit goes by `keys` in the certificate, `verify_list` accepts the certificate's text; otherwise
/// the reason is given.
///
/// Each refusal occurs only where its cause holds, as `examine` says.
pub fn decide_list(alloc: Global, schema: &[u8], query: &[u8]) -> Result<ListVerdict, DecideError>
    ensures verdict { IfOk result (IsListVerdict schema.now query.now) }

    // The texts have a plan, and the query's tree keeps the limits of trees.
    ensures meaning { IfOk result (λ _. HaveMeaning schema.now query.now) }
    ensures refused { IfErr result (HasCause schema.now query.now) }
{
    let examined = examine(alloc, schema, query)?;
    Ok(examined.list_verdict(alloc)?)
}

impl Examined {
    /// The verdict on the query's list of rows.
    pub fn list_verdict(self, alloc: Global) -> Result<ListVerdict, OutOfMemory>
        requires fits { fits (schema_of self.planned.schema) (plan_of self.planned.resolved.plan) ≡ true }
        requires analysed { IsAnswer (schema_of self.planned.schema) (plan_of self.planned.resolved.plan) self.analysis }
        ensures { IfOk result (IsListVerdictOf (schema_of self.planned.schema) (resolved_of self.planned.resolved)) }
    {
        let Examined { planned, analysis } = self;
        let (witness, _) = seek(alloc, &planned.schema, &planned.resolved.plan, &analysis)?;
        match verdict_of(analysis, witness) {
            Verdict::Deterministic(certificate) => verdict_of_list(alloc, &planned, certificate),
            Verdict::Depends(witness) => Ok(ListVerdict::Depends(witness)),
            Verdict::Unknown(reasons) => Ok(ListVerdict::Unknown(reasons)),
        }
    }
}

/// The verdict on the list of a query whose plan has this certificate.
fn verdict_of_list(
    alloc: Global,
    planned: &PlannedQuery,
    certificate: Certificate,
) -> Result<ListVerdict, OutOfMemory>
    requires fits { fits (schema_of planned.now.schema) (plan_of planned.now.resolved.plan) ≡ true }
    requires analysed { IsAnswer (schema_of planned.now.schema) (plan_of planned.now.resolved.plan) (Certified certificate) }
    ensures { IfOk result (IsOfVerdict (schema_of planned.now.schema) (resolved_of planned.now.resolved) (plain.Deterministic certificate)) }
{
    keys_come_first();
    let limit = answer_limit(&planned.resolved, certificate.nodes.len() as u64);
    if goes_by_keys(&certificate.nodes, limit) {
        return Ok(ListVerdict::Listed(certificate));
    }
    let lack = lacking_column(alloc, &planned.resolved.plan, &planned.schema)?;
    Ok(ListVerdict::Unlisted(reason_of(limit, lack)))
}

/// The reason why a certificate shows no list, by the answer's Limit and the column that its sort keys lack.
fn reason_of(limit: Option<u64>, lack: Option<u16>) -> ListReason
    ensures { result ≡ spec.reason_of limit lack }
{
    match (limit, lack) {
        (Some(node), Some(column)) => ListReason::Column { node, column },
        _ => ListReason::NoOrder,
    }
}
