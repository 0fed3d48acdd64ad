//! The verdict on a query.

ghost use Rattle.std.specs.Prelude.{◌≡◌, true, List, IfOk, IfErr};
ghost use Rattle.wd_plan.specs.Fits.{fits};
ghost use Rattle.wd_plan.specs.Plans.{PlanTree, plan_of};
ghost use Rattle.wd_schema.specs.Schemas.{schema_of};
ghost use Rattle.wd_schema.specs.Tables.{TableRule};
ghost use Rattle.wd_seek.specs.Sought.{reasons_of};
ghost use Rattle.wd_decide.specs.Verdicts.{EndsWith, HasCause, IsDecidedIfPlain, IsExamined, IsVerdict, IsVerdictOf};
ghost use Rattle.wd_query.specs.Laws.{HaveMeaning};

use crate::error::DecideError;
use crate::laws::plain_are_decided;
use std::alloc::Global;
use wd_analyse::{Analysis, Reason, analyse};
use wd_certificate::Certificate;
use wd_query::{PlannedQuery, read_texts};
use wd_seek::seek;
use wd_value::OutOfMemory;
use wd_witness_text::Witness;

/// A schema, the plan of a query over its tables, and what is found of the plan.
#[derive(Drop)]
pub struct Examined {
    pub planned: PlannedQuery,
    pub analysis: Analysis,
}

/// Whether a query has one answer over each instance that meets the schema, in any row order and under any lawful orderings of
/// rows that tie.
#[derive(Drop)]
pub enum Verdict {
    /// It has: the certificate says why.
    Deterministic(Certificate),
    /// It has not: the witness shows two answers.
    Depends(Witness),
    /// No rule is known that justifies these calls and limits, and no candidate shows two answers.
    Unknown(Vec<Reason>),
}

/// The plan of a schema's text and a query's text, and which rules justify its calls and limits. The schema is read first.
///
/// Each refusal occurs only where its cause holds: 101 to 107 and 301 to 309 of the schema; 101 to 107, 201, 202 and 401 to 419 of the
/// query.
pub fn examine(alloc: Global, schema: &[u8], query: &[u8]) -> Result<Examined, DecideError>
    ensures examined { IfOk result (IsExamined schema.now query.now) }
    ensures refused { IfErr result (HasCause schema.now query.now) }
{
    let planned = match read_texts(alloc, schema, query) {
        Ok(planned) => planned,
        Err(error) => return Err(DecideError::Texts(error)),
    };
    let analysis = analyse(alloc, &planned.resolved.plan, &planned.schema)?;
    Ok(Examined { planned, analysis })
}

/// Whether the query of a text has one answer over the schema of a text. A certificate that is reported is valid for the plan that
/// reads the texts, and `verify` accepts its text. A witness that is reported is true of that plan: the two outcomes are not one, and
/// `refute` refuses its text with none of 601 to 604 and 802. Otherwise there is at least one reason, each for a call or a limit for
/// which no rule is known, in postorder, and there is no witness among the candidates that are tried.
///
/// Each refusal occurs only where its cause holds, as `examine` says.
pub fn decide(alloc: Global, schema: &[u8], query: &[u8]) -> Result<Verdict, DecideError>
    ensures verdict { IfOk result (IsVerdict schema.now query.now) }

    // The texts have a plan, and the query's tree keeps the limits of trees.
    ensures meaning { IfOk result (λ _. HaveMeaning schema.now query.now) }

    // A query of the plain class is decided: FROM names one table; columns and one ROW_NUMBER over columns are selected.
    ensures plain { IfOk result (IsDecidedIfPlain schema.now query.now) }
    ensures refused { IfErr result (HasCause schema.now query.now) }
{
    plain_are_decided();
    let examined = examine(alloc, schema, query)?;
    Ok(examined.verdict(alloc)?)
}

impl Examined {
    /// The verdict on the query. Where the analysis leaves a call or a limit open, a witness is sought.
    pub fn verdict(self, alloc: Global) -> Result<Verdict, OutOfMemory>
        requires { fits (schema_of self.planned.schema) (plan_of self.planned.resolved.plan) ≡ true }
        ensures { IfOk result (IsVerdictOf (schema_of self.planned.schema) (plan_of self.planned.resolved.plan) self.analysis) }
    {
        let Examined { planned, analysis } = self;
        let (witness, _) = seek(alloc, &planned.schema, &planned.resolved.plan, &analysis)?;
        Ok(verdict_of(analysis, witness))
    }
}

/// The verdict by how the search for a witness ends.
pub(crate) fn verdict_of(analysis: Analysis, witness: Option<Witness>) -> Verdict
    ensures { (tables : List TableRule) → (plan : PlanTree) → EndsWith tables plan (reasons_of analysis) witness → IsVerdictOf tables plan analysis result }
{
    match (analysis, witness) {
        (Analysis::Certified(certificate), _) => Verdict::Deterministic(certificate),
        (Analysis::Open(_, _), Some(witness)) => Verdict::Depends(witness),
        (Analysis::Open(reasons, _), None) => Verdict::Unknown(reasons),
    }
}
