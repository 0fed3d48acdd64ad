//! What is found of a query.

ghost use Rattle.std.specs.Prelude.{◌≡◌, true, map, option_map, IfOk, IfErr, IfSome};
ghost use Rattle.wd_accept.specs.Acceptance.{HaveOneAnswer};
ghost use Rattle.wd_certain.specs.Certain.{IsCertain};
ghost use Rattle.wd_decide.specs.Verdicts.{HasCause};
ghost use Rattle.wd_finding.specs.Findings.{AreAnswers, AreMarked, IsFinding, IsUnknown, open_in, reason_of, witness_shown};
ghost use Rattle.wd_further.specs.Finds.{IsFound};
ghost use Rattle.wd_plan.specs.Fits.{fits};
ghost use Rattle.wd_plan.specs.Plans.{plan_of};
ghost use Rattle.wd_schema.specs.Schemas.{schema_of};

use crate::answers::{Answers, answers_under};
use crate::place::{OpenPlace, places};
use std::alloc::Global;
use wd_analyse::{Analysis, Reason};
use wd_certain::{Certain, certify_simpler};
use wd_decide::{DecideError, Examined, Verdict, decide, examine};
use wd_further::{Found, seek_further};
use wd_query::PlannedQuery;
use wd_ties::{TableColumn, tied_columns};
use wd_value::OutOfMemory;
use wd_witness_text::Witness;

/// What is found of a query over a schema.
#[derive(Drop)]
pub struct Finding {
    /// The schema, and the plan of the query.
    pub planned: PlannedQuery,
    pub verdict: Verdict,
    /// Where the verdict is UNKNOWN, the certificate of a simpler plan, which shows that the query has one answer.
    pub certain: Option<Certain>,
    /// The calls and the limits for which no rule is known, in postorder; empty where the simpler plan is certified.
    pub places: Vec<OpenPlace>,
    /// Where the verdict is UNKNOWN, the witness that a further search finds.
    pub further: Option<Found>,
    /// The two answers that the witness shows; `None` without a witness.
    pub answers: Option<Answers>,
    /// The table columns by which those rows tie that the witness's choices order differently: rows that tie there have the same values
    /// in these columns.
    pub ties: Vec<TableColumn>,
}

impl Finding {
    /// The witness that shows two answers of the query: that of the verdict, or the one that the further search finds.
    pub fn witness(&self) -> Option<&Witness>
        ensures { option_map (λ w. w.now) result ≡ witness_shown self.now.verdict self.now.further }
    {
        witness_of_all(&self.verdict, &self.further)
    }
}

/// The witness of a verdict, or the one that the further search finds.
fn witness_of_all<'a>(verdict: &'a Verdict, further: &'a Option<Found>) -> Option<&'a Witness>
    ensures { option_map (λ w. w.now) result ≡ witness_shown verdict.now further.now }
{
    match (verdict, further) {
        (Verdict::Depends(witness), _) => Some(witness),
        (Verdict::Unknown(_), Some(found)) => Some(&found.witness),
        (Verdict::Unknown(_), None) | (Verdict::Deterministic(_), _) => None,
    }
}

/// The verdict on a query over a schema, and the calls and the limits that are open. Where the verdict is UNKNOWN, a simpler plan is
/// analysed, and where that leaves something open too, a further search is made for a witness. Where there is a witness, the finding
/// has the query's answers over its tables under its two choices.
///
/// Each refusal occurs only where its cause holds, as for `decide`.
pub fn judge(alloc: Global, schema: &[u8], query: &[u8]) -> Result<Finding, DecideError>
    ensures found { IfOk result (IsFinding schema.now query.now) }
    ensures refused { IfErr result (HasCause schema.now query.now) }
{
    let verdict = decide(alloc, schema, query)?;
    let examined = examine(alloc, schema, query)?;
    let certain = certify(alloc, schema, query, &verdict)?;
    let further = further_witness(alloc, schema, query, &verdict, &certain)?;
    Ok(with_evidence(alloc, query, verdict, certain, further, examined)?)
}

/// The certificate of a simpler plan, where the verdict is UNKNOWN.
fn certify(
    alloc: Global,
    schema: &[u8],
    query: &[u8],
    verdict: &Verdict,
) -> Result<Option<Certain>, OutOfMemory>
    ensures certain { IfOk result (λ o. IfSome o (IsCertain schema.now query.now)) }
    ensures one_answer { IfOk result (λ o. IfSome o (λ _. HaveOneAnswer schema.now query.now)) }
    ensures unknown { IfOk result (λ o. IfSome o (λ _. IsUnknown verdict.now)) }
{
    match verdict {
        Verdict::Unknown(_) => certify_simpler(alloc, schema, query),
        Verdict::Deterministic(_) | Verdict::Depends(_) => Ok(None),
    }
}

/// What a further search finds, where the verdict is UNKNOWN and no simpler plan is certified.
fn further_witness(
    alloc: Global,
    schema: &[u8],
    query: &[u8],
    verdict: &Verdict,
    certain: &Option<Certain>,
) -> Result<Option<Found>, OutOfMemory>
    ensures { IfOk result (λ o. IfSome o (IsFound schema.now query.now)) }
{
    match (verdict, certain) {
        (Verdict::Unknown(_), None) => seek_further(alloc, schema, query),
        _ => Ok(None),
    }
}

/// The finding of a verdict on a query and of what the analysis found.
fn with_evidence(
    alloc: Global,
    query: &[u8],
    verdict: Verdict,
    certain: Option<Certain>,
    further: Option<Found>,
    examined: Examined,
) -> Result<Finding, OutOfMemory>
    requires { fits (schema_of examined.planned.schema) (plan_of examined.planned.resolved.plan) ≡ true }
    ensures verdict { IfOk result (λ f. f.verdict ≡ verdict) }
    ensures certain { IfOk result (λ f. f.certain ≡ certain) }
    ensures planned { IfOk result (λ f. f.planned ≡ examined.planned) }
    ensures reasons { IfOk result (λ f. map reason_of f.places.items ≡ open_in certain examined.analysis) }
    ensures further { IfOk result (λ f. f.further ≡ further) }
    ensures answers { IfOk result (λ f. AreAnswers (schema_of examined.planned.schema) (plan_of examined.planned.resolved.plan) (witness_shown verdict further) f.answers) }
    ensures ties { IfOk result (λ f. AreMarked (plan_of examined.planned.resolved.plan) (witness_shown verdict further) f.ties.items) }
{
    let Examined { planned, analysis } = examined;
    let open = reasons_in(&certain, &analysis);
    let places = places(alloc, query, &planned.resolved.plan, open)?;
    let answers = answers_of(alloc, &planned, witness_of_all(&verdict, &further))?;
    let ties = ties_of(alloc, &planned, witness_of_all(&verdict, &further))?;
    Ok(Finding {
        planned,
        verdict,
        certain,
        places,
        further,
        answers,
        ties,
    })
}

/// Why an analysis leaves calls and limits open; empty where a simpler plan is certified.
fn reasons_in<'a>(certain: &Option<Certain>, analysis: &'a Analysis) -> &'a [Reason]
    ensures { result.now ≡ open_in certain.now analysis.now }
{
    match (certain, analysis) {
        (None, Analysis::Open(reasons, _)) => reasons,
        _ => &[],
    }
}

/// The answers that a witness shows.
fn answers_of(
    alloc: Global,
    planned: &PlannedQuery,
    witness: Option<&Witness>,
) -> Result<Option<Answers>, OutOfMemory>
    requires { fits (schema_of planned.now.schema) (plan_of planned.now.resolved.plan) ≡ true }
    ensures { IfOk result (AreAnswers (schema_of planned.now.schema) (plan_of planned.now.resolved.plan) (option_map (λ w. w.now) witness.entry)) }
{
    match witness {
        Some(witness) => answers_under(alloc, planned, witness),
        None => Ok(None),
    }
}

/// The columns of tables by which rows tie in a witness.
fn ties_of(
    alloc: Global,
    planned: &PlannedQuery,
    witness: Option<&Witness>,
) -> Result<Vec<TableColumn>, OutOfMemory>
    ensures { IfOk result (λ v. AreMarked (plan_of planned.now.resolved.plan) (option_map (λ w. w.now) witness.entry) v.items) }
{
    match witness {
        Some(witness) => tied_columns(
            alloc,
            &planned.resolved.plan,
            &witness.first,
            &witness.second,
        ),
        None => Ok(Vec::new(alloc)),
    }
}
