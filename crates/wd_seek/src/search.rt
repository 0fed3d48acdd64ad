//! The search through all candidates.

ghost use Rattle.std.specs.Prelude.{◌≡◌, ◌≤◌, true, filter, IfNone, IfOk, IfSome, OnOk};
ghost use Rattle.wd_candidates.specs.Candidates.{candidates};
ghost use Rattle.wd_candidates.specs.Outlines.{IsOutline};
ghost use Rattle.wd_plan.specs.Fits.{fits};
ghost use Rattle.wd_partition.specs.declared.turn.Turn.TheVariants.{Reversed};
ghost use Rattle.wd_plan.specs.Plans.{plan_of};
ghost use Rattle.wd_seek.specs.Evaluations.{most_evaluations};
ghost use Rattle.wd_seek.specs.Passed.{ArePassed};
ghost use Rattle.wd_seek.specs.Search.{FirstShowNothing};
ghost use Rattle.wd_seek.specs.Searched.{IsSearched};
ghost use Rattle.wd_refute.specs.Laws.{IsShown};
ghost use Rattle.wd_schema.specs.Schemas.{schema_of};
ghost use Rattle.wd_seek.specs.Sought.{IsSought, is_meeting, reasons_of, to_try};
ghost use Rattle.wd_witness_text.specs.Witnesses.{witness_of};

use crate::passed::{Passed, try_tied};
use crate::probed::MOST_EVALUATIONS;
use crate::searched::{Searched, has_one_answer};
use crate::trailed::FEWEST_ORDERINGS;
use std::alloc::Global;
use wd_analyse::{Analysis, Reason};
use wd_candidates::{Outline, outline_of, tied_columns};
use wd_lighter::lighter;
use wd_plan::Plan;
use wd_schema::Schema;
use wd_value::OutOfMemory;
use wd_witness_text::Witness;

/// A witness against a plan that an analysis leaves open, and the number of evaluations that were made.
///
/// The candidates for each reason are tried in order: small instances of 2, 3 and 4 rows in each table that the plan scans, in which rows
/// tie on the columns that the reason's call or limit sorts by. A candidate that does not meet the schema is skipped. Each is evaluated
/// with the orderings that keep tied rows in their order, and then with one ordering after another reversed, until an outcome does not
/// agree with the first. A candidate is given up at a step of more than 10,000,000 rows, the search after 2,000 evaluations. A reason
/// that names no call or limit of the plan is skipped; a certificate has no reasons.
pub fn seek(
    alloc: Global,
    schema: &Schema,
    plan: &Plan,
    analysis: &Analysis,
) -> Result<(Option<Witness>, u32), OutOfMemory>
    requires { fits (schema_of schema.now) (plan_of plan.now) ≡ true }
    ensures sought { IfOk result (λ r. IsSought Reversed (schema_of schema.now) (plan_of plan.now) (to_try (schema_of schema.now) (plan_of plan.now) (reasons_of analysis.now)) 0 r.0 r.1) }
    ensures few { IfOk result (λ r. r.1 ≤ most_evaluations) }
    ensures shown { IfOk result (λ r. IfSome r.0 (λ w. IsShown (schema_of schema.now) (plan_of plan.now) (witness_of w))) }
    ensures exhaustive { IfOk result (λ r. IfNone r.0 (FirstShowNothing Reversed (plan_of plan.now) (to_try (schema_of schema.now) (plan_of plan.now) (reasons_of analysis.now)))) }
{
    match analysis {
        Analysis::Certified(_) => Ok((None, 0)),
        Analysis::Open(reasons, _) => {
            let outline = outline_of(alloc, schema, plan)?;
            try_lighter_plan(alloc, schema, plan, &outline, reasons)
        }
    }
}

/// Tries the candidates for each reason, over the lighter plan where that has one answer, or where what each node gives is kept. Another
/// plan with fewer orderings is evaluated anew each time, and its own calls may cost less than those that stand for what nothing reads.
fn try_lighter_plan(
    alloc: Global,
    schema: &Schema,
    plan: &Plan,
    outline: &Outline,
    reasons: &[Reason],
) -> Result<(Option<Witness>, u32), OutOfMemory>
    requires fitting { fits (schema_of schema.now) (plan_of plan.now) ≡ true }
    requires outline { IsOutline (schema_of schema.now) (plan_of plan.now) outline.now }
    ensures few { IfOk result (λ r. r.1 ≤ most_evaluations) }
    ensures sought { IfOk result (λ r. IsSought Reversed (schema_of schema.now) (plan_of plan.now) (to_try (schema_of schema.now) (plan_of plan.now) reasons.now) 0 r.0 r.1) }
{
    let lighter = lighter(alloc, schema, plan)?;
    let has_one = has_one_answer(alloc, schema, &lighter)?;
    if has_one || plan.orderings() >= FEWEST_ORDERINGS {
        let searched = Searched {
            plan: &lighter,
            has_one,
        };
        try_reasons(alloc, schema, plan, searched, outline, reasons)
    } else {
        let searched = Searched {
            plan,
            has_one: false,
        };
        try_reasons(alloc, schema, plan, searched, outline, reasons)
    }
}

/// Tries the candidates for each reason.
fn try_reasons(
    alloc: Global,
    schema: &Schema,
    plan: &Plan,
    searched: Searched<'_>,
    outline: &Outline,
    reasons: &[Reason],
) -> Result<(Option<Witness>, u32), OutOfMemory>
    requires fitting { fits (schema_of schema.now) (plan_of plan.now) ≡ true }
    requires searched { IsSearched (schema_of schema.now) (plan_of plan.now) searched }
    requires outline { IsOutline (schema_of schema.now) (plan_of plan.now) outline.now }
    ensures few { IfOk result (λ r. r.1 ≤ most_evaluations) }
    ensures sought { IfOk result (λ r. IsSought Reversed (schema_of schema.now) (plan_of plan.now) (to_try (schema_of schema.now) (plan_of plan.now) reasons.now) 0 r.0 r.1) }
{
    let mut spent = 0;
    let mut passed = Vec::new(alloc);
    for reason in reasons {
        let (found, made) = try_reason(
            alloc,
            schema,
            plan,
            searched,
            outline,
            *reason,
            spent,
            &mut passed,
        )?;
        if let Some(witness) = found {
            return Ok((Some(witness), made));
        }
        spent = made;
    }
    Ok((None, spent))
}

/// Tries the candidates for one reason. Those of columns whose candidates passed before are not evaluated again.
fn try_reason(
    alloc: Global,
    schema: &Schema,
    plan: &Plan,
    searched: Searched<'_>,
    outline: &Outline,
    reason: Reason,
    spent: u32,
    passed: &mut Vec<Passed>,
) -> Result<(Option<Witness>, u32), OutOfMemory>
    requires fitting { fits (schema_of schema.now) (plan_of plan.now) ≡ true }
    requires searched { IsSearched (schema_of schema.now) (plan_of plan.now) searched }
    requires outline { IsOutline (schema_of schema.now) (plan_of plan.now) outline.now }
    requires few { spent ≤ most_evaluations }
    requires passed { ArePassed (schema_of schema.now) (plan_of plan.now) passed.old.items }
    ensures passed { OnOk result (ArePassed (schema_of schema.now) (plan_of plan.now) passed.new.items) }
    ensures few { IfOk result (λ r. r.1 ≤ most_evaluations) }
    ensures sought { IfOk result (λ r. IsSought Reversed (schema_of schema.now) (plan_of plan.now) (filter (is_meeting (schema_of schema.now)) (candidates (schema_of schema.now) (plan_of plan.now) reason.node reason.call)) spent r.0 r.1) }
{
    if spent == MOST_EVALUATIONS {
        return Ok((None, spent));
    }
    match tied_columns(alloc, schema, plan, reason.node, reason.call)? {
        None => Ok((None, spent)),
        Some(tied) => try_tied(alloc, schema, plan, searched, outline, tied, spent, passed),
    }
}
