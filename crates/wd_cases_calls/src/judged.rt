//! What the calls say of the texts of a schema and a query.

ghost use Rattle.std.specs.Prelude.{◌≡◌, true, IfOk};
ghost use Rattle.wd_plan.specs.Fits.{fits};
ghost use Rattle.wd_plan.specs.Plans.{plan_of};
ghost use Rattle.wd_schema.specs.Schemas.{schema_of};

use crate::case::CallCases;
use crate::shown::{analysis_shown, certificate_shown, reasons_shown, witness_shown};
use std::alloc::Global;
use wd_analyse::{Analysis, analyse};
use wd_cases::{Failure, in_one_line, unescape};
use wd_check::{Verdict, decide, run};
use wd_plan::Outcome;
use wd_query::{PlannedQuery, read_texts};
use wd_tables::answer_text;
use wd_value::Text;
use wd_witness::{refute, seek};

/// The plan of the query.
fn plan_of_query(alloc: Global, given: &CallCases) -> Result<PlannedQuery, Failure>
    ensures { IfOk result (λ p. fits (schema_of p.schema) (plan_of p.resolved.plan) ≡ true) }
{
    match read_texts(alloc, &given.schema.bytes, &given.query) {
        Ok(planned) => Ok(planned),
        Err(error) => Err(Failure::refused(error.number(), error.place())),
    }
}

/// How many orderings the plan of the query has.
pub fn orderings(alloc: Global, given: &CallCases) -> Result<String, Failure> {
    let planned = plan_of_query(alloc, given)?;
    let count = planned.resolved.plan.orderings();
    Ok(format!(in alloc; "orderings: {count}")?)
}

/// The analysis of the plan.
fn analysis(alloc: Global, planned: &PlannedQuery) -> Result<Analysis, Failure>
    requires { fits (schema_of planned.now.schema) (plan_of planned.now.resolved.plan) ≡ true }
{
    Ok(analyse(alloc, &planned.resolved.plan, &planned.schema)?)
}

/// `analyse`: the certificate, or the reasons and the marks.
pub fn analyse_case(alloc: Global, given: &CallCases) -> Result<String, Failure> {
    let planned = plan_of_query(alloc, given)?;
    let analysis = analysis(alloc, &planned)?;
    analysis_shown(alloc, &analysis)
}

/// `seek`: the witness, and how many evaluations there were.
pub fn seek_case(alloc: Global, given: &CallCases) -> Result<String, Failure> {
    let planned = plan_of_query(alloc, given)?;
    let analysis = analysis(alloc, &planned)?;
    let (witness, evaluations) = seek(alloc, &planned.schema, &planned.resolved.plan, &analysis)?;
    let found = match &witness {
        Some(witness) => witness_shown(alloc, witness)?,
        None => String::from_str(alloc, "no witness")?,
    };
    Ok(format!(in alloc; "{found} after {evaluations}")?)
}

/// `refute TEXT`: whether the text is a true witness.
pub fn refute_case(alloc: Global, given: &CallCases, text: &str) -> Result<String, Failure> {
    let text = unescape(alloc, text)?;
    match refute(alloc, &given.schema.bytes, &given.query, &text) {
        Ok(_) => Ok(String::from_str(alloc, "refuted")?),
        Err(error) => Err(Failure::refused(error.number(), error.place())),
    }
}

/// `decide`: the verdict, with its certificate, its witness or its reasons.
pub fn decide_case(alloc: Global, given: &CallCases) -> Result<String, Failure> {
    match decide(alloc, &given.schema.bytes, &given.query) {
        Ok(verdict) => verdict_shown(alloc, &verdict),
        Err(error) => Err(Failure::refused(error.number(), error.place())),
    }
}

/// `run TABLE TEXT`: the answer over the data of this table, in one line.
pub fn ran(alloc: Global, given: &CallCases, text: &str) -> Result<String, Failure> {
    let (name, data) = text.split_once(' ').ok_or(Failure::NoCase)?;
    let data = unescape(alloc, data)?;
    ran_over(alloc, given, name, &data)
}

fn ran_over(alloc: Global, given: &CallCases, name: &str, data: &[u8]) -> Result<String, Failure> {
    match run(alloc, &given.schema.bytes, &given.query, &[(name, data)]) {
        Ok((names, outcome)) => answer_line(alloc, &names, &outcome),
        Err(error) => Err(Failure::refused(error.number(), error.place())),
    }
}

/// The text of an answer, in one line.
fn answer_line(alloc: Global, names: &[Text], outcome: &Outcome) -> Result<String, Failure> {
    match outcome {
        Outcome::Rows(rows) => in_one_line(alloc, &answer_text(alloc, names, rows)?),
        Outcome::Fault(_) => Ok(String::from_str(alloc, "a fault")?),
    }
}

fn verdict_shown(alloc: Global, verdict: &Verdict) -> Result<String, Failure> {
    match verdict {
        Verdict::Deterministic(certificate) => {
            let text = certificate_shown(alloc, certificate)?;
            Ok(format!(in alloc; "deterministic {text}")?)
        }
        Verdict::Depends(witness) => {
            let text = witness_shown(alloc, witness)?;
            Ok(format!(in alloc; "depends {text}")?)
        }
        Verdict::Unknown(reasons) => {
            let text = reasons_shown(alloc, reasons)?;
            Ok(format!(in alloc; "unknown{text}")?)
        }
    }
}
