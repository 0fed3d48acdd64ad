//! Queries over data.
use crate::given::Given;
use std::alloc::Global;
use wd_cases::{Failure, in_one_line, unescape};
use wd_plan::Outcome;
use wd_run::{Origin, RunError};
use wd_tables::answer_text;
use wd_value::{Fault, Row, Text};

/// The text of an answer, in one line.
fn answer_line(alloc: Global, names: &[Text], rows: &[Row]) -> Result<String, Failure> {
    let text = answer_text(alloc, names, rows)?;
    in_one_line(alloc, &text)
}

fn fault_name(fault: Fault) -> &'static str {
    match fault {
        Fault::DivisionByZero => "fault F1",
        Fault::OutOfRange => "fault F2",
    }
}

fn show_refusal(alloc: Global, error: &RunError) -> Result<String, Failure> {
    let shown = Failure::refused(error.number(), error.place()).shown(alloc)?;
    Ok(match error.origin() {
        Origin::Schema => format!(in alloc; "schema {shown}")?,
        Origin::Query => format!(in alloc; "query {shown}")?,
        Origin::Data(name) => format!(in alloc; "data {name} {shown}")?,
        Origin::Run => format!(in alloc; "run {shown}")?,
    })
}

/// `run QUERY`: its answer over the schema and the data, its fault or its refusal.
pub fn ran(alloc: Global, given: &Given, text: &str) -> Result<String, Failure> {
    let query = unescape(alloc, text)?;
    ran_over(alloc, given, &query)
}

fn ran_over(alloc: Global, given: &Given, query: &[u8]) -> Result<String, Failure> {
    let data = given.data.pairs(alloc)?;
    match wd_run::run(alloc, &given.schema.bytes, query, &data) {
        Ok((names, outcome)) => outcome_shown(alloc, &names, &outcome),
        Err(error) => show_refusal(alloc, &error),
    }
}

fn outcome_shown(alloc: Global, names: &[Text], outcome: &Outcome) -> Result<String, Failure> {
    match outcome {
        Outcome::Rows(rows) => answer_line(alloc, names, rows),
        Outcome::Fault(fault) => Ok(String::from_str(alloc, fault_name(*fault))?),
    }
}
