//! What is printed for a failure.
use std::alloc::Global;
use wd_cases::{Failure, in_one_line};
use wd_command::report;
use wd_eval::EvalError;
use wd_run::RunError;
use wd_value::{Fault, Text};

/// `report FAILURE`: the status, and the line on standard error.
pub fn report_failure(alloc: Global, text: &str) -> Result<String, Failure> {
    let (name, word) = text.split_once(' ').unwrap_or((text, ""));
    match failure_of(name, word) {
        Some(failure) => show(alloc, &failure),
        None => report_refusal(alloc, name, word),
    }
}

fn show(alloc: Global, failure: &wd_command::Failure<'_>) -> Result<String, Failure> {
    let mut err = Vec::new(alloc);
    let status = report(failure, &mut err);
    let err = in_one_line(alloc, &err)?;
    Ok(format!(in alloc; "{status}; err: {err}")?)
}

fn failure_of<'a>(name: &str, word: &'a str) -> Option<wd_command::Failure<'a>> {
    match name {
        "not_text" => Some(wd_command::Failure::NotText),
        "unassigned" => Some(wd_command::Failure::Unassigned(word)),
        "division_by_zero" => Some(wd_command::Failure::Fault(Fault::DivisionByZero)),
        "out_of_range" => Some(wd_command::Failure::Fault(Fault::OutOfRange)),
        "cannot_read" => Some(wd_command::Failure::CannotRead(word)),
        "cannot_write" => Some(wd_command::Failure::CannotWrite),
        "out_of_memory" => Some(wd_command::Failure::OutOfMemory),
        _ => None,
    }
}

/// A refusal of a run.
fn report_refusal(alloc: Global, name: &str, word: &str) -> Result<String, Failure> {
    let error = refusal_of(alloc, name, word)?;
    show(alloc, &wd_command::Failure::from(error))
}

fn refusal_of(alloc: Global, name: &str, word: &str) -> Result<RunError, Failure> {
    match name {
        "given" => given_error(alloc, word),
        "too_many_rows" => Ok(RunError::Evaluation(EvalError::TooManyRows)),
        "run_out_of_memory" => Ok(RunError::OutOfMemory),
        _ => Err(Failure::NoCase),
    }
}

fn given_error(alloc: Global, name: &str) -> Result<RunError, Failure> {
    let name = Text::from_str(alloc, name)?;
    Ok(RunError::Given { name })
}
