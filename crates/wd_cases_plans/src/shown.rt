//! How answers are written.

use std::cmp::Ordering;
use wd_cases::Failure;
use wd_eval::EvalError;
use wd_plan::Outcome;
use wd_value::{Fault, Row, Value};

pub fn push(out: &mut String, text: &str) -> Result<(), Failure> {
    Ok(out.push_str(text)?)
}

pub fn push_value(out: &mut String, value: &Value) -> Result<(), Failure> {
    match value {
        Value::Null => push(out, "null"),
        Value::Int(n) => push_number(out, *n),
        Value::Text(text) => push_text(out, text.as_str()),
        Value::Bool(truth) => push_truth(out, *truth),
    }
}

pub fn push_number(out: &mut String, n: i64) -> Result<(), Failure> {
    Ok(write!(out, "{n}")?)
}

pub fn push_numbers(out: &mut String, numbers: &[u64]) -> Result<(), Failure> {
    Ok(write!(out, "{numbers:?}")?)
}

fn push_text(out: &mut String, text: &str) -> Result<(), Failure> {
    Ok(write!(out, "'{text}'")?)
}

pub fn push_truth(out: &mut String, truth: bool) -> Result<(), Failure> {
    push(out, if truth { "true" } else { "false" })
}

/// What parts the element at a place from the one before.
pub fn push_between(out: &mut String, place: usize, mark: &str) -> Result<(), Failure> {
    push(out, if place == 0 { "" } else { mark })
}

/// Values with `,` between them.
pub fn push_row(out: &mut String, row: &[Value]) -> Result<(), Failure> {
    for (i, value) in row.iter().enumerate() {
        push_between(out, i, ",")?;
        push_value(out, value)?;
    }
    Ok(())
}

/// Rows with `;` between them, or `-` for none.
pub fn push_rows(out: &mut String, rows: &[Row]) -> Result<(), Failure> {
    for (i, row) in rows.iter().enumerate() {
        push_between(out, i, "; ")?;
        push_row(out, row)?;
    }
    push(out, if rows.is_empty() { "-" } else { "" })
}

pub fn push_fault(out: &mut String, fault: Fault) -> Result<(), Failure> {
    push(
        out,
        match fault {
            Fault::DivisionByZero => "division by zero",
            Fault::OutOfRange => "out of range",
        },
    )
}

pub fn push_value_or_fault(out: &mut String, value: &Result<Value, Fault>) -> Result<(), Failure> {
    match value {
        Ok(value) => push_value(out, value),
        Err(fault) => push_fault(out, *fault),
    }
}

pub fn push_outcome(out: &mut String, outcome: &Outcome) -> Result<(), Failure> {
    match outcome {
        Outcome::Rows(rows) => push_rows(out, rows),
        Outcome::Fault(fault) => push_fault(out, *fault),
    }
}

pub fn push_comparison(out: &mut String, ordering: Ordering) -> Result<(), Failure> {
    push(
        out,
        match ordering {
            Ordering::Less => "<",
            Ordering::Equal => "=",
            Ordering::Greater => ">",
        },
    )
}

/// The number of a refusal and its place, where it has them.
pub fn push_refusal(out: &mut String, refusal: &EvalError) -> Result<(), Failure> {
    let (number, place) = (refusal.number(), refusal.place());
    Ok(write!(out, "refused {number:?} {place:?}")?)
}
