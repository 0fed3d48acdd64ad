//! Expressions over a row, and steps over the rows.

use crate::shown::{push, push_fault, push_rows, push_truth, push_value_or_fault};
use std::alloc::Global;
use wd_cases::Failure;
use wd_cases_notation::{Line, State, Word};
use wd_columns::{OwnRows, Pair, RowSource, copy_rows};
use wd_join::{StepError, all_pairs, join_pairs, paired_rows};
use wd_plan::{Expr, Limit};
use wd_scalar::{has_arithmetic, is_true, value_at};
use wd_steps::{distinct_positions, kept_positions, map_columns, passing_positions, with_fault};
use wd_value::{Fault, OutOfMemory, Row, SortColumn, Value, copy_row};

/// What is asked of one expression: over the first row, or as a condition of all rows.
pub fn expression_answer(
    alloc: Global,
    state: &State,
    name: &str,
    out: &mut String,
) -> Result<(), Failure> {
    let expression = state.stacks.expressions.first().ok_or(Failure::NoCase)?;
    match name {
        "has_arithmetic" => push_truth(out, has_arithmetic(expression)),
        "value_of" | "is_true" => push_value_of(alloc, expression, state.rows(), name, out),
        "filter_rows" => push_filtered(alloc, expression, state.rows(), out),
        "copy_filtered" => push_copies(alloc, expression, state.rows(), out),
        _ => Err(Failure::NoCase),
    }
}

fn push_value_of(
    alloc: Global,
    expression: &Expr,
    rows: &[Row],
    name: &str,
    out: &mut String,
) -> Result<(), Failure> {
    let value = value_at(alloc, expression, &RowSource::of_rows(rows), 0)?;
    if name == "is_true" {
        push_is_true(out, &value)
    } else {
        push_value_or_fault(out, &value)
    }
}

/// The rows that pass, moved out of copies of all of them.
fn push_filtered(
    alloc: Global,
    condition: &Expr,
    rows: &[Row],
    out: &mut String,
) -> Result<(), Failure> {
    let copies = OwnRows::of_rows(copy_list(alloc, rows)?);
    let found = passing_positions(alloc, condition, &copies.source())?;
    match found {
        Ok(kept) => push_own_rows(alloc, out, copies.pick(alloc, &kept)?),
        Err(fault) => push_fault(out, fault),
    }
}

/// Copies of the rows that pass.
fn push_copies(
    alloc: Global,
    condition: &Expr,
    rows: &[Row],
    out: &mut String,
) -> Result<(), Failure> {
    let rows = RowSource::of_rows(rows);
    match passing_positions(alloc, condition, &rows)? {
        Ok(kept) => push_own_rows(alloc, out, copy_rows(alloc, &rows, &kept)?),
        Err(fault) => push_fault(out, fault),
    }
}

fn push_own_rows(alloc: Global, out: &mut String, rows: OwnRows) -> Result<(), Failure> {
    push_rows(out, &rows.into_list(alloc)?)
}

/// Whether a value is true; a fault is written as it is.
fn push_is_true(out: &mut String, value: &Result<Value, Fault>) -> Result<(), Failure> {
    match value {
        Ok(value) => push_truth(out, is_true(value)),
        Err(fault) => push_fault(out, *fault),
    }
}

/// A list of copies of the rows.
pub fn copy_list(alloc: Global, rows: &[Row]) -> Result<Vec<Row>, OutOfMemory> {
    let mut copied = Vec::new(alloc);
    for row in rows {
        copied.push(copy_row(alloc, row)?)?;
    }
    Ok(copied)
}

/// `map_rows EXPRESSIONS`, `distinct_rows`, and joins and cuts
pub fn answer(alloc: Global, state: &State, line: Line, out: &mut String) -> Result<(), Failure> {
    match line.word.name {
        "map_rows" => push_mapped(alloc, &state.stacks.expressions, state.rows(), out),
        "distinct_rows" => push_distinct(alloc, state.rows(), out),
        "join_rows" => push_joined(alloc, state, line.word, out),
        _ => push_limit(alloc, state, line.word, out),
    }
}

fn push_mapped(
    alloc: Global,
    outputs: &[Expr],
    rows: &[Row],
    out: &mut String,
) -> Result<(), Failure> {
    match map_columns(alloc, outputs, &RowSource::of_rows(rows))? {
        Ok(columns) => push_own_rows(alloc, out, OwnRows::of_columns(columns)),
        Err(fault) => push_fault(out, fault),
    }
}

fn push_distinct(alloc: Global, rows: &[Row], out: &mut String) -> Result<(), Failure> {
    let rows = RowSource::of_rows(rows);
    let kept = distinct_positions(alloc, &rows)?;
    push_own_rows(alloc, out, copy_rows(alloc, &rows, &kept)?)
}

/// `join_rows(MOST) CONDITION`, or without a condition: of the rows with those that `right` has
/// set.
fn push_joined(alloc: Global, state: &State, word: Word, out: &mut String) -> Result<(), Failure> {
    let most = word.number(0).ok_or(Failure::NoCase)?;
    let condition = state.stacks.expressions.first();
    let left = RowSource::of_rows(state.rows());
    let right = RowSource::of_rows(&state.right);
    match pairs(alloc, condition, &left, &right, most) {
        Ok(Ok(pairs)) => push_own_rows(alloc, out, paired_rows(alloc, &left, &right, &pairs)?),
        Ok(Err(fault)) => push_fault(out, fault),
        Err(StepError::TooManyRows) => push(out, "too many rows"),
        Err(StepError::OutOfMemory) => Err(Failure::OUT_OF_MEMORY),
    }
}

fn pairs(
    alloc: Global,
    condition: Option<&Expr>,
    left: &RowSource,
    right: &RowSource,
    most: u64,
) -> Result<Result<Vec<Pair>, Fault>, StepError> {
    match condition {
        Some(condition) => join_pairs(alloc, condition, left, right, most),
        None => {
            let all = all_pairs(alloc, left, right)?;
            if all.len() as u64 > most {
                return Err(StepError::TooManyRows);
            }
            Ok(Ok(all))
        }
    }
}

/// `cut_rows(OFFSET,COUNT) KEYS : ORDERING`, as a limit has them.
fn push_limit(alloc: Global, state: &State, word: Word, out: &mut String) -> Result<(), Failure> {
    let counts = word.limit().ok_or(Failure::NoCase)?;
    let limit = Limit {
        keys: copied_keys(alloc, &state.stacks.items)?,
        offset: counts.offset,
        count: counts.count,
        ties: counts.ties,
    };
    let rows = RowSource::of_rows(state.rows());
    let kept = kept_positions(&limit, &rows, state.ordering());
    push_own_rows(alloc, out, copy_rows(alloc, &rows, kept)?)
}

fn copied_keys(alloc: Global, keys: &[SortColumn]) -> Result<Vec<SortColumn>, Failure> {
    let mut copies = Vec::with_capacity(alloc, keys.len())?;
    for key in keys {
        copies.push(*key)?;
    }
    Ok(copies)
}

/// `with_fault(FAULT)`, or with a fault that was met before, as `with_fault(FAULT,FAULT)`.
pub fn faults(word: Word, out: &mut String) -> Result<(), Failure> {
    let found = fault_of(word.argument(0)).ok_or(Failure::NoCase)?;
    push_fault(out, with_fault(fault_of(word.argument(1)), found))
}

/// The fault that an argument names.
pub fn fault_of(word: Option<&str>) -> Option<Fault> {
    match word {
        Some("division_by_zero") => Some(Fault::DivisionByZero),
        Some("out_of_range") => Some(Fault::OutOfRange),
        _ => None,
    }
}
