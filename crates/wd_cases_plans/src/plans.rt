//! Windows and whole plans under choices.

ghost use Rattle.std.specs.Prelude.{◌≡◌, ◌-◌, ◌^◌, true, IsTrue};
ghost use Rattle.wd_plan.specs.Fits as spec;
ghost use Rattle.wd_plan.specs.Outcomes.{outcome_of};
ghost use Rattle.wd_plan.specs.Plans.{NamesClasses, plan_of, window_of};
ghost use Rattle.wd_schema.specs.Schemas.{schema_of};
ghost use Rattle.wd_eval.specs.Windows.{AreFew};

use crate::shown::{push, push_between, push_number, push_outcome, push_refusal, push_truth};
use crate::steps::{copy_list, fault_of};
use std::alloc::Global;
use wd_cases::Failure;
use wd_cases_notation::{Line, State, Word};
use wd_eval::{
    EvalError, check_choice, eval_with, eval_within, evaluate_window, first_choice, run_plan,
    tied_choice,
};
use wd_plan::{Choice, Outcome, Plan, Window};
use wd_schema::Schema;
use wd_value::{Instance, Row};

/// The most rows that a step may have.
const MOST_ROWS: u64 = 10_000_000;

/// `evaluate_window(FIRST) CLASSES CALLS : ORDERINGS`: the rows with the calls' values, under the
/// orderings from that number on; over a fault with `evaluate_window(FIRST,FAULT)`.
pub fn window(alloc: Global, state: &State, word: Word, out: &mut String) -> Result<(), Failure> {
    let first = word.number(0).ok_or(Failure::NoCase)? as usize;
    let input = input_of(alloc, state.rows(), word.argument(1))?;
    match evaluate(alloc, state, input, first) {
        Ok(outcome) => push_outcome(out, &outcome),
        Err(EvalError::NotValid(place)) => push_not_valid(out, place),
        Err(EvalError::TooManyRows | EvalError::OutOfMemory) => Err(Failure::OUT_OF_MEMORY),
    }
}

fn input_of(alloc: Global, rows: &[Row], fault: Option<&str>) -> Result<Outcome, Failure> {
    match fault {
        None => Ok(Outcome::Rows(copy_list(alloc, rows)?)),
        _ => Ok(Outcome::Fault(fault_of(fault).ok_or(Failure::NoCase)?)),
    }
}

fn push_not_valid(out: &mut String, place: u64) -> Result<(), Failure> {
    Ok(write!(out, "not valid at {place}")?)
}

/// What the Window gives; out of memory where it can't be asked.
fn evaluate(
    alloc: Global,
    state: &State,
    input: Outcome,
    first: usize,
) -> Result<Outcome, EvalError> {
    let (window, choice) = (&state.stacks.window, &state.choice.orderings);
    if names_classes(window) && is_few(&input) && first <= choice.len() {
        evaluate_window(alloc, window, input, choice, first)
    } else {
        Err(EvalError::OutOfMemory)
    }
}

/// Whether each call names one of the Window's classes.
fn names_classes(window: &Window) -> bool
    ensures { IsTrue result → NamesClasses (window_of window.now) }
{
    let count = window.classes.len();
    window
        .calls
        .iter()
        .all(|call| usize::from(call.class) < count)
}

/// Whether peer group numbers of 32 bits do.
fn is_few(input: &Outcome) -> bool
    ensures { IsTrue result → AreFew (2 ^ 32 - 1) (outcome_of input.now) }
{
    match input {
        Outcome::Rows(rows) => rows.len() <= u32::MAX as usize,
        Outcome::Fault(_) => true,
    }
}

/// `fits PLAN` and `orderings PLAN`
pub fn plan_answer(state: &State, name: &str, out: &mut String) -> Result<(), Failure> {
    let plan = state.stacks.plans.first().ok_or(Failure::NoCase)?;
    match (name, &state.schema) {
        ("fits", Some(schema)) => push_truth(out, plan.fits(schema)),
        ("orderings", _) => push_number(out, i64::from(plan.orderings())),
        _ => Err(Failure::NoCase),
    }
}

/// What is asked of the plan that is set, where it fits the schema.
pub fn answer(alloc: Global, state: &State, line: Line, out: &mut String) -> Result<(), Failure> {
    match (&state.plan, &state.schema) {
        (Some(plan), Some(schema)) if plan.fits(schema) => {
            push_of(alloc, plan, schema, state, line, out)
        }
        _ => Err(Failure::NoCase),
    }
}

fn push_of(
    alloc: Global,
    plan: &Plan,
    schema: &Schema,
    state: &State,
    line: Line,
    out: &mut String,
) -> Result<(), Failure>
    requires { spec.fits (schema_of schema.now) (plan_of plan.now) ≡ true }
{
    let instance = &state.instance;
    match line.word.name {
        "eval_with" => push_evaluated(alloc, plan, schema, state, out),
        "eval_within" => push_within(alloc, plan, schema, state, line.word, out),
        "run_plan" => push_given(out, run_plan(alloc, plan, schema, instance)),
        "first_choice" => push_choice(out, first_choice(alloc, plan, schema, instance)),
        _ => push_tied(alloc, plan, schema, instance, line.word.arguments, out),
    }
}

/// `eval_with : ORDERINGS`: what `check_choice` and `eval_with` give for the choice.
fn push_evaluated(
    alloc: Global,
    plan: &Plan,
    schema: &Schema,
    state: &State,
    out: &mut String,
) -> Result<(), Failure>
    requires { spec.fits (schema_of schema.now) (plan_of plan.now) ≡ true }
{
    let (instance, choice) = (&state.instance, &state.choice);
    push_checked(out, check_choice(alloc, plan, schema, instance, choice))?;
    push_given(out, eval_with(alloc, plan, schema, instance, choice))
}

/// `eval_within(MOST) : ORDERINGS`: what the choice gives where a step may have so many rows.
fn push_within(
    alloc: Global,
    plan: &Plan,
    schema: &Schema,
    state: &State,
    word: Word,
    out: &mut String,
) -> Result<(), Failure>
    requires { spec.fits (schema_of schema.now) (plan_of plan.now) ≡ true }
{
    let (instance, choice) = (&state.instance, &state.choice);
    match word.number(0) {
        Some(most) if most <= MOST_ROWS => {
            let most = most as usize;
            push_given(
                out,
                eval_within(alloc, plan, schema, instance, choice, most),
            )
        }
        _ => Err(Failure::NoCase),
    }
}

fn push_checked(out: &mut String, checked: Result<(), EvalError>) -> Result<(), Failure> {
    match checked {
        Ok(()) => push(out, "valid | "),
        Err(error) => {
            push_refusal(out, &error)?;
            push(out, " | ")
        }
    }
}

fn push_given(out: &mut String, given: Result<Outcome, EvalError>) -> Result<(), Failure> {
    match given {
        Ok(outcome) => push_outcome(out, &outcome),
        Err(error) => push_refusal(out, &error),
    }
}

/// `tied_choice(FLIPPED)`
fn push_tied(
    alloc: Global,
    plan: &Plan,
    schema: &Schema,
    instance: &Instance,
    arguments: &str,
    out: &mut String,
) -> Result<(), Failure>
    requires { spec.fits (schema_of schema.now) (plan_of plan.now) ≡ true }
{
    let flipped = arguments.parse::<u32>()?;
    push_choice(
        out,
        tied_choice(alloc, plan, schema, instance, Some(flipped)),
    )
}

fn push_choice(out: &mut String, choice: Result<Choice, EvalError>) -> Result<(), Failure> {
    match choice {
        Ok(Choice { orderings }) => push_orderings(out, &orderings),
        Err(error) => push_refusal(out, &error),
    }
}

fn push_orderings(out: &mut String, orderings: &[Vec<u64>]) -> Result<(), Failure> {
    Ok(write!(out, "{orderings:?}")?)
}

const REFUSALS: [EvalError; 3] = [
    EvalError::NotValid(1),
    EvalError::TooManyRows,
    EvalError::OutOfMemory,
];

/// `refusals`: each refusal of a plan, with its number and the place of the wrong ordering.
pub fn refusals(out: &mut String) -> Result<(), Failure> {
    for (i, refusal) in REFUSALS.iter().enumerate() {
        push_between(out, i, "; ")?;
        push_refusal(out, refusal)?;
    }
    Ok(())
}
