//! A query's answer over the data of tables, from the texts alone.

ghost use Rattle.std.specs.Prelude.{◌≡◌, true, IfOk, IfErr};
ghost use Rattle.wd_plan.specs.Fits.{fits};
ghost use Rattle.wd_plan.specs.Outcomes.{outcome_of};
ghost use Rattle.wd_plan.specs.Plans.{plan_of};
ghost use Rattle.wd_run.specs.Causes.{HasCause};
ghost use Rattle.wd_run.specs.Loads.{GivesOutcome, RefusesOutcome};
ghost use Rattle.wd_run.specs.Runs.{IsAnswer, NamesDiffer, data_of};
ghost use Rattle.wd_schema.specs.Schemas.{schema_of};

use crate::data::{check_given, load_data};
use crate::error::RunError;
use std::alloc::Global;
use wd_eval::{Answer, run_columns};
use wd_plan::{Outcome, Plan};
use wd_query::{PlannedQuery, read_texts};
use wd_schema::Schema;
use wd_value::Text;

/// The names of a query's columns and its outcome over the data of tables, which is given as pairs of a table's name and its CSV text:
/// the rows or the fault under one of the choices that the query leaves open. The schema is read first, then the query, then the data in
/// the given order; a table without data is empty, and the query may not read it.
///
/// A refusal is returned only where its cause is in the inputs: 101 to 107 and 301 to 309 of the schema; 101 to 107, 201, 202 and 401 to
/// 419 of the query; 701 to 707 of the data under a name; 802 where a step has more than 10,000,000 rows.
pub fn run(
    alloc: Global,
    schema: &[u8],
    query: &[u8],
    tables: &[(&str, &[u8])],
) -> Result<(Vec<Text>, Outcome), RunError>
    ensures answer { IfOk result (λ a. IsAnswer schema.now query.now (data_of tables.now) a.0.items (outcome_of a.1)) }
    ensures refused { IfErr result (λ e. HasCause schema.now query.now (data_of tables.now) e) }
{
    let (names, answer) = match run_kept(alloc, schema, query, tables) {
        Ok(answered) => answered,
        Err(error) => return Err(error),
    };
    match answer.into_outcome(alloc) {
        Ok(outcome) => Ok((names, outcome)),
        Err(_) => Err(RunError::OutOfMemory),
    }
}

/// As [`run`], with the rows as the evaluation left them.
pub fn run_kept(
    alloc: Global,
    schema: &[u8],
    query: &[u8],
    tables: &[(&str, &[u8])],
) -> Result<(Vec<Text>, Answer), RunError>
    ensures answer { IfOk result (λ a. IsAnswer schema.now query.now (data_of tables.now) a.0.items a.1) }
    ensures refused { IfErr result (λ e. HasCause schema.now query.now (data_of tables.now) e) }
{
    let planned = match read_texts(alloc, schema, query) {
        Ok(planned) => planned,
        Err(error) => return Err(RunError::Texts(error)),
    };
    let PlannedQuery { schema, resolved } = planned;
    match answer_over(alloc, &schema, &resolved.plan, tables) {
        Ok(answer) => Ok((resolved.names, answer)),
        Err(error) => Err(error),
    }
}

/// The outcome of a plan over the data given.
fn answer_over(
    alloc: Global,
    schema: &Schema,
    plan: &Plan,
    tables: &[(&str, &[u8])],
) -> Result<Answer, RunError>
    requires differ { NamesDiffer (schema_of schema.now) }
    requires fitting { fits (schema_of schema.now) (plan_of plan.now) ≡ true }
    ensures outcome { IfOk result (λ o. GivesOutcome (schema_of schema.now) (data_of tables.now) (plan_of plan.now) o) }
    ensures refused { IfErr result (λ e. RefusesOutcome (schema_of schema.now) (data_of tables.now) (plan_of plan.now) e) }
{
    let instance = load_data(alloc, schema, tables)?;
    check_given(alloc, schema, plan, tables)?;
    match run_columns(alloc, plan, schema, instance) {
        Ok(answer) => Ok(answer),
        Err(error) => Err(RunError::Evaluation(error)),
    }
}
