//! Plans under choices of orderings.

ghost use Rattle.std.specs.Prelude.{◌≡◌, ◌≤◌, true, None, IfErr, IfOk};
ghost use Rattle.wd_eval.specs.Judged.{IsAllowedOrRefused, IsOutcome, IsOutcomeOrRefused, IsOutcomeWithin, IsOutcomeWithinOrRefused, IsRefused, IsRefusedWithin};
ghost use Rattle.wd_eval.specs.Windows.{orderings_of};
ghost use Rattle.wd_eval.specs.Runs.{IsRunOrRefused, IsTurnedAnswerOrRefused, IsUnderTurned};
ghost use Rattle.wd_eval.specs.Tied.{IsStableChoiceOrRefused, IsTurnedOrRefused, IsTurnedRefused};
ghost use Rattle.wd_nodes.specs.Relation.{most_rows, relation_or_fault_of};
ghost use Rattle.wd_plan.specs.Fits.{fits};
ghost use Rattle.wd_plan.specs.Outcomes.{outcome_of};
ghost use Rattle.wd_plan.specs.Plans.{plan_of};
ghost use Rattle.wd_schema.specs.Schemas.{schema_of};
ghost use Rattle.wd_value.specs.Rows.{instance_of};

use crate::answer::{Answer, answer_of};
use crate::error::EvalError;
use crate::node::evaluate;
use crate::orderings::{MOST_ROWS, Orderings};
use crate::turned::{Turned, reverse_at};
use std::alloc::Global;
use wd_columns::Columns;
use wd_nodes::{MovedIn, Relation, Tables, into_outcome, take_tables};
use wd_plan::{Choice, Outcome, Plan};
use wd_schema::Schema;
use wd_value::{Fault, Instance};

/// The outcome of a plan over an instance under a choice of orderings (SQL, query expression and
/// window clause). The steps are judged in postorder, each step's orderings before the number of
/// its rows, and an ordering left over is judged last. The plan has to fit the schema, which is not
/// read otherwise.
pub fn eval_with(
    alloc: Global,
    plan: &Plan,
    schema: &Schema,
    instance: &Instance,
    choice: &Choice,
) -> Result<Outcome, EvalError>
    requires { fits (schema_of schema.now) (plan_of plan.now) ≡ true }
    ensures { IsOutcomeOrRefused (plan_of plan.now) (instance_of instance.now.items) (orderings_of choice.now.orderings.items) result }
{
    eval_within(alloc, plan, schema, instance, choice, MOST_ROWS)
}

/// The outcome of a plan as [`eval_with`] gives it, where a step may have at most `most` rows in place of 10,000,000, which are no
/// more than these.
pub fn eval_within(
    alloc: Global,
    plan: &Plan,
    schema: &Schema,
    instance: &Instance,
    choice: &Choice,
    most: usize,
) -> Result<Outcome, EvalError>
    requires fits { fits (schema_of schema.now) (plan_of plan.now) ≡ true }
    requires bounded { most ≤ most_rows }
    ensures { IsOutcomeWithinOrRefused most (plan_of plan.now) (instance_of instance.now.items) (orderings_of choice.now.orderings.items) result }
{
    let given = given_within(alloc, plan, schema, instance, choice, most)?;
    let outcome = into_outcome(alloc, &Tables::of_rows(instance), given)?;
    Ok(outcome)
}

/// What [`eval_with`] answers, kept as the plan's last step made it: rows that are in columns stay so.
pub fn answer_with(
    alloc: Global,
    plan: &Plan,
    schema: &Schema,
    instance: &Instance,
    choice: &Choice,
) -> Result<Answer, EvalError>
    requires { fits (schema_of schema.now) (plan_of plan.now) ≡ true }
    ensures outcome { IfOk result (λ a. IsOutcome (plan_of plan.now) (instance_of instance.now.items) (orderings_of choice.now.orderings.items) a) }
    ensures refused { IfErr result (λ e. IsRefused (plan_of plan.now) (instance_of instance.now.items) (orderings_of choice.now.orderings.items) e) }
{
    let given = given_within(alloc, plan, schema, instance, choice, MOST_ROWS)?;
    let answer = answer_of(alloc, &Tables::of_rows(instance), given)?;
    Ok(answer)
}

/// What the plan's last step gives under a choice, where a step may have at most `most` rows.
fn given_within(
    alloc: Global,
    plan: &Plan,
    schema: &Schema,
    instance: &Instance,
    choice: &Choice,
    most: usize,
) -> Result<Result<Relation, Fault>, EvalError>
    requires fits { fits (schema_of schema.now) (plan_of plan.now) ≡ true }
    requires bounded { most ≤ most_rows }
    ensures outcome { IfOk result (λ p. IsOutcomeWithin most (plan_of plan.now) (instance_of instance.now.items) (orderings_of choice.now.orderings.items) (relation_or_fault_of (instance_of instance.now.items) p)) }
    ensures refused { IfErr result (λ e. IsRefusedWithin most (plan_of plan.now) (instance_of instance.now.items) (orderings_of choice.now.orderings.items) e) }
{
    let mut chosen = Orderings::Chosen {
        choice: &choice.orderings,
        next: 0,
        most: most as u64,
    };
    let tables = Tables::of_rows(instance);
    let nothing = &mut MovedIn::nothing(alloc);
    let given = evaluate(alloc, plan, &tables, nothing, &mut chosen)?;
    match chosen.left_over() {
        Some(number) => Err(EvalError::NotValid(number)),
        None => Ok(given),
    }
}

/// Whether a choice is valid for a plan over an instance: one lawful ordering for each class of
/// each Window and for each Limit, in postorder, none missing and none left over. It is refused as
/// by [`eval_with`].
pub fn check_choice(
    alloc: Global,
    plan: &Plan,
    schema: &Schema,
    instance: &Instance,
    choice: &Choice,
) -> Result<(), EvalError>
    requires { fits (schema_of schema.now) (plan_of plan.now) ≡ true }
    ensures { IsAllowedOrRefused (plan_of plan.now) (instance_of instance.now.items) (orderings_of choice.now.orderings.items) result }
{
    let _outcome = eval_with(alloc, plan, schema, instance, choice)?;
    Ok(())
}

/// The choice that leaves rows that tie as they are: each ordering is the stable sort of the
/// positions of its node's input rows by partition, ascending with NULL last, and then by the keys.
/// The ordering with the number `flipped` sorts the positions taken last to first; a number past
/// the last flips nothing.
pub fn tied_choice(
    alloc: Global,
    plan: &Plan,
    schema: &Schema,
    instance: &Instance,
    flipped: Option<u32>,
) -> Result<Choice, EvalError>
    requires { fits (schema_of schema.now) (plan_of plan.now) ≡ true }
    ensures { IsStableChoiceOrRefused (plan_of plan.now) (instance_of instance.now.items) flipped result }
{
    turned_choice(alloc, plan, schema, instance, reverse_at(flipped))
}

/// The choice that leaves rows that tie as they are, but for one ordering that may take them in
/// another turn.
fn turned_choice(
    alloc: Global,
    plan: &Plan,
    schema: &Schema,
    instance: &Instance,
    turned: Option<Turned>,
) -> Result<Choice, EvalError>
    requires { fits (schema_of schema.now) (plan_of plan.now) ≡ true }
    ensures { IsTurnedOrRefused (plan_of plan.now) (instance_of instance.now.items) turned result }
{
    let (choice, _) = walk_turned(alloc, plan, schema, instance, turned)?;
    Ok(choice)
}

/// The choice that leaves all rows that tie as they are.
pub fn first_choice(
    alloc: Global,
    plan: &Plan,
    schema: &Schema,
    instance: &Instance,
) -> Result<Choice, EvalError>
    requires { fits (schema_of schema.now) (plan_of plan.now) ≡ true }
    ensures { IsStableChoiceOrRefused (plan_of plan.now) (instance_of instance.now.items) None result }
{
    tied_choice(alloc, plan, schema, instance, None)
}

/// A choice, and what a plan gives under it.
#[derive(Drop)]
pub struct TurnedAnswer {
    pub choice: Choice,
    pub answer: Answer,
}

/// The choice that leaves rows that tie as they are, but for the ordering with the number of
/// `turned`, and what the plan gives under it, evaluated once. That ordering is the stable sort of
/// the positions taken in its turn; a number past the last turns nothing.
pub fn answer_turned(
    alloc: Global,
    plan: &Plan,
    schema: &Schema,
    instance: &Instance,
    turned: Option<Turned>,
) -> Result<TurnedAnswer, EvalError>
    requires { fits (schema_of schema.now) (plan_of plan.now) ≡ true }
    ensures { IsTurnedAnswerOrRefused (plan_of plan.now) (instance_of instance.now.items) turned result }
{
    let (choice, given) = walk_turned(alloc, plan, schema, instance, turned)?;
    let answer = answer_of(alloc, &Tables::of_rows(instance), given)?;
    Ok(TurnedAnswer { choice, answer })
}

/// The choice that leaves rows that tie as they are, but for one ordering that may take them in another turn, and what the plan's
/// last step gives under it.
pub(crate) fn walk_turned(
    alloc: Global,
    plan: &Plan,
    schema: &Schema,
    instance: &Instance,
    turned: Option<Turned>,
) -> Result<(Choice, Result<Relation, Fault>), EvalError>
    requires { fits (schema_of schema.now) (plan_of plan.now) ≡ true }
    ensures walked { IfOk result (λ r. IsUnderTurned (plan_of plan.now) (instance_of instance.now.items) turned (orderings_of r.0.orderings.items) (relation_or_fault_of (instance_of instance.now.items) r.1)) }
    ensures refused { IfErr result (λ e. IsTurnedRefused (plan_of plan.now) (instance_of instance.now.items) turned e) }
{
    let mut sorted = Orderings::Sorted {
        turned,
        made: Vec::new(alloc),
    };
    let tables = Tables::of_rows(instance);
    let nothing = &mut MovedIn::nothing(alloc);
    let given = evaluate(alloc, plan, &tables, nothing, &mut sorted)?;
    let orderings = sorted.into_made(alloc);
    Ok((Choice { orderings }, given))
}

/// The outcome of a plan over an instance under the choice that leaves rows that tie as they are.
pub fn run_plan(
    alloc: Global,
    plan: &Plan,
    schema: &Schema,
    instance: &Instance,
) -> Result<Outcome, EvalError>
    requires { fits (schema_of schema.now) (plan_of plan.now) ≡ true }
    ensures { IsRunOrRefused outcome_of (plan_of plan.now) (instance_of instance.now.items) result }
{
    let TurnedAnswer { answer, .. } = answer_turned(alloc, plan, schema, instance, None)?;
    let outcome = answer.into_outcome(alloc)?;
    Ok(outcome)
}

/// What [`run_plan`] answers over tables that are moved in, kept column by column: each one that a single Scan
/// of the plan reads goes so into the steps above it, and rows that are in columns at the end are answered so.
pub fn run_columns(
    alloc: Global,
    plan: &Plan,
    schema: &Schema,
    tables: Vec<Columns>,
) -> Result<Answer, EvalError>
    requires { fits (schema_of schema.now) (plan_of plan.now) ≡ true }
    ensures { IsRunOrRefused (λ a. a) (plan_of plan.now) tables.items result }
{
    let (mut moved_in, left) = take_tables(alloc, plan, tables)?;
    let others = Tables::of_columns(&left);
    let given = evaluate(alloc, plan, &others, &mut moved_in, &mut Orderings::Stable)?;
    let answer = answer_of(alloc, &others, given)?;
    Ok(answer)
}
