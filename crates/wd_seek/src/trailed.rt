//! What is kept of the first evaluation of an instance, and what it tells of the others: an evaluation that turns one ordering need not
//! be made where the rows that it would give agree with those of the first.

ghost use Rattle.std.specs.Prelude.{◌≡◌, ◌-◌, ◌^◌, ◌<◌, true, None, Ok, IfOk, IfSome, IsTrue, MatchOption};
ghost use Rattle.wd_plan.specs.Fits.{fits};
ghost use Rattle.wd_plan.specs.Outcomes.{Agree};
ghost use Rattle.wd_plan.specs.Plans.{EachNamesClasses, plan_of};
ghost use Rattle.wd_schema.specs.Schemas.{schema_of};
ghost use Rattle.wd_eval.specs.Tied.{IsTurnedTooLarge};
ghost use Rattle.wd_seek.specs.Probed.{IsAgreeing, IsKeptOf};
ghost use Rattle.wd_trail.specs.Trails.{IsTrail};
ghost use Rattle.wd_value.specs.Rows.{Instance, instance_of};

use crate::evaluated::{Evaluated, evaluate};
use std::alloc::Global;
use wd_columns::{OwnRows, copy_all};
use wd_eval::{Answer, Turn};
use wd_plan::Plan;
use wd_refute::SortedOutcome;
use wd_schema::Schema;
use wd_trail::{Change, Trail, follow};
use wd_value::{Instance, OutOfMemory};

/// The fewest orderings for which it pays to keep what each node gives.
pub(crate) const FEWEST_ORDERINGS: u32 = 4;

/// The most values that are kept of one instance, 16 bytes each.
const MOST_KEPT_VALUES: u64 = 1 << 25;

/// What is kept of the first evaluation: its outcome, and where there is room what each node gives.
#[derive(Drop)]
pub(crate) struct First {
    pub outcome: SortedOutcome,
    trail: Option<Trail>,
}

/// The outcome under the choice that keeps tied rows in their order, of the rows of the last node where they are kept; `None` where a step
/// is too large.
pub(crate) fn first_of(
    alloc: Global,
    schema: &Schema,
    plan: &Plan,
    instance: &Instance,
) -> Result<Option<First>, OutOfMemory>
    requires { fits (schema_of schema.now) (plan_of plan.now) ≡ true }
    ensures { IfOk result (λ o. MatchOption o (IsTurnedTooLarge (plan_of plan.now) (instance_of instance.now.items) None) (IsKeptOf (plan_of plan.now) (instance_of instance.now.items))) }
{
    match trail_of(alloc, schema, plan, instance) {
        Some(trail) => {
            let rows = copy_all(alloc, &trail.rows().source())?;
            let outcome = outcome_of_rows(alloc, rows)?;
            let trail = Some(trail);
            Ok(Some(First { outcome, trail }))
        }
        None => match evaluate(alloc, schema, plan, instance, None)? {
            Some(Evaluated { outcome, .. }) => Ok(Some(First {
                outcome,
                trail: None,
            })),
            None => Ok(None),
        },
    }
}

/// Keeps what the nodes of a plan give over an instance, where it has several orderings and there is room and memory.
fn trail_of(alloc: Global, schema: &Schema, plan: &Plan, instance: &Instance) -> Option<Trail>
    requires { fits (schema_of schema.now) (plan_of plan.now) ≡ true }
    ensures { IfSome result (λ t. IsTrail t (plan_of plan.now) (instance_of instance.now.items)) }
{
    if plan.orderings() < FEWEST_ORDERINGS {
        return None;
    }
    follow(alloc, plan, schema, instance, MOST_KEPT_VALUES).unwrap_or(None)
}

/// Whether the outcome is known to agree with the first one where the ordering with this number takes rows that tie in a turn; not where
/// memory runs out.
pub(crate) fn agrees_turned(
    alloc: Global,
    plan: &Plan,
    first: &First,
    number: u32,
    turn: Turn,
) -> bool
    requires few { number < 2 ^ 32 - 1 }
    requires named { EachNamesClasses (plan_of plan.now) }
    ensures { IsTrue result → (instance : Instance) → IsKeptOf (plan_of plan.now) instance first.now → IsAgreeing turn (plan_of plan.now) instance first.now.outcome number }
{
    let Some(trail) = &first.trail else {
        return false;
    };
    match trail.turned(alloc, plan, number, turn) {
        Ok(Change::Same) => true,
        Ok(Change::Rows(rows)) => agree(alloc, &first.outcome, rows),
        Ok(Change::Unknown) | Err(_) => false,
    }
}

/// Whether the rows are known to agree with an outcome.
fn agree(alloc: Global, first: &SortedOutcome, rows: OwnRows) -> bool
    ensures { IsTrue result → Agree first.now (Ok rows) }
{
    match outcome_of_rows(alloc, rows) {
        Ok(other) => first.agrees(&other),
        Err(_) => false,
    }
}

/// Rows as an outcome.
fn outcome_of_rows(alloc: Global, rows: OwnRows) -> Result<SortedOutcome, OutOfMemory>
    ensures { IfOk result (λ s. s ≡ Ok rows) }
{
    SortedOutcome::new(alloc, Answer::of_rows(rows))
}
