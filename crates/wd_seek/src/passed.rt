//! The candidates that were tried for an earlier reason. Those of two reasons for which one and the same columns tie are the same.

ghost use Rattle.std.specs.Prelude.{◌≡◌, ◌≤◌, List, filter, map, IfOk, IfSome, IsTrue, OnOk};
ghost use Rattle.wd_candidates.specs.Candidates.{candidate as candidate_of, shapes as all_shapes};
ghost use Rattle.wd_candidates.specs.Outlines.{AreTied, IsOutline};
ghost use Rattle.wd_candidates.specs.Tied.{NodeColumns};
ghost use Rattle.wd_partition.specs.declared.turn.Turn.TheVariants.{Reversed};
ghost use Rattle.wd_plan.specs.Plans.{PlanTree, plan_of};
ghost use Rattle.wd_schema.specs.Schemas.{schema_of};
ghost use Rattle.wd_schema.specs.Tables.{TableRule};
ghost use Rattle.wd_seek.specs.Evaluations.{most_evaluations};
ghost use Rattle.wd_seek.specs.Passed.{ArePassed, HavePassed, ShowNothingTo};
ghost use Rattle.wd_seek.specs.Searched.{IsSearched};
ghost use Rattle.wd_seek.specs.Sought.{IsSought, is_meeting};

use crate::probed::MOST_EVALUATIONS;
use crate::searched::Searched;
use crate::tried::try_shapes;
use std::alloc::Global;
use wd_candidates::{Outline, TiedColumns};
use wd_plan::Plan;
use wd_schema::Schema;
use wd_value::OutOfMemory;
use wd_witness_text::Witness;

/// How many lists of columns are kept at most.
const MOST_KEPT: usize = 32;

/// Columns that tie, and the number of evaluations in which all candidates for them show nothing.
#[derive(Drop)]
pub(crate) struct Passed {
    pub tied: TiedColumns,
    pub evaluations: u32,
}

/// Tries the candidates for columns that tie, and keeps the columns where these show nothing. Candidates that passed before are
/// counted and not evaluated again.
pub(crate) fn try_tied(
    alloc: Global,
    schema: &Schema,
    plan: &Plan,
    searched: Searched<'_>,
    outline: &Outline,
    tied: TiedColumns,
    spent: u32,
    passed: &mut Vec<Passed>,
) -> Result<(Option<Witness>, u32), OutOfMemory>
    requires searched { IsSearched (schema_of schema.now) (plan_of plan.now) searched }
    requires outline { IsOutline (schema_of schema.now) (plan_of plan.now) outline.now }
    requires few { spent ≤ most_evaluations }
    requires passed { ArePassed (schema_of schema.now) (plan_of plan.now) passed.old.items }
    ensures few { IfOk result (λ r. r.1 ≤ most_evaluations) }
    ensures sought { IfOk result (λ r. (o : NodeColumns) → AreTied (schema_of schema.now) o tied → IsSought Reversed (schema_of schema.now) (plan_of plan.now) (filter (is_meeting (schema_of schema.now)) (map (candidate_of (schema_of schema.now) (plan_of plan.now) o) all_shapes)) spent r.0 r.1) }
    ensures passed { OnOk result (ArePassed (schema_of schema.now) (plan_of plan.now) passed.new.items) }
{
    match end_after(passed, &tied, spent) {
        Some(end) => Ok((None, end)),
        None => try_anew(alloc, schema, plan, searched, outline, tied, spent, passed),
    }
}

/// Tries the candidates for columns that tie, and keeps the columns where these show nothing.
fn try_anew(
    alloc: Global,
    schema: &Schema,
    plan: &Plan,
    searched: Searched<'_>,
    outline: &Outline,
    tied: TiedColumns,
    spent: u32,
    passed: &mut Vec<Passed>,
) -> Result<(Option<Witness>, u32), OutOfMemory>
    requires searched { IsSearched (schema_of schema.now) (plan_of plan.now) searched }
    requires outline { IsOutline (schema_of schema.now) (plan_of plan.now) outline.now }
    requires few { spent ≤ most_evaluations }
    requires passed { ArePassed (schema_of schema.now) (plan_of plan.now) passed.old.items }
    ensures few { IfOk result (λ r. r.1 ≤ most_evaluations) }
    ensures sought { IfOk result (λ r. (o : NodeColumns) → AreTied (schema_of schema.now) o tied → IsSought Reversed (schema_of schema.now) (plan_of plan.now) (filter (is_meeting (schema_of schema.now)) (map (candidate_of (schema_of schema.now) (plan_of plan.now) o) all_shapes)) spent r.0 r.1) }
    ensures passed { OnOk result (ArePassed (schema_of schema.now) (plan_of plan.now) passed.new.items) }
{
    let (found, made) = try_shapes(alloc, schema, plan, searched, outline, &tied, spent)?;
    match found {
        Some(witness) => Ok((Some(witness), made)),
        None => {
            keep(passed, tied, spent, made)?;
            Ok((None, made))
        }
    }
}

/// Keeps the columns whose candidates show nothing from one number of evaluations to another, unless the search ends there.
fn keep(
    passed: &mut Vec<Passed>,
    tied: TiedColumns,
    spent: u32,
    made: u32,
) -> Result<(), OutOfMemory>
    ensures { (tables : List TableRule) (plan : PlanTree) → ArePassed tables plan passed.old.items → ShowNothingTo tables plan tied spent made → OnOk result (ArePassed tables plan passed.new.items) }
{
    if made >= MOST_EVALUATIONS || passed.len() >= MOST_KEPT {
        return Ok(());
    }
    let evaluations = made.saturating_sub(spent);
    passed.push(Passed { tied, evaluations })?;
    Ok(())
}

/// The number of evaluations after the candidates for these columns, where they passed before and the search does not end among them.
fn end_after(passed: &[Passed], tied: &TiedColumns, spent: u32) -> Option<u32>
    requires { spent ≤ most_evaluations }
    ensures few { IfSome result (λ end. end ≤ most_evaluations) }
    ensures nothing { (tables : List TableRule) (plan : PlanTree) → ArePassed tables plan passed.now → IfSome result (λ end. ShowNothingTo tables plan tied.now spent end) }
{
    let evaluations = evaluations_for(passed, tied)?;
    if evaluations > MOST_EVALUATIONS - spent {
        return None;
    }
    Some(spent + evaluations)
}

/// The number of evaluations in which the candidates for these columns show nothing, where that is known.
fn evaluations_for(passed: &[Passed], tied: &TiedColumns) -> Option<u32>
    ensures { (tables : List TableRule) (plan : PlanTree) → ArePassed tables plan passed.now → IfSome result (λ n. HavePassed tables plan tied.now n) }
{
    for entry in passed {
        if are_all_same(&entry.tied.tables, &tied.tables) {
            return Some(entry.evaluations);
        }
    }
    None
}

/// Whether as many lists of marks are the same, one by one.
fn are_all_same(left: &[Vec<bool>], right: &[Vec<bool>]) -> bool
    ensures { IsTrue result → map (λ v. v.items) left.now ≡ map (λ v. v.items) right.now }
{
    if left.len() != right.len() {
        return false;
    }
    for number in 0..left.len() {
        if !are_same(&left[number], &right[number]) {
            return false;
        }
    }
    true
}

fn are_same(left: &[bool], right: &[bool]) -> bool
    ensures { IsTrue result → left.now ≡ right.now }
{
    left == right
}
