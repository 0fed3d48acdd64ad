//! A plan under the orderings of its nodes, node by node.

ghost use Rattle.std.specs.Prelude.{◌≡◌, drop, false, length, nat_lt, Ok, OnOk};
ghost use Rattle.wd_eval.specs.Walks.{GivesOrHalts, IsWalkedOrHalted, IsWithin, last_count, most_of};
ghost use Rattle.wd_join.specs.Joins.{has_more_rows};
ghost use Rattle.wd_nodes.specs.Held.{IsHeld, IsHeldForSome, scan_count};
ghost use Rattle.wd_nodes.specs.Relation.{relation_of, relation_or_fault_of};
ghost use Rattle.wd_plan.specs.Plans.{EachNamesClasses, Over, PlanTree, Step, plan_of};
ghost use Rattle.wd_value.specs.Rows.{Instance};

use crate::error::EvalError;
use crate::limit::limit_rows;
use crate::orderings::Orderings;
use crate::window::extend_rows;
use std::alloc::Global;
use wd_nodes::{
    MovedIn, Relation, Tables, distinct, filter_input, group_input, join_inputs, map_input,
    scan_table,
};
use wd_plan::Plan;
use wd_value::Fault;

/// The plan's outcome under the next orderings, which are those of its nodes in postorder. Those of a choice are checked, a node's
/// before the number of its rows. Each Scan takes the table that is moved in for it, where there is one, and else reads the tables.
pub(crate) fn evaluate(
    alloc: Global,
    plan: &Plan,
    tables: &Tables,
    moved_in: &mut MovedIn,
    orderings: &mut Orderings,
) -> Result<Result<Relation, Fault>, EvalError>
    requires within { IsWithin orderings.old }
    requires named { EachNamesClasses (plan_of plan.now) }
    requires held { IsHeldForSome (plan_of plan.now) tables.now moved_in.old }
    ensures moved { OnOk result (moved_in.new ≡ drop (scan_count (plan_of plan.now)) moved_in.old) }
    ensures walked { (instance : Instance) → IsHeld (plan_of plan.now) tables.now moved_in.old instance → IsWalkedOrHalted (plan_of plan.now) tables.now instance orderings.old orderings.new result }
{
    match plan {
        Plan::Scan { table, .. } => {
            let read = scan_table(tables, moved_in.next(), *table, orderings.most())?;
            Ok(Ok(read))
        }
        Plan::Join {
            left,
            right,
            condition,
        } => {
            let left = evaluate(alloc, left, tables, moved_in, orderings)?;
            let right = evaluate(alloc, right, tables, moved_in, orderings)?;
            let joined = join_inputs(alloc, tables, condition, left, right, orderings.most())?;
            Ok(joined)
        }
        Plan::Filter { input, .. }
        | Plan::Map { input, .. }
        | Plan::Group { input, .. }
        | Plan::Window { input, .. }
        | Plan::Distinct { input }
        | Plan::Limit { input, .. } => {
            let below = evaluate(alloc, input, tables, moved_in, orderings)?;
            step_over(alloc, plan, tables, below, orderings)
        }
    }
}

/// What the plan's last step gives over what its input gives: a fault stays one, and the orderings of a step over it have to be empty.
/// (A Scan and a Join are no step over one input.)
fn step_over(
    alloc: Global,
    plan: &Plan,
    tables: &Tables,
    input: Result<Relation, Fault>,
    orderings: &mut Orderings,
) -> Result<Result<Relation, Fault>, EvalError>
    requires within { IsWithin orderings.old }
    requires small { has_more_rows (most_of orderings.old) (relation_or_fault_of tables.now input) ≡ false }
    requires named { EachNamesClasses (plan_of plan.now) }
    ensures { (step : Step) (below : PlanTree) → plan_of plan.now ≡ Over step below → GivesOrHalts (relation_or_fault_of tables.now) step (relation_or_fault_of tables.now input) orderings.old orderings.new result }
{
    match input {
        Ok(relation) => step_over_rows(alloc, plan, tables, relation, orderings),
        Err(fault) => {
            orderings.next_empty(alloc, class_count(plan))?;
            Ok(Err(fault))
        }
    }
}

/// How many orderings the plan's last step has.
fn class_count(plan: &Plan) -> usize
    ensures { result ≡ last_count (plan_of plan.now) }
{
    match plan {
        Plan::Window { window, .. } => window.classes.len(),
        Plan::Limit { .. } => 1,
        Plan::Scan { .. }
        | Plan::Join { .. }
        | Plan::Filter { .. }
        | Plan::Map { .. }
        | Plan::Group { .. }
        | Plan::Distinct { .. } => 0,
    }
}

/// What the plan's last step gives over rows.
pub(crate) fn step_over_rows(
    alloc: Global,
    plan: &Plan,
    tables: &Tables,
    input: Relation,
    orderings: &mut Orderings,
) -> Result<Result<Relation, Fault>, EvalError>
    requires within { IsWithin orderings.old }
    requires small { nat_lt (most_of orderings.old) (length (relation_of tables.now input)) ≡ false }
    requires named { EachNamesClasses (plan_of plan.now) }
    ensures { (step : Step) (below : PlanTree) → plan_of plan.now ≡ Over step below → GivesOrHalts (relation_or_fault_of tables.now) step (Ok (relation_of tables.now input)) orderings.old orderings.new result }
{
    match plan {
        Plan::Scan { .. } | Plan::Join { .. } => Ok(Ok(input)),
        Plan::Filter { condition, .. } => {
            let passing = filter_input(alloc, tables, condition, input)?;
            Ok(passing)
        }
        Plan::Map { outputs, .. } => {
            let mapped = map_input(alloc, tables, outputs, input)?;
            Ok(mapped)
        }
        Plan::Group { group, .. } => {
            let groups = group_input(alloc, tables, group, input, orderings.most())?;
            Ok(groups)
        }
        Plan::Window { window, .. } => extend_rows(alloc, tables, window, input, orderings),
        Plan::Distinct { .. } => {
            let firsts = distinct(alloc, tables, input)?;
            Ok(Ok(firsts))
        }
        Plan::Limit { limit, .. } => limit_rows(alloc, tables, limit, input, orderings),
    }
}
