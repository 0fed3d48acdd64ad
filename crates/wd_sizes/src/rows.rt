//! Bounds for the rows of a plan's steps.

ghost use Rattle.std.specs.Prelude.{◌≡◌, ◌≤◌, IfSome, MatchOption, length};
ghost use Rattle.wd_nodes.specs.Relation.{most_rows as most};
ghost use Rattle.wd_plan.specs.Plans.{plan_of};
ghost use Rattle.wd_sizes.specs.Sizes.{IsBounded, rows_at_most};
ghost use Rattle.wd_value.specs.Rows.{instance_of, table_at};

use wd_plan::Plan;
use wd_value::Instance;

/// The most rows that a step may have.
const MOST_ROWS: u64 = 10_000_000;

/// The number of rows of a table; 0 where there is no such table.
fn rows_of_table(instance: &Instance, table: u16) -> u64
    ensures { result ≡ length (table_at (instance_of instance.now.items) table) }
{
    match instance.get(usize::from(table)) {
        Some(rows) => rows.len() as u64,
        None => 0,
    }
}

/// A number of rows that a step may have.
fn within(rows: u64) -> Option<u64>
    ensures { MatchOption result (rows ≤ most → ⊥) (λ n. (n ≡ rows) × (rows ≤ most)) }
{
    if rows <= MOST_ROWS { Some(rows) } else { None }
}

/// A number that the rows of the plan's last step do not exceed, under any choice: those of a table, the product of those of a Join's
/// sides, and for each set of a Group one more than those of its input. `None` where for some step of the plan that number exceeds
/// 10,000,000.
pub fn most_rows(plan: &Plan, instance: &Instance) -> Option<u64>
    ensures { MatchOption result (IsBounded (plan_of plan.now) (instance_of instance.now.items) → ⊥) (λ n. (n ≡ rows_at_most (plan_of plan.now) (instance_of instance.now.items)) × (n ≤ most) × IsBounded (plan_of plan.now) (instance_of instance.now.items)) }
{
    let rows = match plan {
        Plan::Scan { table, .. } => rows_of_table(instance, *table),
        Plan::Join { left, right, .. } => most_rows(left, instance)? * most_rows(right, instance)?,
        Plan::Group { input, group } => {
            let rows = most_rows(input, instance)?;
            (group.sets.len() as u64).checked_mul(rows + 1)?
        }
        Plan::Filter { input, .. }
        | Plan::Map { input, .. }
        | Plan::Window { input, .. }
        | Plan::Distinct { input }
        | Plan::Limit { input, .. } => most_rows(input, instance)?,
    };
    within(rows)
}
