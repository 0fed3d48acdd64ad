//! The columns of tables on which rows tie.

ghost use Rattle.std.specs.Prelude.{◌≡◌, ◌++◌, ◌↔◌, true, flat_map, option_to_list, IfOk};
ghost use Rattle.wd_candidates.specs.Origins.{origin};
ghost use Rattle.wd_plan.specs.Plans.{plan_of};
ghost use Rattle.wd_ties.specs.Ordered.{node_columns};
ghost use Rattle.wd_ties.specs.Ties.{AreTies, IsFirstDifference, copied};
ghost use Rattle.wd_ties.specs.Ties as spec;
ghost use Rattle.wd_value.specs.declared.order.SortColumn.{SortColumn};
ghost use Rattle.wd_witness_text.specs.Witnesses.{positions_of};

use crate::orderings::{Ordered, add_orderings};
use crate::origin::origin_of;
use std::alloc::Global;
use wd_candidates::TableColumn;
use wd_plan::{Choice, Plan};
use wd_value::{OutOfMemory, SortColumn};

/// The columns of tables on which rows tie that change places between two choices: those that are copied by the columns of the first
/// ordering in which the choices differ. Empty where these copy none, or where the choices do not differ.
pub fn tied_columns(
    alloc: Global,
    plan: &Plan,
    first: &Choice,
    second: &Choice,
) -> Result<Vec<TableColumn>, OutOfMemory>
    ensures { IfOk result (λ v. AreTies (plan_of plan.now) (positions_of first.now.orderings.items) (positions_of second.now.orderings.items) v.items) }
{
    let mut orderings = Vec::new(alloc);
    add_orderings(plan, &mut orderings)?;
    match orderings.get(first_difference(&first.orderings, &second.orderings)) {
        Some(ordered) => copied_columns(alloc, *ordered),
        None => Ok(Vec::new(alloc)),
    }
}

/// The number of the first ordering in which two choices differ, or one past the last where they don't.
fn first_difference(first: &[Vec<u64>], second: &[Vec<u64>]) -> usize
    ensures { IsFirstDifference (positions_of first.now) (positions_of second.now) result }
{
    let mut number = 0;
    while number < first.len() && number < second.len() {
        if !is_same(&first[number], &second[number]) {
            return number;
        }
        number += 1;
    }
    number
}

/// Whether two orderings are the same.
fn is_same(one: &[u64], other: &[u64]) -> bool
    ensures { (result ≡ true) ↔ (one.now ≡ other.now) }
{
    one == other
}

/// The table columns that the columns of an ordering copy.
fn copied_columns(alloc: Global, ordered: Ordered<'_>) -> Result<Vec<TableColumn>, OutOfMemory>
    ensures { IfOk result (λ v. v.items ≡ copied (node_columns ordered.entry)) }
{
    let mut found = Vec::new(alloc);
    add_copied(ordered.node, ordered.partition, &mut found)?;
    add_copied_keys(ordered.node, ordered.keys, &mut found)?;
    Ok(found)
}

/// Appends the table columns that these columns of a node copy.
fn add_copied(node: &Plan, columns: &[u16], found: &mut Vec<TableColumn>) -> Result<(), OutOfMemory>
    ensures { IfOk result (λ _. found.new.items ≡ found.old.items ++ flat_map (λ k. option_to_list (origin (plan_of node.now) k)) columns.now) }
{
    for column in columns {
        add_origin(node, *column, found)?;
    }
    Ok(())
}

/// Appends the table columns that the columns of sort keys copy.
fn add_copied_keys(
    node: &Plan,
    keys: &[SortColumn],
    found: &mut Vec<TableColumn>,
) -> Result<(), OutOfMemory>
    ensures { IfOk result (λ _. found.new.items ≡ found.old.items ++ flat_map (λ (key : SortColumn). option_to_list (origin (plan_of node.now) key.column)) keys.now) }
{
    for key in keys {
        add_origin(node, key.column, found)?;
    }
    Ok(())
}

/// Appends the table column that a column of a node copies, if there is one.
fn add_origin(node: &Plan, column: u16, found: &mut Vec<TableColumn>) -> Result<(), OutOfMemory>
    ensures { IfOk result (λ _. found.new.items ≡ found.old.items ++ option_to_list (origin (plan_of node.now) column)) }
{
    if let Some(place) = origin_of(node, column) {
        found.push(place)?;
    }
    Ok(())
}

/// Whether a column of a table, both by number, is among these.
pub fn is_among(ties: &[TableColumn], table: usize, column: usize) -> bool
    ensures { result ≡ spec.is_among ties.now table column }
{
    for tie in ties {
        if usize::from(tie.table) == table && usize::from(tie.column) == column {
            return true;
        }
    }
    false
}
