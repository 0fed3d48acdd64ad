//! Each step of a plan over the rows below it, but for a Window and a Limit.

ghost use Rattle.std.specs.Prelude.{◌≡◌, ◌<◌, ◌^◌, false, length, IfOk, map, nat_lt, Ok, option_map};
ghost use Rattle.wd_nodes.specs.Held.{read_at};
ghost use Rattle.wd_nodes.specs.Relation.{IsSmallOrLarge, joined_of, relation_of, relation_or_fault_of, stored_rows_of};
ghost use Rattle.wd_plan.specs.Expressions.{expression_of};
ghost use Rattle.wd_plan.specs.Outcomes as spec;
ghost use Rattle.wd_plan.specs.Plans.{HaveMasks, grouping_of};
ghost use Rattle.wd_joined.specs.Pairs.{rows_paired};
ghost use Rattle.wd_value.specs.Rows.{Instance};

use crate::marked::{columns_read, keep_marked, store_marked};
use crate::relation::{Relation, from_columns, from_pairs, has_more, narrow, store};
use crate::selection::selected_columns;
use crate::sides::{Sides, join_sides};
use crate::stored::{StoredRows, pick_rows};
use crate::tables::Tables;
use std::alloc::Global;
use wd_columns::{Columns, OwnRows, Pair, RowSource, share_rows};
use wd_group::group_rows;
use wd_join::{StepError, all_pairs, filter_pairs, join_pairs, paired_columns, paired_rows};
use wd_plan::{Expr, Group};
use wd_steps::{distinct_positions, map_columns, passing_positions, shown_columns};
use wd_value::{Fault, OutOfMemory};

/// The table that is moved in, and else the one with this number, or the error that these are more
/// than `most` rows.
pub fn scan_table(
    tables: &Tables,
    moved_in: Option<Columns>,
    table: u16,
    most: u64,
) -> Result<Relation, StepError>
    ensures { IsSmallOrLarge most (Ok (read_at tables.now moved_in table)) (λ r. Ok (relation_of tables.now r)) result }
{
    let read = match moved_in {
        Some(columns) => StoredRows::Own(OwnRows::of_columns(columns)),
        None => StoredRows::Table(table),
    };
    within(tables, Relation::Stored(read), most)
}

/// The relation, or the error that it has more than `most` rows.
fn within(tables: &Tables, relation: Relation, most: u64) -> Result<Relation, StepError>
    ensures { IsSmallOrLarge most (Ok (relation_of tables.now relation)) (λ r. Ok (relation_of tables.now r)) result }
{
    if has_more(tables, &relation, most) {
        Err(StepError::TooManyRows)
    } else {
        Ok(relation)
    }
}

/// All pairs of a left and a right row for which the condition is true, which are not made yet, or the error that there are more than
/// `most`. A fault of the left side, or else of the right one, is the fault.
pub fn join_inputs(
    alloc: Global,
    tables: &Tables,
    condition: &Option<Expr>,
    left: Result<Relation, Fault>,
    right: Result<Relation, Fault>,
    most: u64,
) -> Result<Result<Relation, Fault>, StepError>
    ensures { IsSmallOrLarge most (joined_of tables.now condition.now left right) (relation_or_fault_of tables.now) result }
{
    match (left, right) {
        (Err(fault), _) => Ok(Err(fault)),
        (Ok(_), Err(fault)) => Ok(Err(fault)),
        (Ok(left), Ok(right)) => join_relations(alloc, tables, condition, left, right, most),
    }
}

fn join_relations(
    alloc: Global,
    tables: &Tables,
    condition: &Option<Expr>,
    left: Relation,
    right: Relation,
    most: u64,
) -> Result<Result<Relation, Fault>, StepError>
    ensures { IsSmallOrLarge most (spec.join_outcome (option_map expression_of condition.now) (spec.pairs (relation_of tables.now left) (relation_of tables.now right))) (relation_or_fault_of tables.now) result }
{
    let right = store(alloc, tables, right)?;
    match condition {
        None => {
            let pairs = Relation::Pairs(Box::new(alloc, left)?, right);
            Ok(Ok(within(tables, pairs, most)?))
        }
        Some(condition) => {
            let left = narrow(alloc, tables, condition, left)?;
            join_stored(alloc, tables, condition, left, right, most)
        }
    }
}

/// The pairs of two sides for which the condition is true.
fn join_stored(
    alloc: Global,
    tables: &Tables,
    condition: &Expr,
    left: StoredRows,
    right: StoredRows,
    most: u64,
) -> Result<Result<Relation, Fault>, StepError>
    ensures { IsSmallOrLarge most (spec.filter_outcome (expression_of condition.now) (spec.pairs (stored_rows_of tables.now left) (stored_rows_of tables.now right))) (relation_or_fault_of tables.now) result }
{
    let found = join_pairs(
        alloc,
        condition,
        &tables.source(&left),
        &tables.source(&right),
        most,
    )?;
    Ok(from_pairs(left, right, found))
}

/// The rows of the input for which the condition is true, or the least fault.
pub fn filter_input(
    alloc: Global,
    tables: &Tables,
    condition: &Expr,
    input: Relation,
) -> Result<Result<Relation, Fault>, OutOfMemory>
    ensures { IfOk result (λ r. relation_or_fault_of tables.now r ≡ spec.filter_outcome (expression_of condition.now) (relation_of tables.now input)) }
{
    match input {
        Relation::Pairs(left, right) => {
            let left = narrow(alloc, tables, condition, Box::into_inner(left))?;
            passing_pairs(alloc, tables, condition, left, right)
        }
        other => {
            let stored = store(alloc, tables, other)?;
            passing_rows(alloc, tables, condition, stored)
        }
    }
}

/// The pairs of two sides for which the condition is true, however many there are.
fn passing_pairs(
    alloc: Global,
    tables: &Tables,
    condition: &Expr,
    left: StoredRows,
    right: StoredRows,
) -> Result<Result<Relation, Fault>, OutOfMemory>
    ensures { IfOk result (λ r. relation_or_fault_of tables.now r ≡ spec.filter_outcome (expression_of condition.now) (spec.pairs (stored_rows_of tables.now left) (stored_rows_of tables.now right))) }
{
    let found = filter_pairs(
        alloc,
        condition,
        &tables.source(&left),
        &tables.source(&right),
    )?;
    Ok(from_pairs(left, right, found))
}

/// The rows for which the condition is true.
fn passing_rows(
    alloc: Global,
    tables: &Tables,
    condition: &Expr,
    stored: StoredRows,
) -> Result<Result<Relation, Fault>, OutOfMemory>
    ensures { IfOk result (λ r. relation_or_fault_of tables.now r ≡ spec.filter_outcome (expression_of condition.now) (stored_rows_of tables.now stored)) }
{
    let found = passing_positions(alloc, condition, &tables.source(&stored))?;
    match found {
        Ok(kept) => {
            let passing = pick_rows(alloc, tables, stored, &kept)?;
            Ok(Ok(Relation::Stored(passing)))
        }
        Err(fault) => Ok(Err(fault)),
    }
}

/// The values of the outputs over each row of the input, or the least fault.
pub fn map_input(
    alloc: Global,
    tables: &Tables,
    outputs: &[Expr],
    input: Relation,
) -> Result<Result<Relation, Fault>, OutOfMemory>
    ensures { IfOk result (λ r. relation_or_fault_of tables.now r ≡ spec.map_outcome (map expression_of outputs.now) (relation_of tables.now input)) }
{
    match input {
        Relation::Stored(stored) => map_stored(alloc, tables, outputs, stored),
        Relation::Pairs(left, right) => {
            let marks = columns_read(alloc, outputs)?;
            let left = store_marked(alloc, tables, Box::into_inner(left), &marks)?;
            let pairs = all_pairs(alloc, &tables.source(&left), &tables.source(&right))?;
            map_pairs(alloc, tables, outputs, left, right, &pairs)
        }
        Relation::Joined(left, right, pairs) => {
            let marks = columns_read(alloc, outputs)?;
            let left = keep_marked(alloc, left, &marks)?;
            map_pairs(alloc, tables, outputs, left, right, &pairs)
        }
    }
}

/// The values of the outputs over pairs that are not made yet.
fn map_pairs(
    alloc: Global,
    tables: &Tables,
    outputs: &[Expr],
    left: StoredRows,
    right: StoredRows,
    pairs: &[Pair],
) -> Result<Result<Relation, Fault>, OutOfMemory>
    ensures { IfOk result (λ r. relation_or_fault_of tables.now r ≡ spec.map_outcome (map expression_of outputs.now) (rows_paired (stored_rows_of tables.now left) (stored_rows_of tables.now right) pairs.now)) }
{
    match join_sides(alloc, tables, left, right, pairs)? {
        Sides::Joined(rows) => map_own(alloc, outputs, rows),
        Sides::Apart(left, right) => map_apart(
            alloc,
            outputs,
            &tables.source(&left),
            &tables.source(&right),
            pairs,
        ),
    }
}

/// The values of the outputs over the pairs of two sides, whose rows are made: where the outputs are columns, with only these.
fn map_apart(
    alloc: Global,
    outputs: &[Expr],
    left: &RowSource,
    right: &RowSource,
    pairs: &[Pair],
) -> Result<Result<Relation, Fault>, OutOfMemory>
    ensures { IfOk result (λ r. (instance : Instance) → relation_or_fault_of instance r ≡ spec.map_outcome (map expression_of outputs.now) (rows_paired left.now right.now pairs.now)) }
{
    match shown_columns(alloc, outputs)? {
        Some(columns) => {
            let picked = paired_columns(alloc, left, right, pairs, &columns)?;
            Ok(from_columns(Ok(picked)))
        }
        None => {
            let rows = paired_rows(alloc, left, right, pairs)?;
            map_own(alloc, outputs, rows)
        }
    }
}

/// The values of the outputs over stored rows.
fn map_stored(
    alloc: Global,
    tables: &Tables,
    outputs: &[Expr],
    stored: StoredRows,
) -> Result<Result<Relation, Fault>, OutOfMemory>
    ensures { IfOk result (λ r. relation_or_fault_of tables.now r ≡ spec.map_outcome (map expression_of outputs.now) (stored_rows_of tables.now stored)) }
{
    match stored {
        StoredRows::Table(number) => map_table(alloc, outputs, &tables.table(number)),
        StoredRows::Own(rows) => map_own(alloc, outputs, rows),
    }
}

/// The values of the outputs over a table: joined rows are shared.
fn map_table(
    alloc: Global,
    outputs: &[Expr],
    table: &RowSource,
) -> Result<Result<Relation, Fault>, OutOfMemory>
    ensures { IfOk result (λ r. (instance : Instance) → relation_or_fault_of instance r ≡ spec.map_outcome (map expression_of outputs.now) table.now) }
{
    match share_rows(alloc, table)? {
        Some(shared) => map_own(alloc, outputs, shared),
        None => map_source(alloc, outputs, table),
    }
}

/// The values of the outputs over rows of their own: they are moved where the outputs are columns or NULL, no column twice.
fn map_own(
    alloc: Global,
    outputs: &[Expr],
    rows: OwnRows,
) -> Result<Result<Relation, Fault>, OutOfMemory>
    ensures { IfOk result (λ r. (instance : Instance) → relation_or_fault_of instance r ≡ spec.map_outcome (map expression_of outputs.now) rows) }
{
    let columns = selected_columns(alloc, outputs, &rows.source())?;
    match columns {
        Some(columns) => {
            let selected = rows.select(alloc, &columns)?;
            Ok(Ok(Relation::Stored(StoredRows::Own(selected))))
        }
        None => map_source(alloc, outputs, &rows.source()),
    }
}

/// The values of the outputs over rows, column by column.
fn map_source(
    alloc: Global,
    outputs: &[Expr],
    rows: &RowSource,
) -> Result<Result<Relation, Fault>, OutOfMemory>
    ensures { IfOk result (λ r. (instance : Instance) → relation_or_fault_of instance r ≡ spec.map_outcome (map expression_of outputs.now) rows.now) }
{
    let made = map_columns(alloc, outputs, rows)?;
    Ok(from_columns(made))
}

/// The rows of a Group's sets over the input's rows, or the error that there are more than `most`.
pub fn group_input(
    alloc: Global,
    tables: &Tables,
    group: &Group,
    input: Relation,
    most: u64,
) -> Result<Result<Relation, Fault>, StepError>
    requires few { most < 2 ^ 32 }
    requires small { nat_lt most (length (relation_of tables.now input)) ≡ false }
    requires masks { HaveMasks (grouping_of group.now) }
    ensures { IsSmallOrLarge most (spec.group_outcome (grouping_of group.now) (relation_of tables.now input)) (relation_or_fault_of tables.now) result }
{
    let stored = store(alloc, tables, input)?;
    let made = group_rows(alloc, group, &tables.source(&stored), most)?;
    Ok(from_columns(made))
}

/// The first of the input's rows that are not distinct.
pub fn distinct(alloc: Global, tables: &Tables, input: Relation) -> Result<Relation, OutOfMemory>
    ensures { IfOk result (λ r. relation_of tables.now r ≡ spec.distinct (relation_of tables.now input)) }
{
    let stored = store(alloc, tables, input)?;
    let kept = distinct_positions(alloc, &tables.source(&stored))?;
    let first = pick_rows(alloc, tables, stored, &kept)?;
    Ok(Relation::Stored(first))
}
