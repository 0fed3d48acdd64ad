//! What all candidates of a plan share.

ghost use Rattle.std.specs.Prelude.{◌≡◌, ℕ, ◌<◌, List, [], ◌∷◌, ◌++◌, true, false, ◌||◌, None, Some, length, map, slice_index_or, slice_set, IfOk};
ghost use Rattle.std.specs.Option.{option_or};
ghost use Rattle.wd_candidates.specs.Filled as spec;
ghost use Rattle.wd_candidates.specs.Filled.{AreFilled, HasSlots};
ghost use Rattle.wd_candidates.specs.Fixed.{fixes};
ghost use Rattle.wd_candidates.specs.AllOrigins.{ScansBelow};
ghost use Rattle.wd_plan.specs.Plans.{is_scanned, plan_of};
ghost use Rattle.wd_candidates.specs.Outlines.{IsOutline};
ghost use Rattle.wd_facts.specs.Given.{table_rule};
ghost use Rattle.wd_plan.specs.Fits.{fits};
ghost use Rattle.wd_schema.specs.Schemas.{schema_of};

use crate::fixed::{Fixing, add_plan_fixings};
use std::alloc::Global;
use wd_plan::Plan;
use wd_schema::{Column, Schema, is_of_type};
use wd_value::{OutOfMemory, Value};

/// The tables that a plan scans, and the values that its conditions fix their columns to, by the numbers of the schema's tables
/// and of their columns.
#[derive(Drop)]
pub struct Outline {
    pub scanned: Vec<bool>,
    pub fixed: Vec<Vec<Option<Value>>>,
}

/// What all candidates of a plan share. A column is fixed to a literal that is not NULL, or to NULL, by a conjunct of a Filter or a
/// Join that sets it equal to the literal or tests that it is NULL, through plain copies of the column: the first conjunct counts whose
/// value is of the column's type and range.
pub fn outline_of(alloc: Global, schema: &Schema, plan: &Plan) -> Result<Outline, OutOfMemory>
    requires { fits (schema_of schema.now) (plan_of plan.now) ≡ true }
    ensures { IfOk result (IsOutline (schema_of schema.now) (plan_of plan.now)) }
{
    let mut scanned = Vec::from_elem(alloc, false, schema.tables.len())?;
    mark_scanned(plan, &mut scanned);
    let mut fixings = Vec::new(alloc);
    add_plan_fixings(alloc, plan, &mut fixings)?;
    let fixed = fixed_columns(alloc, schema, fixings)?;
    Ok(Outline { scanned, fixed })
}

/// Marks the tables that a plan scans.
fn mark_scanned(plan: &Plan, scanned: &mut [bool])
    requires { ScansBelow (length scanned.old) (plan_of plan.now) }
    ensures { (table : ℕ) → table < length scanned.old → slice_index_or scanned.new table false ≡ (slice_index_or scanned.old table false || is_scanned (plan_of plan.now) table) }
{
    match plan {
        Plan::Scan { table, .. } => scanned[usize::from(*table)] = true,
        Plan::Join { left, right, .. } => {
            mark_scanned(left, scanned);
            mark_scanned(right, scanned);
        }
        Plan::Filter { input, .. }
        | Plan::Map { input, .. }
        | Plan::Group { input, .. }
        | Plan::Window { input, .. }
        | Plan::Distinct { input }
        | Plan::Limit { input, .. } => mark_scanned(input, scanned),
    }
}

/// What each column of each table is fixed to.
fn fixed_columns(
    alloc: Global,
    schema: &Schema,
    fixings: Vec<Fixing>,
) -> Result<Vec<Vec<Option<Value>>>, OutOfMemory>
    ensures { IfOk result (λ v. AreFilled (schema_of schema.now) fixings.items (map (λ row. row.items) v.items)) }
{
    let mut slots = empty_slots(alloc, schema)?;
    for fixing in fixings {
        put(schema, fixing, &mut slots);
    }
    Ok(slots)
}

/// An empty slot for each column of each table.
fn empty_slots(alloc: Global, schema: &Schema) -> Result<Vec<Vec<Option<Value>>>, OutOfMemory>
    ensures { IfOk result (λ v. map (λ row. row.items) v.items ≡ spec.empty_slots (schema_of schema.now)) }
{
    let mut slots = Vec::with_capacity(alloc, schema.tables.len())?;
    for table in schema.tables.values() {
        slots.push(empty_row(alloc, &table.columns)?)?;
    }
    Ok(slots)
}

/// An empty slot for each column.
fn empty_row(alloc: Global, columns: &[Column]) -> Result<Vec<Option<Value>>, OutOfMemory>
    ensures { IfOk result (λ v. v.items ≡ map (λ column. None) columns.now) }
{
    let mut row = Vec::with_capacity(alloc, columns.len())?;
    for _column in columns {
        row.push(None)?;
    }
    Ok(row)
}

/// Fills the slot of the fixing's column, where the slot is empty and the value is of the column's type and range.
fn put(schema: &Schema, fixing: Fixing, slots: &mut [Vec<Option<Value>>])
    requires { HasSlots (schema_of schema.now) (map (λ row. row.items) slots.old) }
    ensures { (fs : List Fixing) → AreFilled (schema_of schema.now) fs (map (λ row. row.items) slots.old) → AreFilled (schema_of schema.now) (fs ++ fixing ∷ []) (map (λ row. row.items) slots.new) }
{
    if is_for_column(schema, &fixing) {
        let Fixing {
            table,
            column,
            value,
        } = fixing;
        fill(&mut slots[usize::from(table)], usize::from(column), value);
    }
}

/// Whether the fixing's value is of its column's type and range.
#[tactic(auto, using(crate::proofs::Fillings::same_number))]
fn is_for_column(schema: &Schema, fixing: &Fixing) -> bool
    ensures { result ≡ fixes (table_rule (schema_of schema.now) fixing.now.table).columns fixing.now.table fixing.now.column fixing.now }
{
    match columns_of(schema, fixing.table).get(usize::from(fixing.column)) {
        Some(column) => is_of_type(column.kind, &fixing.value),
        None => false,
    }
}

/// The columns of the table with this number; none where there is no such table.
fn columns_of(schema: &Schema, table: u16) -> &[Column]
    ensures { result.now ≡ (table_rule (schema_of schema.now) table).columns }
{
    match schema.tables.get_index(usize::from(table)) {
        Some((_, table)) => &table.columns,
        None => &[],
    }
}

/// Fills the slot of this column, if it is empty.
fn fill(row: &mut [Option<Value>], column: usize, value: Value)
    requires { column < length row.old }
    ensures { row.new ≡ slice_set row.old column (option_or (slice_index_or row.old column None) (Some value)) }
{
    if row[column].is_none() {
        row[column] = Some(value);
    }
}
