//! The whole numbers that the columns of a plan can have: those of their types, and of calls that count.

ghost use Rattle.std.specs.Prelude.{◌≡◌, map, not, option_and_then, slice_get, Some};
ghost use Rattle.wd_plan.specs.Expressions.{expression_of};
ghost use Rattle.wd_plan.specs.Plans.{group_call_of, plan_of};
ghost use Rattle.wd_schema.specs.Schemas.{schema_of};
ghost use Rattle.wd_simpler.specs.Keyed.{column_shown as column_shown_in};
ghost use Rattle.wd_simpler.specs.Numbers as spec;

use wd_plan::{Aggregate, Call, Expr, FrameFunction, Function, GroupCall, Plan};
use wd_schema::Schema;
use wd_value::ColumnType;

/// Whole numbers from the least to the greatest, if there is a greatest; `null` says whether NULL may be among them.
#[derive(Clone, Copy)]
pub struct Numbers {
    pub least: i64,
    pub greatest: Option<i64>,
    pub nullable: bool,
}

/// The only numbers that a plan's column can have, if they are known.
pub(crate) fn numbers_of(schema: &Schema, plan: &Plan, column: u16) -> Option<Numbers>
    ensures { result ≡ spec.numbers_of (schema_of schema.now) (plan_of plan.now) column }
{
    match plan {
        Plan::Scan { table, .. } => numbers_of_table(schema, *table, column),
        Plan::Join { left, right, .. } => {
            let width = left.width();
            if u32::from(column) < width {
                numbers_of(schema, left, column)
            } else {
                numbers_of(schema, right, (u32::from(column) - width) as u16)
            }
        }
        Plan::Filter { input, .. } | Plan::Distinct { input } | Plan::Limit { input, .. } =>
            numbers_of(schema, input, column),
        Plan::Map { input, outputs } => match copied_column(outputs, column) {
            Some(below) => numbers_of(schema, input, below),
            None => None,
        },
        Plan::Group { input, group } => {
            if column < group.columns {
                with_null(numbers_of(schema, input, column))
            } else {
                numbers_of_group_call(&group.calls, column - group.columns)
            }
        }
        Plan::Window { input, window } => {
            let width = input.width();
            if u32::from(column) < width {
                numbers_of(schema, input, column)
            } else {
                numbers_of_call(&window.calls, (u32::from(column) - width) as u16)
            }
        }
    }
}

/// The numbers, with NULL allowed among them.
fn with_null(numbers: Option<Numbers>) -> Option<Numbers>
    ensures { result ≡ spec.with_null numbers }
{
    let numbers = numbers?;
    Some(Numbers {
        least: numbers.least,
        greatest: numbers.greatest,
        nullable: true,
    })
}

/// The numbers from this one on.
fn from_on(least: u8) -> Option<Numbers>
    ensures { result ≡ spec.from_on least }
{
    Some(Numbers {
        least: i64::from(least),
        greatest: None,
        nullable: false,
    })
}

// ---- columns of tables

/// The numbers of a table's column.
fn numbers_of_table(schema: &Schema, table: u16, column: u16) -> Option<Numbers>
    ensures { result ≡ spec.numbers_of_table (schema_of schema.now) table column }
{
    let (_, table) = schema.tables.get_index(usize::from(table))?;
    let column = table.columns.get(usize::from(column))?;
    numbers_of_type(column.kind, column.not_null)
}

/// The numbers that a column of a type holds.
fn numbers_of_type(kind: ColumnType, not_null: bool) -> Option<Numbers>
    ensures { result ≡ spec.numbers_of_type kind not_null }
{
    match kind {
        ColumnType::SmallInt => between(i16::MIN as i64, i16::MAX as i64, not_null),
        ColumnType::Integer => between(i32::MIN as i64, i32::MAX as i64, not_null),
        ColumnType::BigInt => between(i64::MIN, i64::MAX, not_null),
        ColumnType::Text | ColumnType::Boolean => None,
    }
}

fn between(least: i64, greatest: i64, not_null: bool) -> Option<Numbers>
    ensures { result ≡ Some (record { least = least; greatest = Some greatest; nullable = not not_null }) }
{
    Some(Numbers {
        least,
        greatest: Some(greatest),
        nullable: !not_null,
    })
}

// ---- columns of Maps

/// The column that an output shows, if it shows one.
fn copied_column(outputs: &[Expr], column: u16) -> Option<u16>
    ensures { result ≡ option_and_then column_shown_in (slice_get (map expression_of outputs.now) column) }
{
    let output = outputs.get(usize::from(column))?;
    column_shown(output)
}

/// The column that an output shows.
pub(crate) fn column_shown(output: &Expr) -> Option<u16>
    ensures { result ≡ column_shown_in (expression_of output.now) }
{
    match output {
        Expr::Column(column) => Some(*column),
        _ => None,
    }
}

// ---- calls

fn numbers_of_call(calls: &[Call], number: u16) -> Option<Numbers>
    ensures { result ≡ option_and_then spec.numbers_of_call (slice_get calls.now number) }
{
    let call = calls.get(usize::from(number))?;
    numbers_of_function(&call.function)
}

/// The numbers of a function that counts: ranks and buckets from 1.
fn numbers_of_function(function: &Function) -> Option<Numbers>
    ensures { result ≡ spec.numbers_of_function function.now }
{
    match function {
        Function::Ranking(_) => from_on(1),
        Function::Shift(_) => None,
        Function::OfFrame(FrameFunction::ValueAt(_, _)) => None,
        Function::OfFrame(FrameFunction::Aggregate(aggregate)) => numbers_of_aggregate(*aggregate),
    }
}

/// The numbers of an aggregate that counts: from 0.
fn numbers_of_aggregate(aggregate: Aggregate) -> Option<Numbers>
    ensures { result ≡ spec.numbers_of_aggregate aggregate }
{
    match aggregate {
        Aggregate::CountRows | Aggregate::Count(_) => from_on(0),
        Aggregate::Sum(_) | Aggregate::Min(_) | Aggregate::Max(_) => None,
    }
}

fn numbers_of_group_call(calls: &[GroupCall], number: u16) -> Option<Numbers>
    ensures { result ≡ option_and_then spec.numbers_of_group_call (slice_get (map group_call_of calls.now) number) }
{
    match calls.get(usize::from(number))? {
        GroupCall::OfRows(aggregate) => numbers_of_aggregate(*aggregate),
        GroupCall::Grouping(_) => from_on(0),
    }
}
