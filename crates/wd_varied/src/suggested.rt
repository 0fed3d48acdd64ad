//! The values that the literals of a plan suggest for the columns of tables.

ghost use Rattle.std.specs.Prelude.{◌≡◌, ◌++◌, filter, flat_map, map, take, IfOk};
ghost use Rattle.wd_plan.specs.Plans.{plan_of};
ghost use Rattle.wd_schema.specs.Meets.{is_of_type as is_of};
ghost use Rattle.wd_varied.specs.Literals as literals;
ghost use Rattle.wd_varied.specs.Suggested.{IsSuggested};
ghost use Rattle.wd_varied.specs.Suggested as spec;

use crate::conditions::{Compared, Conditions, add_conditions};
use crate::literals::add_literals;
use crate::near::{near, small};
use crate::pools::Suggested;
use std::alloc::Global;
use wd_plan::Plan;
use wd_schema::is_of_type;
use wd_value::{ColumnType, OutOfMemory, Value};

/// The most literals, comparisons and equations of a plan that are looked at.
const MOST_LITERALS: usize = 64;

/// What a plan suggests for the columns of tables, by its literals and by the columns that it equates.
pub fn collect_suggested(alloc: Global, plan: &Plan) -> Result<Suggested, OutOfMemory>
    ensures { IfOk result (IsSuggested (plan_of plan.now)) }
{
    let mut found = Conditions {
        compared: Vec::new(alloc),
        equated: Vec::new(alloc),
    };
    add_conditions(alloc, plan, &mut found)?;
    let Conditions {
        compared: mut exact,
        mut equated,
    } = found;
    exact.truncate(MOST_LITERALS);
    equated.truncate(MOST_LITERALS);
    let near = all_around(alloc, &exact)?;
    let mut literals = Vec::new(alloc);
    add_literals(alloc, plan, &mut literals)?;
    literals.truncate(MOST_LITERALS);
    let all = all_near(alloc, &literals)?;
    Suggested::new(alloc, exact, near, equated, all)
}

/// A few small values, and those near the literals.
fn all_near(alloc: Global, literals: &[Value]) -> Result<Vec<Value>, OutOfMemory>
    ensures { IfOk result (λ v. v.items ≡ spec.all_near literals.now) }
{
    let mut all = small(alloc)?;
    for literal in literals {
        let mut values = near(alloc, literal)?;
        all.append(&mut values)?;
    }
    Ok(all)
}

/// The columns that are compared with literals, and the values near these.
fn all_around(alloc: Global, found: &[Compared]) -> Result<Vec<Compared>, OutOfMemory>
    ensures { IfOk result (λ v. v.items ≡ flat_map spec.around found.now) }
{
    let mut all = Vec::new(alloc);
    for one in found {
        let values = near(alloc, &one.value)?;
        add_each(one.table, one.column, values, &mut all)?;
    }
    Ok(all)
}

/// Appends a column with each of the values.
fn add_each(
    table: u16,
    column: u16,
    values: Vec<Value>,
    list: &mut Vec<Compared>,
) -> Result<(), OutOfMemory>
    ensures { IfOk result (λ _. list.new.items ≡ list.old.items ++ map (spec.at_column table column) values.items) }
{
    for value in values {
        list.push(Compared {
            table,
            column,
            value,
        })?;
    }
    Ok(())
}

/// The values of a type that comparisons with a column suggest.
pub(crate) fn values_for(
    alloc: Global,
    compared: &[Compared],
    table: usize,
    column: usize,
    kind: ColumnType,
) -> Result<Vec<Value>, OutOfMemory>
    ensures { IfOk result (λ v. v.items ≡ spec.values_for table column kind compared.now) }
{
    let mut values = Vec::new(alloc);
    for one in compared {
        if is_for(one, table, column, kind) {
            values.push(one.value.copy(alloc)?)?;
        }
    }
    Ok(values)
}

fn is_for(one: &Compared, table: usize, column: usize, kind: ColumnType) -> bool
    ensures { result ≡ spec.is_for table column kind one.now }
{
    usize::from(one.table) == table
        && usize::from(one.column) == column
        && is_of_type(kind, &one.value)
}
