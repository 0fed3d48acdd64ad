//! Where the columns of a node come from.

ghost use Rattle.std.specs.Prelude.{◌≡◌, ◌++◌, map, IfOk};
ghost use Rattle.wd_plan.specs.Expressions.{expression_of};
ghost use Rattle.wd_plan.specs.Plans.{group_call_of};
ghost use Rattle.wd_value.specs.Bags.{positions};
ghost use Rattle.wd_candidates.specs.AllOrigins as spec;

use std::alloc::Global;
use wd_plan::{Call, Expr, Group, GroupCall};
use wd_value::OutOfMemory;

/// A column of a table, both by number.
#[derive(Clone, Copy)]
pub struct TableColumn {
    pub table: u16,
    pub column: u16,
}

/// The origin of a column of a node, by the origins of all the node's columns.
pub fn origin_in(origins: &[Option<TableColumn>], column: u16) -> Option<TableColumn>
    ensures { result ≡ spec.origin_in origins.now column }
{
    match origins.get(usize::from(column)) {
        Some(origin) => *origin,
        None => None,
    }
}

/// The origins of the columns of a Scan.
#[tactic(auto, using(crate::proofs::Copies::table_origins_more))]
pub fn table_origins(
    alloc: Global,
    table: u16,
    columns: u16,
) -> Result<Vec<Option<TableColumn>>, OutOfMemory>
    ensures { IfOk result (λ v. v.items ≡ spec.table_origins table columns) }
{
    let mut origins = Vec::with_capacity(alloc, usize::from(columns))?;
    for column in 0..columns {
        origins.push(Some(TableColumn { table, column }))?;
    }
    Ok(origins)
}

/// The origin of a Map's output, by the origins of its input's columns.
fn output_origin(origins: &[Option<TableColumn>], output: &Expr) -> Option<TableColumn>
    ensures { result ≡ spec.output_origin origins.now (expression_of output.now) }
{
    match output {
        Expr::Column(column) => origin_in(origins, *column),
        _ => None,
    }
}

/// The origins of the columns of a Map, by the origins of its input's columns.
pub fn output_origins(
    alloc: Global,
    origins: &[Option<TableColumn>],
    outputs: &[Expr],
) -> Result<Vec<Option<TableColumn>>, OutOfMemory>
    ensures { IfOk result (λ v. v.items ≡ map (spec.output_origin origins.now) (map expression_of outputs.now)) }
{
    let mut list = Vec::with_capacity(alloc, outputs.len())?;
    for output in outputs {
        list.push(output_origin(origins, output))?;
    }
    Ok(list)
}

/// The origins of the columns of a Window, by the origins of its input's columns, which are moved in: a call has no origin.
pub fn window_origins(
    origins: Vec<Option<TableColumn>>,
    calls: &[Call],
) -> Result<Vec<Option<TableColumn>>, OutOfMemory>
    ensures { IfOk result (λ v. v.items ≡ origins.items ++ map (λ call. None) calls.now) }
{
    let mut all = origins;
    add_calls(calls, &mut all)?;
    Ok(all)
}

/// Appends that the columns of calls have no origin.
pub(crate) fn add_calls(
    calls: &[Call],
    origins: &mut Vec<Option<TableColumn>>,
) -> Result<(), OutOfMemory>
    ensures { IfOk result (λ _. origins.new.items ≡ origins.old.items ++ map (λ call. None) calls.now) }
{
    for _call in calls {
        origins.push(None)?;
    }
    Ok(())
}

/// The origins of the columns of a Group, by the origins of its input's columns: a call has no origin.
pub fn group_origins(
    alloc: Global,
    origins: &[Option<TableColumn>],
    group: &Group,
) -> Result<Vec<Option<TableColumn>>, OutOfMemory>
    ensures { IfOk result (λ v. v.items ≡ map (spec.origin_in origins.now) (positions group.now.columns) ++ map (λ call. None) (map group_call_of group.now.calls.items)) }
{
    let mut list = first_origins(alloc, origins, group.columns)?;
    add_group_calls(&group.calls, &mut list)?;
    Ok(list)
}

/// The origins of the first `count` columns.
#[tactic(auto, using(crate::proofs::Copies::first_origins_more))]
fn first_origins(
    alloc: Global,
    origins: &[Option<TableColumn>],
    count: u16,
) -> Result<Vec<Option<TableColumn>>, OutOfMemory>
    ensures { IfOk result (λ v. v.items ≡ map (spec.origin_in origins.now) (positions count)) }
{
    let mut list = Vec::with_capacity(alloc, usize::from(count))?;
    for column in 0..count {
        list.push(origin_in(origins, column))?;
    }
    Ok(list)
}

/// Appends that the columns of a Group's calls have no origin.
fn add_group_calls(
    calls: &[GroupCall],
    origins: &mut Vec<Option<TableColumn>>,
) -> Result<(), OutOfMemory>
    ensures { IfOk result (λ _. origins.new.items ≡ origins.old.items ++ map (λ call. None) (map group_call_of calls.now)) }
{
    for _call in calls {
        origins.push(None)?;
    }
    Ok(())
}
