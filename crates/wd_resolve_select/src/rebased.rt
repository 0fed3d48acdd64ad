//! Expressions over references, as expressions over the columns of these.

ghost use Rattle.std.specs.Prelude.{◌≡◌, false, map, IfOk};
ghost use Rattle.wd_plan.specs.Expressions.{expression_of};
ghost use Rattle.wd_resolve_call.specs.References.{bound_expression_of};
ghost use Rattle.wd_resolve_list.specs.SelectLists.{is_group_wide, is_window_wide, projected_shown, over, row_place};
ghost use Rattle.wd_resolve_list.specs.Grouping.{below_of};
ghost use Rattle.wd_resolve_operand.specs.BoundExpressions as expressions;
ghost use Rattle.wd_resolve_call.specs.Rows.{row_expression_of};

use std::alloc::Global;
use wd_plan::Expr;
use wd_resolve_list::{Below, ProjectedInputs};
use wd_resolve_operand::{BoundExpression, ColumnMap, ResolveError, over_columns};
use wd_resolve_scope::{RowReference, SelectReference};
use wd_value::OutOfMemory;

/// An expression over the columns below what is shown.
fn rebase(
    alloc: Global,
    projected: &ProjectedInputs,
    below: &Below,
    expression: &BoundExpression<SelectReference>,
) -> Result<Expr, OutOfMemory>
    requires few_inputs { is_window_wide (projected_shown projected.now) ≡ false }
    requires few_groups { is_group_wide (below_of below.now).grouped (projected_shown projected.now).groups ≡ false }
    ensures { IfOk result (λ e. expression_of e ≡ over (row_place (below_of below.now).grouped (projected_shown projected.now).groups) (projected_shown projected.now) (bound_expression_of expression.now)) }
{
    match over_columns(alloc, &Places { projected, below }, expression) {
        Ok(expression) => Ok(expression),
        Err(_) => Err(OutOfMemory),
    }
}

/// Expressions over the columns below what is shown.
pub(crate) fn rebase_all(
    alloc: Global,
    projected: &ProjectedInputs,
    below: &Below,
    expressions: &[BoundExpression<SelectReference>],
) -> Result<Vec<Expr>, OutOfMemory>
    requires few_inputs { is_window_wide (projected_shown projected.now) ≡ false }
    requires few_groups { is_group_wide (below_of below.now).grouped (projected_shown projected.now).groups ≡ false }
    ensures { IfOk result (λ v. map expression_of v.items ≡ map (over (row_place (below_of below.now).grouped (projected_shown projected.now).groups) (projected_shown projected.now)) (map bound_expression_of expressions.now)) }
{
    let mut rebased = Vec::with_capacity(alloc, expressions.len())?;
    for expression in expressions {
        rebased.push(rebase(alloc, projected, below, expression)?)?;
    }
    Ok(rebased)
}

/// An expression over rows, over the columns of its references.
pub(crate) fn rebase_row(
    alloc: Global,
    projected: &ProjectedInputs,
    below: &Below,
    expression: &BoundExpression<RowReference>,
) -> Result<Expr, OutOfMemory>
    requires { is_group_wide (below_of below.now).grouped (projected_shown projected.now).groups ≡ false }
    ensures { IfOk result (λ e. expression_of e ≡ expressions.rebased (row_place (below_of below.now).grouped (projected_shown projected.now).groups) (row_expression_of expression.now)) }
{
    match over_columns(alloc, &RowPlaces { projected, below }, expression) {
        Ok(expression) => Ok(expression),
        Err(_) => Err(OutOfMemory),
    }
}

/// What the Map below a Window shows.
pub(crate) fn rebase_inputs(
    alloc: Global,
    projected: &ProjectedInputs,
    below: &Below,
) -> Result<Vec<Expr>, OutOfMemory>
    requires { is_group_wide (below_of below.now).grouped (projected_shown projected.now).groups ≡ false }
    ensures { IfOk result (λ v. map expression_of v.items ≡ map (expressions.rebased (row_place (below_of below.now).grouped (projected_shown projected.now).groups)) (projected_shown projected.now).inputs) }
{
    let mut expressions = Vec::with_capacity(alloc, projected.inputs.len())?;
    for expression in &projected.inputs {
        expressions.push(rebase_row(alloc, projected, below, expression)?)?;
    }
    Ok(expressions)
}

/// The columns of references below what is shown.
#[derive(Drop)]
struct Places<'n, 'b> {
    projected: &'n ProjectedInputs,
    below: &'b Below,
    ghost few_inputs: { is_window_wide (projected_shown projected.now) ≡ false },
    ghost few_groups: { is_group_wide (below_of below.now).grouped (projected_shown projected.now).groups ≡ false },
}

impl<'n, 'b> ColumnMap for Places<'n, 'b> {
    ghost use Rattle.std.specs.Prelude.{Ok};
    ghost use Rattle.wd_resolve_call.specs.References.{SelectReference as ReferenceTree, reference_of};
    ghost use Rattle.wd_resolve_list.specs.SelectLists.{place_in};

    type From = SelectReference;

    ghost Read = { ReferenceTree };

    ghost read = { reference_of };

    ghost meaning = { λ s l. Ok (place_in (row_place (below_of s.below.now).grouped (projected_shown s.projected.now).groups) (projected_shown s.projected.now).inputs (projected_shown s.projected.now).calls l) };

    fn column(&self, reference: &SelectReference) -> Result<u16, ResolveError> {
        Ok(self.projected.place(self.below, reference))
    }
}

/// The columns of references of rows.
#[derive(Drop)]
struct RowPlaces<'n, 'b> {
    projected: &'n ProjectedInputs,
    below: &'b Below,
    ghost few_groups: { is_group_wide (below_of below.now).grouped (projected_shown projected.now).groups ≡ false },
}

impl<'n, 'b> ColumnMap for RowPlaces<'n, 'b> {
    ghost use Rattle.std.specs.Prelude.{Ok};
    ghost use Rattle.wd_resolve_call.specs.Rows.{RowReference as RowTree, row_reference_of};

    type From = RowReference;

    ghost Read = { RowTree };

    ghost read = { row_reference_of };

    ghost meaning = { λ s l. Ok (row_place (below_of s.below.now).grouped (projected_shown s.projected.now).groups l) };

    fn column(&self, reference: &RowReference) -> Result<u16, ResolveError> {
        Ok(self.projected.row_place(self.below, reference))
    }
}
