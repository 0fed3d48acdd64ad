//! What the expressions of a query read of a row.

ghost use Rattle.wd_plan.specs.Expressions.{expression_of};
ghost use Rattle.wd_resolve_operand.specs.Causes.{Gives};
ghost use Rattle.wd_resolve_operand.specs.Operands.{settled};
ghost use Rattle.wd_resolve_call.specs.References.{bound_expression_of, reference_of, operand_of, same_reference};
ghost use Rattle.wd_resolve_call.specs.Rows.{row_expression_of};
ghost use Rattle.wd_resolve_call.specs.Rows as rows;
ghost use Rattle.wd_resolve_call.specs.References as spec;

use crate::call::WindowCall;
use crate::row::RowReference;
use crate::same::same_call;
use std::alloc::Global;
use wd_plan::{Expr, ValueKind};
use wd_resolve_operand::{
    BoundExpression, Cause, ColumnMap, Reference, ReferenceMap, ResolveError, TypedOperand,
    over_references,
};
use wd_value::Value;

/// A reference of the rows below windows, or a window call.
#[derive(Drop)]
pub enum SelectReference {
    Row(RowReference),
    Call(Box<WindowCall>),
}

impl Reference for SelectReference {
    ghost Shown = { spec.SelectReference };

    ghost shown = { reference_of };

    ghost alike = { same_reference };

    fn same(&self, other: &SelectReference) -> bool {
        match (self, other) {
            (SelectReference::Row(l), SelectReference::Row(m)) => l.same(m),
            (SelectReference::Call(c), SelectReference::Call(d)) => same_call(c, d),
            _ => false,
        }
    }
}

/// A kind of value argument: expressions over certain references.
pub trait Argument: Drop {
    ghost use Rattle.wd_resolve_operand.specs.Causes.{Gives, Meant};
    ghost use Rattle.wd_resolve_operand.specs.BoundExpressions.{BoundExpression};
    ghost use Rattle.wd_resolve_call.specs.References.{SelectReference as ReferenceTree, bound_expression_of};

    ghost Shown: { Type 0 };

    ghost shown: { Self → Shown };

    ghost over: { BoundExpression ReferenceTree → Meant Shown };

    /// The expression over these references; an error where another reference is in it.
    fn over(
        alloc: Global,
        expression: &BoundExpression<SelectReference>,
    ) -> Result<Self, ResolveError>
        ensures { Gives shown result (over (bound_expression_of expression.now)) };
}

impl Argument for BoundExpression<RowReference> {
    ghost use Rattle.wd_resolve_call.specs.References.{over_rows};
    ghost use Rattle.wd_resolve_call.specs.Rows.{RowExpression, row_expression_of};

    ghost Shown = { RowExpression };

    ghost shown = { row_expression_of };

    ghost over = { over_rows };

    fn over(
        alloc: Global,
        expression: &BoundExpression<SelectReference>,
    ) -> Result<BoundExpression<RowReference>, ResolveError> {
        over_rows(alloc, expression)
    }
}

impl Argument for Expr {
    ghost use Rattle.wd_plan.specs.Expressions.{Expression, expression_of};
    ghost use Rattle.wd_resolve_call.specs.References.{over_columns};

    ghost Shown = { Expression };

    ghost shown = { expression_of };

    ghost over = { over_columns };

    fn over(
        alloc: Global,
        expression: &BoundExpression<SelectReference>,
    ) -> Result<Expr, ResolveError> {
        over_columns(alloc, expression)
    }
}

/// The expression of an operand in a place that requires no kind, over the references of a value argument.
pub fn settle_argument<E: Argument>(
    alloc: Global,
    operand: &TypedOperand<SelectReference>,
) -> Result<E, ResolveError>
    ensures { Gives E.shown result (E.over (settled (operand_of operand.now))) }
{
    match operand {
        TypedOperand::Null => E::over(
            alloc,
            &BoundExpression::Literal(Value::Null, ValueKind::Text),
        ),
        TypedOperand::Typed(expression, _) => E::over(alloc, expression),
    }
}

/// The expression over the columns of FROM alone; 406 where a window call is in it, and 416 where a call over groups is in it.
pub fn over_columns(
    alloc: Global,
    expression: &BoundExpression<SelectReference>,
) -> Result<Expr, ResolveError>
    ensures { Gives expression_of result (spec.over_columns (bound_expression_of expression.now)) }
{
    let rows = over_rows(alloc, expression)?;
    over_from(alloc, &rows)
}

/// The expression over the rows below windows; 406 where a window call is in it.
pub fn over_rows(
    alloc: Global,
    expression: &BoundExpression<SelectReference>,
) -> Result<BoundExpression<RowReference>, ResolveError>
    ensures { Gives row_expression_of result (spec.over_rows (bound_expression_of expression.now)) }
{
    over_references(alloc, &BelowWindows, expression)
}

/// The expression over the columns of FROM alone; 416 where a call over groups is in it.
fn over_from(
    alloc: Global,
    expression: &BoundExpression<RowReference>,
) -> Result<Expr, ResolveError>
    ensures { Gives expression_of result (rows.over_from (row_expression_of expression.now)) }
{
    wd_resolve_operand::over_columns(alloc, &InFrom, expression)
}

/// The references below windows: any but window calls.
#[derive(Drop)]
struct BelowWindows;

impl ReferenceMap for BelowWindows {
    ghost use Rattle.wd_resolve_call.specs.References.{SelectReference as ReferenceTree, below_windows, reference_of};
    ghost use Rattle.wd_resolve_call.specs.Rows.{RowReference as RowTree, row_reference_of};

    type From = SelectReference;

    type To = RowReference;

    ghost Read = { ReferenceTree };

    ghost read = { reference_of };

    ghost Shown = { RowTree };

    ghost shown = { row_reference_of };

    ghost meaning = { λ _ l. below_windows l };

    fn reference(
        &self,
        _alloc: Global,
        reference: &SelectReference,
    ) -> Result<RowReference, ResolveError> {
        match reference {
            SelectReference::Row(reference) => Ok(reference.copy()?),
            SelectReference::Call(_) => Err(ResolveError::Refused(Cause::CallNotAllowed)),
        }
    }
}

/// The references of FROM: columns, but no calls over groups.
#[derive(Drop)]
struct InFrom;

impl ColumnMap for InFrom {
    ghost use Rattle.wd_resolve_call.specs.Rows.{RowReference as RowTree, from_column, row_reference_of};

    type From = RowReference;

    ghost Read = { RowTree };

    ghost read = { row_reference_of };

    ghost meaning = { λ _ l. from_column l };

    fn column(&self, reference: &RowReference) -> Result<u16, ResolveError> {
        match reference {
            RowReference::Column(number) => Ok(*number),
            RowReference::Group(_) => Err(ResolveError::Refused(Cause::GroupCallNotAllowed)),
        }
    }
}
