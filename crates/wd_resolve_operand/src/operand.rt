//! Operands: expressions over references, with the kind of their values.

ghost use Rattle.std.specs.Prelude.{◌≡◌, Ok};
ghost use Rattle.wd_resolve_operand.specs.Causes.{Gives};
ghost use Rattle.wd_resolve_operand.specs.BoundExpressions.{bound_expression_of};
ghost use Rattle.wd_resolve_operand.specs.Operands.{operand_of};
ghost use Rattle.wd_resolve_operand.specs.Operands as spec;

use crate::cause::{Cause, ResolveError};
use crate::expression::{BoundExpression, Reference};
use std::alloc::Global;
use wd_plan::{ValueKind, same_kind};
use wd_value::Value;

/// An expression as an operand: a bare NULL, whose kind its place decides, or an expression of a kind.
#[derive(Drop)]
pub enum TypedOperand<L> {
    Null,
    Typed(Box<BoundExpression<L>>, ValueKind),
}

impl<L: Reference> TypedOperand<L> {
    /// The kind of the values in a place that requires none: a bare NULL is a text.
    pub fn kind(&self) -> ValueKind
        ensures { result ≡ spec.kind_of (operand_of L.shown self.now) }
    {
        match self {
            TypedOperand::Null => ValueKind::Text,
            TypedOperand::Typed(_, kind) => *kind,
        }
    }

    /// The expression in a place that requires this kind; 404 where it is of another kind.
    pub fn of_kind(
        self,
        alloc: Global,
        kind: ValueKind,
    ) -> Result<Box<BoundExpression<L>>, ResolveError>
        ensures { Gives (λ e. bound_expression_of L.shown e.value) result (spec.of_kind kind (operand_of L.shown self)) }
    {
        match self {
            TypedOperand::Null => Ok(Box::new(alloc, BoundExpression::Literal(Value::Null, kind))?),
            TypedOperand::Typed(expression, other) => if same_kind(kind, other) {
                Ok(expression)
            } else {
                Err(ResolveError::Refused(Cause::Types))
            },
        }
    }

    /// The expression in a place that requires no kind.
    pub fn settled(self) -> BoundExpression<L>
        ensures { bound_expression_of L.shown result ≡ spec.settled (operand_of L.shown self) }
    {
        match self {
            TypedOperand::Null => BoundExpression::Literal(Value::Null, ValueKind::Text),
            TypedOperand::Typed(expression, _) => Box::into_inner(expression),
        }
    }

    /// The operand of an expression.
    pub fn typed(
        alloc: Global,
        expression: BoundExpression<L>,
        kind: ValueKind,
    ) -> Result<TypedOperand<L>, ResolveError>
        ensures { Gives (operand_of L.shown) result (Ok (spec.typed (bound_expression_of L.shown expression) kind)) }
    {
        Ok(TypedOperand::Typed(Box::new(alloc, expression)?, kind))
    }
}
