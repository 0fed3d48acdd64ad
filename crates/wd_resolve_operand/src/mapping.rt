//! Expressions over other references, and over columns.

ghost use Rattle.std.specs.Prelude.{ℕ};
ghost use Rattle.wd_plan.specs.Expressions.{expression_of};
ghost use Rattle.wd_resolve_operand.specs.Causes.{Gives, Meant};
ghost use Rattle.wd_resolve_operand.specs.BoundExpressions.{bound_expression_of, over_columns, over_references};

use crate::cause::ResolveError;
use crate::expression::BoundExpression;
use crate::maker::{Binary, Maker, Unary};
use crate::walk::make;
use std::alloc::Global;
use wd_plan::{Branch, Expr, ValueKind};
use wd_value::Value;

/// Which reference each reference becomes.
pub trait ReferenceMap {
    type From: Drop;

    type To: Drop;

    ghost Read: { Type 0 };

    ghost read: { Self.From → Read };

    ghost Shown: { Type 0 };

    ghost shown: { Self.To → Shown };

    ghost meaning: { Self → Read → Meant Shown };

    /// The reference in place of another.
    fn reference(&self, alloc: Global, reference: &Self::From) -> Result<Self::To, ResolveError>
        ensures { Gives shown result (meaning self.now (read reference.now)) };
}

/// The column of each reference.
pub trait ColumnMap {
    type From: Drop;

    ghost Read: { Type 0 };

    ghost read: { Self.From → Read };

    ghost meaning: { Self → Read → Meant ℕ };

    /// The column of a reference.
    fn column(&self, reference: &Self::From) -> Result<u16, ResolveError>
        ensures { Gives (λ n. n) result (meaning self.now (read reference.now)) };
}

/// An expression with each reference replaced.
#[tactic(auto, using(crate::proofs::Mapped::mapped_over_references))]
pub fn over_references<M: ReferenceMap>(
    alloc: Global,
    map: &M,
    expression: &BoundExpression<M::From>,
) -> Result<BoundExpression<M::To>, ResolveError>
    ensures { Gives (bound_expression_of M.shown) result (over_references (M.meaning map.now) (bound_expression_of M.read expression.now)) }
{
    make(alloc, &OverReferences { map }, expression)
}

/// The expression over the columns of its references.
pub fn over_columns<M: ColumnMap>(
    alloc: Global,
    map: &M,
    expression: &BoundExpression<M::From>,
) -> Result<Expr, ResolveError>
    ensures { Gives expression_of result (over_columns (M.meaning map.now) (bound_expression_of M.read expression.now)) }
{
    make(alloc, &OverColumns { map }, expression)
}

/// Makes expressions over other references.
#[derive(Drop)]
struct OverReferences<'m, M> {
    map: &'m M,
}

impl<'m, M: ReferenceMap> Maker for OverReferences<'m, M> {
    ghost use Rattle.std.specs.Prelude.{◌≡◌};
    ghost use Rattle.wd_resolve_operand.specs.BoundExpressions.{BoundExpression as Tree};
    ghost use Rattle.wd_resolve_operand.specs.Mappings.{bound_expressions, reference_over};

    type From = M::From;

    type To = BoundExpression<M::To>;

    ghost Read = { M.Read };

    ghost read = { M.read };

    ghost Shown = { Tree M.Shown };

    ghost shown = { bound_expression_of M.shown };

    ghost making = { bound_expressions };

    ghost meaning = { λ s l. reference_over (M.meaning s.map.now) l };

    fn reference(
        &self,
        alloc: Global,
        reference: &M::From,
    ) -> Result<BoundExpression<M::To>, ResolveError> {
        Ok(BoundExpression::Reference(self.map.reference(alloc, reference)?))
    }

    fn literal(value: Value, kind: ValueKind) -> BoundExpression<M::To> {
        BoundExpression::Literal(value, kind)
    }

    fn under(operator: Unary, a: Box<BoundExpression<M::To>>) -> BoundExpression<M::To>
        ensures { bound_expression_of M.shown result ≡ bound_expressions.under operator (bound_expression_of M.shown a.value) }
    {
        match operator {
            Unary::Negate => BoundExpression::Negate(a),
            Unary::Not => BoundExpression::Not(a),
            Unary::IsNull => BoundExpression::IsNull(a),
            Unary::IsNotNull => BoundExpression::IsNotNull(a),
        }
    }

    fn between(
        operator: Binary,
        a: Box<BoundExpression<M::To>>,
        b: Box<BoundExpression<M::To>>,
    ) -> BoundExpression<M::To>
        ensures { bound_expression_of M.shown result ≡ bound_expressions.between operator (bound_expression_of M.shown a.value) (bound_expression_of M.shown b.value) }
    {
        match operator {
            Binary::Arithmetic(op) => BoundExpression::Arithmetic(op, a, b),
            Binary::Compare(op) => BoundExpression::Compare(op, a, b),
            Binary::And => BoundExpression::And(a, b),
            Binary::Or => BoundExpression::Or(a, b),
        }
    }

    fn branch(
        branch: Branch,
        a: Box<BoundExpression<M::To>>,
        b: Box<BoundExpression<M::To>>,
        c: Box<BoundExpression<M::To>>,
    ) -> BoundExpression<M::To>
        ensures { bound_expression_of M.shown result ≡ bound_expressions.branch branch (bound_expression_of M.shown a.value) (bound_expression_of M.shown b.value) (bound_expression_of M.shown c.value) }
    {
        BoundExpression::Case(branch, a, b, c)
    }
}

/// Makes expressions of a plan, over columns.
#[derive(Drop)]
struct OverColumns<'m, M> {
    map: &'m M,
}

impl<'m, M: ColumnMap> Maker for OverColumns<'m, M> {
    ghost use Rattle.std.specs.Prelude.{◌≡◌};
    ghost use Rattle.wd_plan.specs.Expressions.{Expression};
    ghost use Rattle.wd_resolve_operand.specs.Mappings.{column_over, expressions};

    type From = M::From;

    type To = Expr;

    ghost Read = { M.Read };

    ghost read = { M.read };

    ghost Shown = { Expression };

    ghost shown = { expression_of };

    ghost making = { expressions };

    ghost meaning = { λ s l. column_over (M.meaning s.map.now) l };

    fn reference(&self, alloc: Global, reference: &M::From) -> Result<Expr, ResolveError> {
        Ok(Expr::Column(self.map.column(reference)?))
    }

    fn literal(value: Value, kind: ValueKind) -> Expr {
        Expr::Literal(value, kind)
    }

    fn under(operator: Unary, a: Box<Expr>) -> Expr
        ensures { expression_of result ≡ expressions.under operator (expression_of a.value) }
    {
        match operator {
            Unary::Negate => Expr::Negate(a),
            Unary::Not => Expr::Not(a),
            Unary::IsNull => Expr::IsNull(a),
            Unary::IsNotNull => Expr::IsNotNull(a),
        }
    }

    fn between(operator: Binary, a: Box<Expr>, b: Box<Expr>) -> Expr
        ensures { expression_of result ≡ expressions.between operator (expression_of a.value) (expression_of b.value) }
    {
        match operator {
            Binary::Arithmetic(op) => Expr::Arithmetic(op, a, b),
            Binary::Compare(op) => Expr::Compare(op, a, b),
            Binary::And => Expr::And(a, b),
            Binary::Or => Expr::Or(a, b),
        }
    }

    fn branch(branch: Branch, a: Box<Expr>, b: Box<Expr>, c: Box<Expr>) -> Expr
        ensures { expression_of result ≡ expressions.branch branch (expression_of a.value) (expression_of b.value) (expression_of c.value) }
    {
        Expr::Case(branch, a, b, c)
    }
}
