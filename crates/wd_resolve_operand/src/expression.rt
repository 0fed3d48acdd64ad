//! Expressions over references.

ghost use Rattle.std.specs.Prelude.{◌≡◌, Bool};
ghost use Rattle.wd_resolve_operand.specs.BoundExpressions.{bound_expression_of};
ghost use Rattle.wd_resolve_operand.specs.BoundExpressions as spec;

use wd_plan::{ArithmeticOp, Branch, ComparisonOp, ValueKind, same_kind};
use wd_value::{Value, same};

/// What an expression reads of a row, as a column or a call.
pub trait Reference: Drop {
    ghost Shown: { Type 0 };

    ghost shown: { Self → Shown };

    ghost alike: { Shown → Shown → Bool };

    /// Whether two references are equal.
    fn same(&self, other: &Self) -> bool
        ensures { result ≡ alike (shown self.now) (shown other.now) };
}

/// An expression like `Expr` of a plan, with references in place of columns.
pub enum BoundExpression<L> {
    Reference(L),
    /// A literal, NULL too, with its kind.
    Literal(Value, ValueKind),
    Negate(Box<BoundExpression<L>>),
    Arithmetic(ArithmeticOp, Box<BoundExpression<L>>, Box<BoundExpression<L>>),
    Compare(ComparisonOp, Box<BoundExpression<L>>, Box<BoundExpression<L>>),
    Not(Box<BoundExpression<L>>),
    And(Box<BoundExpression<L>>, Box<BoundExpression<L>>),
    Or(Box<BoundExpression<L>>, Box<BoundExpression<L>>),
    IsNull(Box<BoundExpression<L>>),
    IsNotNull(Box<BoundExpression<L>>),
    /// A branch of a CASE: its condition, its result, and the rest, which is the next branch or the operand of ELSE.
    Case(Branch, Box<BoundExpression<L>>, Box<BoundExpression<L>>, Box<BoundExpression<L>>),
}

/// Drops the left side and the branches of a CASE by a loop: a chain of operators is as deep as it is long.
impl<L: Drop> Drop for BoundExpression<L> {
    fn drop(mut self) {
        loop {
            match self {
                BoundExpression::Reference(_) => return,
                BoundExpression::Literal(_, _) => return,
                BoundExpression::Negate(a) => self = Box::into_inner(a),
                BoundExpression::Arithmetic(_, a, _) => self = Box::into_inner(a),
                BoundExpression::Compare(_, a, _) => self = Box::into_inner(a),
                BoundExpression::Not(a) => self = Box::into_inner(a),
                BoundExpression::And(a, _) => self = Box::into_inner(a),
                BoundExpression::Or(a, _) => self = Box::into_inner(a),
                BoundExpression::IsNull(a) => self = Box::into_inner(a),
                BoundExpression::IsNotNull(a) => self = Box::into_inner(a),
                BoundExpression::Case(_, _, _, rest) => self = Box::into_inner(rest),
            }
        }
    }
}

impl<L: Reference> BoundExpression<L> {
    /// Whether two expressions are equal trees. The kind of a literal counts, and a CASE within ELSE differs from a further branch. The
    /// left operands come last, so that the compiler makes a loop of that call.
    pub fn same(&self, other: &BoundExpression<L>) -> bool
        ensures { result ≡ spec.same_bound_expression L.alike (bound_expression_of L.shown self.now) (bound_expression_of L.shown other.now) }
    {
        match (self, other) {
            (BoundExpression::Reference(l), BoundExpression::Reference(m)) => l.same(m),
            (BoundExpression::Literal(v, kind), BoundExpression::Literal(w, other)) => same(v, w)
                && same_kind(*kind, *other),
            (BoundExpression::Negate(a), BoundExpression::Negate(b)) => a.same(b),
            (BoundExpression::Arithmetic(op, a, b), BoundExpression::Arithmetic(other, c, d)) => {
                *op == *other && (b.same(d) && a.same(c))
            }
            (BoundExpression::Compare(op, a, b), BoundExpression::Compare(other, c, d)) => {
                *op == *other && (b.same(d) && a.same(c))
            }
            (BoundExpression::Not(a), BoundExpression::Not(b)) => a.same(b),
            (BoundExpression::And(a, b), BoundExpression::And(c, d)) => b.same(d) && a.same(c),
            (BoundExpression::Or(a, b), BoundExpression::Or(c, d)) => b.same(d) && a.same(c),
            (BoundExpression::IsNull(a), BoundExpression::IsNull(b)) => a.same(b),
            (BoundExpression::IsNotNull(a), BoundExpression::IsNotNull(b)) => a.same(b),
            (BoundExpression::Case(branch, a, b, c), BoundExpression::Case(other, x, y, z)) => {
                *branch == *other && (a.same(x) && (b.same(y) && c.same(z)))
            }
            _ => false,
        }
    }
}
