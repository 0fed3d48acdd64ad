//! Copies of expressions, and when two are equal.

ghost use Rattle.std.specs.Prelude.{◌≡◌, IfOk};
ghost use Rattle.wd_plan.specs.Equality as spec;
ghost use Rattle.wd_plan.specs.Expressions.{expression_of};
ghost use Rattle.wd_plan.specs.Fits as fits;

use crate::copy::copy_expression;
use crate::expression::{Expr, ValueKind};
use std::alloc::Global;
use wd_value::{OutOfMemory, same};

impl Expr {
    /// An equal expression with boxes of its own.
    pub fn copy(&self, alloc: Global) -> Result<Expr, OutOfMemory>
        ensures { IfOk result (λ e. expression_of e ≡ expression_of self.now) }
    {
        copy_expression(alloc, self)
    }

    /// Whether two expressions are equal trees. The kind of a literal counts, and a CASE within ELSE differs from a further branch. The
    /// left operands come last, so that the compiler makes a loop of that call.
    pub fn same(&self, other: &Expr) -> bool
        ensures { result ≡ spec.same_expression (expression_of self.now) (expression_of other.now) }
    {
        match (self, other) {
            (Expr::Column(c), Expr::Column(d)) => *c == *d,
            (Expr::Literal(v, kind), Expr::Literal(w, other)) => same(v, w)
                && same_kind(*kind, *other),
            (Expr::Negate(a), Expr::Negate(b)) => a.same(b),
            (Expr::Arithmetic(op, a, b), Expr::Arithmetic(other, c, d)) => {
                *op == *other && (b.same(d) && a.same(c))
            }
            (Expr::Compare(op, a, b), Expr::Compare(other, c, d)) => {
                *op == *other && (b.same(d) && a.same(c))
            }
            (Expr::Not(a), Expr::Not(b)) => a.same(b),
            (Expr::And(a, b), Expr::And(c, d)) => b.same(d) && a.same(c),
            (Expr::Or(a, b), Expr::Or(c, d)) => b.same(d) && a.same(c),
            (Expr::IsNull(a), Expr::IsNull(b)) => a.same(b),
            (Expr::IsNotNull(a), Expr::IsNotNull(b)) => a.same(b),
            (Expr::Case(branch, a, b, c), Expr::Case(other, x, y, z)) => {
                *branch == *other && (a.same(x) && (b.same(y) && c.same(z)))
            }
            _ => false,
        }
    }
}

/// Whether two kinds are one.
pub fn same_kind(a: ValueKind, b: ValueKind) -> bool
    ensures { result ≡ fits.same_kind a b }
{
    match (a, b) {
        (ValueKind::Number, ValueKind::Number) => true,
        (ValueKind::Text, ValueKind::Text) => true,
        (ValueKind::Truth, ValueKind::Truth) => true,
        _ => false,
    }
}
