//! How trees of literals and operators are made from what the references of an expression become.

ghost use Rattle.std.specs.Prelude.{◌≡◌};
ghost use Rattle.wd_resolve_operand.specs.Causes.{Gives, Meant};
ghost use Rattle.wd_resolve_operand.specs.Mappings.{Making};

use crate::cause::ResolveError;
use std::alloc::Global;
use wd_plan::{ArithmeticOp, Branch, ComparisonOp, ValueKind};
use wd_value::Value;

/// An operator over one operand.
#[derive(Clone, Copy)]
pub(crate) enum Unary {
    Negate,
    Not,
    IsNull,
    IsNotNull,
}

/// An operator between two operands.
#[derive(Clone, Copy)]
pub(crate) enum Binary {
    Arithmetic(ArithmeticOp),
    Compare(ComparisonOp),
    And,
    Or,
}

/// Makes a tree of what references become, of literals and of operators.
pub(crate) trait Maker {
    type From: Drop;

    type To: Drop;

    ghost Read: { Type 0 };

    ghost read: { Self.From → Read };

    ghost Shown: { Type 0 };

    ghost shown: { Self.To → Shown };

    ghost making: { Making Shown };

    ghost meaning: { Self → Read → Meant Shown };

    /// The tree in place of a reference.
    fn reference(&self, alloc: Global, reference: &Self::From) -> Result<Self::To, ResolveError>
        ensures { Gives shown result (meaning self.now (read reference.now)) };

    fn literal(value: Value, kind: ValueKind) -> Self::To
        ensures { shown result ≡ making.literal value kind };

    fn under(operator: Unary, a: Box<Self::To>) -> Self::To
        ensures { shown result ≡ making.under operator (shown a.value) };

    fn between(operator: Binary, a: Box<Self::To>, b: Box<Self::To>) -> Self::To
        ensures { shown result ≡ making.between operator (shown a.value) (shown b.value) };

    /// A branch of a CASE: its condition, its result, and the rest.
    fn branch(branch: Branch, a: Box<Self::To>, b: Box<Self::To>, c: Box<Self::To>) -> Self::To
        ensures { shown result ≡ making.branch branch (shown a.value) (shown b.value) (shown c.value) };
}
