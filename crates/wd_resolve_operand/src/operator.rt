//! Operators over operands, and CASE.

ghost use Rattle.std.specs.Prelude.{◌≡◌, Ok, map};
ghost use Rattle.wd_resolve_operand.specs.Causes.{Gives};
ghost use Rattle.wd_resolve_operand.specs.BoundExpressions.{bound_expression_of};
ghost use Rattle.wd_resolve_operand.specs.Operands.{operand_of};
ghost use Rattle.wd_resolve_operand.specs.Operands as spec;

use crate::cause::ResolveError;
use crate::expression::{BoundExpression, Reference};
use crate::operand::TypedOperand;
use std::alloc::Global;
use wd_plan::{ArithmeticOp, Branch, ComparisonOp, ValueKind};
use wd_syntax::{Operator, Sign};

/// A sign over an operand; a plus adds no node.
pub fn sign_operand<L: Reference>(
    alloc: Global,
    sign: Sign,
    operand: TypedOperand<L>,
) -> Result<TypedOperand<L>, ResolveError>
    ensures { Gives (operand_of L.shown) result (spec.signed sign (operand_of L.shown operand)) }
{
    let inner = operand.of_kind(alloc, ValueKind::Number)?;
    match sign {
        Sign::Plus => Ok(TypedOperand::Typed(inner, ValueKind::Number)),
        Sign::Minus => TypedOperand::typed(
            alloc,
            BoundExpression::Negate(inner),
            ValueKind::Number,
        ),
    }
}

pub fn negate<L: Reference>(
    alloc: Global,
    operand: TypedOperand<L>,
) -> Result<TypedOperand<L>, ResolveError>
    ensures { Gives (operand_of L.shown) result (spec.negated (operand_of L.shown operand)) }
{
    let inner = operand.of_kind(alloc, ValueKind::Truth)?;
    TypedOperand::typed(alloc, BoundExpression::Not(inner), ValueKind::Truth)
}

/// A test for NULL: IS NULL, or IS NOT NULL where `not`.
pub fn test_null<L: Reference>(
    alloc: Global,
    not: bool,
    operand: TypedOperand<L>,
) -> Result<TypedOperand<L>, ResolveError>
    ensures { Gives (operand_of L.shown) result (Ok (spec.tested not (operand_of L.shown operand))) }
{
    let inner = Box::new(alloc, operand.settled())?;
    let test = if not {
        BoundExpression::IsNotNull(inner)
    } else {
        BoundExpression::IsNull(inner)
    };
    TypedOperand::typed(alloc, test, ValueKind::Truth)
}

/// The kind of both operands: that of the first that is not a bare NULL.
fn kind_of_both<L: Reference>(left: &TypedOperand<L>, right: &TypedOperand<L>) -> ValueKind
    ensures { result ≡ spec.kind_of_both (operand_of L.shown left.now) (operand_of L.shown right.now) }
{
    match (left, right) {
        (TypedOperand::Typed(_, kind), _) => *kind,
        (TypedOperand::Null, TypedOperand::Typed(_, kind)) => *kind,
        (TypedOperand::Null, TypedOperand::Null) => ValueKind::Text,
    }
}

/// The kind that an operator requires of both operands.
fn operand_kind<L: Reference>(
    operator: Operator,
    left: &TypedOperand<L>,
    right: &TypedOperand<L>,
) -> ValueKind
    ensures { result ≡ spec.operand_kind operator (operand_of L.shown left.now) (operand_of L.shown right.now) }
{
    match operator {
        Operator::Or | Operator::And => ValueKind::Truth,
        Operator::Equal
        | Operator::NotEqual
        | Operator::Less
        | Operator::LessOrEqual
        | Operator::Greater
        | Operator::GreaterOrEqual => kind_of_both(left, right),
        Operator::Add
        | Operator::Subtract
        | Operator::Multiply
        | Operator::Divide
        | Operator::Remainder => ValueKind::Number,
    }
}

/// The kind of an operator's values.
fn result_kind(operator: Operator) -> ValueKind
    ensures { result ≡ spec.result_kind operator }
{
    match operator {
        Operator::Add
        | Operator::Subtract
        | Operator::Multiply
        | Operator::Divide
        | Operator::Remainder => ValueKind::Number,
        Operator::Or
        | Operator::And
        | Operator::Equal
        | Operator::NotEqual
        | Operator::Less
        | Operator::LessOrEqual
        | Operator::Greater
        | Operator::GreaterOrEqual => ValueKind::Truth,
    }
}

/// An operator over two expressions.
fn over_both<L: Reference>(
    operator: Operator,
    a: Box<BoundExpression<L>>,
    b: Box<BoundExpression<L>>,
) -> BoundExpression<L>
    ensures { bound_expression_of L.shown result ≡ spec.over_both operator (bound_expression_of L.shown a.value) (bound_expression_of L.shown b.value) }
{
    match operator {
        Operator::Or => BoundExpression::Or(a, b),
        Operator::And => BoundExpression::And(a, b),
        Operator::Equal => BoundExpression::Compare(ComparisonOp::Equal, a, b),
        Operator::NotEqual => BoundExpression::Compare(ComparisonOp::NotEqual, a, b),
        Operator::Less => BoundExpression::Compare(ComparisonOp::Less, a, b),
        Operator::LessOrEqual => BoundExpression::Compare(ComparisonOp::LessOrEqual, a, b),
        Operator::Greater => BoundExpression::Compare(ComparisonOp::Greater, a, b),
        Operator::GreaterOrEqual => BoundExpression::Compare(ComparisonOp::GreaterOrEqual, a, b),
        Operator::Add => BoundExpression::Arithmetic(ArithmeticOp::Add, a, b),
        Operator::Subtract => BoundExpression::Arithmetic(ArithmeticOp::Subtract, a, b),
        Operator::Multiply => BoundExpression::Arithmetic(ArithmeticOp::Multiply, a, b),
        Operator::Divide => BoundExpression::Arithmetic(ArithmeticOp::Divide, a, b),
        Operator::Remainder => BoundExpression::Arithmetic(ArithmeticOp::Remainder, a, b),
    }
}

/// An operator over two operands of the kind that it requires.
pub fn combine<L: Reference>(
    alloc: Global,
    operator: Operator,
    left: TypedOperand<L>,
    right: TypedOperand<L>,
) -> Result<TypedOperand<L>, ResolveError>
    ensures { Gives (operand_of L.shown) result (spec.combined operator (operand_of L.shown left) (operand_of L.shown right)) }
{
    let kind = operand_kind(operator, &left, &right);
    let left = left.of_kind(alloc, kind)?;
    let right = right.of_kind(alloc, kind)?;
    let both = over_both(operator, left, right);
    TypedOperand::typed(alloc, both, result_kind(operator))
}

/// WHEN .. THEN ..
#[derive(Drop)]
pub struct CaseArm<L> {
    pub when: TypedOperand<L>,
    pub gives: TypedOperand<L>,
}

/// The kind of the results of a CASE: that of the first that is not a bare NULL.
fn case_kind<L: Reference>(arms: &[CaseArm<L>], other: &TypedOperand<L>) -> ValueKind
    ensures { result ≡ spec.case_kind (map (spec.arm_of L.shown) arms.now) (operand_of L.shown other.now) }
{
    for arm in arms {
        if let TypedOperand::Typed(_, kind) = &arm.gives {
            return *kind;
        }
    }
    other.kind()
}

/// Which branch of its CASE comes after these arms.
fn branch_after<L: Reference>(arms: &[CaseArm<L>]) -> Branch
    ensures { result ≡ spec.branch_after Branch.First (map (spec.arm_of L.shown) arms.now) }
{
    if arms.is_empty() {
        Branch::First
    } else {
        Branch::Later
    }
}

/// A condition and a result, followed by the rest of a CASE.
fn arm_over<L: Reference>(
    alloc: Global,
    branch: Branch,
    kind: ValueKind,
    arm: CaseArm<L>,
    rest: Box<BoundExpression<L>>,
) -> Result<Box<BoundExpression<L>>, ResolveError>
    ensures { Gives (λ e. bound_expression_of L.shown e.value) result (spec.arm_over branch kind (spec.arm_of L.shown arm) (Ok (bound_expression_of L.shown rest.value))) }
{
    let CaseArm { when, gives } = arm;
    let when = when.of_kind(alloc, ValueKind::Truth)?;
    let gives = gives.of_kind(alloc, kind)?;
    Ok(Box::new(alloc, BoundExpression::Case(branch, when, gives, rest))?)
}

/// All branches of a CASE, followed by the operand of ELSE.
fn arms_over<L: Reference>(
    alloc: Global,
    kind: ValueKind,
    arms: Vec<CaseArm<L>>,
    rest: Box<BoundExpression<L>>,
) -> Result<Box<BoundExpression<L>>, ResolveError>
    ensures { Gives (λ e. bound_expression_of L.shown e.value) result (spec.arms_over Branch.First kind (map (spec.arm_of L.shown) arms.items) (Ok (bound_expression_of L.shown rest.value))) }
{
    let mut arms = arms;
    let mut rest = rest;
    while let Some(arm) = arms.pop() {
        let branch = branch_after(&arms);
        match arm_over(alloc, branch, kind, arm, rest) {
            Ok(more) => rest = more,
            Err(error) => return Err(error),
        }
    }
    Ok(rest)
}

/// A CASE over its parts: each condition is a truth value, and the results are of one kind.
pub fn case_of<L: Reference>(
    alloc: Global,
    arms: Vec<CaseArm<L>>,
    other: TypedOperand<L>,
) -> Result<TypedOperand<L>, ResolveError>
    ensures { Gives (operand_of L.shown) result (spec.case_of (map (spec.arm_of L.shown) arms.items) (operand_of L.shown other)) }
{
    let kind = case_kind(&arms, &other);
    let rest = other.of_kind(alloc, kind)?;
    let whole = arms_over(alloc, kind, arms, rest)?;
    Ok(TypedOperand::Typed(whole, kind))
}
