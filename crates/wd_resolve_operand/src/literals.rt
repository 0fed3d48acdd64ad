//! Literals, and signs directly before numbers.

ghost use Rattle.wd_resolve_operand.specs.Causes.{Gives};
ghost use Rattle.wd_resolve_operand.specs.Operands.{operand_of};
ghost use Rattle.wd_resolve_operand.specs.Operands as spec;

use crate::cause::{Cause, ResolveError};
use crate::expression::{BoundExpression, Reference};
use crate::operand::TypedOperand;
use std::alloc::Global;
use wd_plan::ValueKind;
use wd_syntax::{Literal, Sign};
use wd_value::Value;

/// The greatest number of 64 bits.
const GREATEST: u64 = i64::MAX as u64;

/// The size of the least number of 64 bits, 2^63.
const DEEPEST: u64 = 9223372036854775808;

/// The number, if it is at most 9223372036854775807; else 404.
pub fn number(n: u64) -> Result<u64, ResolveError>
    ensures { Gives (λ m. m) result (spec.number n) }
{
    if n <= GREATEST {
        Ok(n)
    } else {
        Err(ResolveError::Refused(Cause::Types))
    }
}

fn number_literal<L: Reference>(alloc: Global, n: u64) -> Result<TypedOperand<L>, ResolveError>
    ensures { Gives (operand_of L.shown) result (spec.unsigned_number n) }
{
    let value = Value::Int(number(n)? as i64);
    TypedOperand::typed(
        alloc,
        BoundExpression::Literal(value, ValueKind::Number),
        ValueKind::Number,
    )
}

/// A literal; a bare NULL has no kind of its own.
pub fn literal<L: Reference>(
    alloc: Global,
    literal: &Literal,
) -> Result<TypedOperand<L>, ResolveError>
    ensures { Gives (operand_of L.shown) result (spec.literal literal.now) }
{
    match literal {
        Literal::Number(n) => number_literal(alloc, *n),
        Literal::Text(text) => {
            let value = Value::Text(text.copy()?);
            TypedOperand::typed(
                alloc,
                BoundExpression::Literal(value, ValueKind::Text),
                ValueKind::Text,
            )
        }
        Literal::Truth(truth) => {
            let value = Value::Bool(*truth);
            TypedOperand::typed(
                alloc,
                BoundExpression::Literal(value, ValueKind::Truth),
                ValueKind::Truth,
            )
        }
        Literal::Null => Ok(TypedOperand::Null),
    }
}

/// A number with a sign directly before it; 9223372036854775808 is allowed only after a minus.
pub fn signed_number<L: Reference>(
    alloc: Global,
    sign: Sign,
    n: u64,
) -> Result<TypedOperand<L>, ResolveError>
    ensures { Gives (operand_of L.shown) result (spec.signed_number sign n) }
{
    match sign {
        Sign::Plus => number_literal(alloc, n),
        Sign::Minus => if n < DEEPEST {
            int_literal(alloc, -(n as i64))
        } else if n == DEEPEST {
            int_literal(alloc, i64::MIN)
        } else {
            Err(ResolveError::Refused(Cause::Types))
        },
    }
}

fn int_literal<L: Reference>(alloc: Global, n: i64) -> Result<TypedOperand<L>, ResolveError>
    ensures { Gives (operand_of L.shown) result (spec.int_literal n) }
{
    let literal = BoundExpression::Literal(Value::Int(n), ValueKind::Number);
    TypedOperand::typed(alloc, literal, ValueKind::Number)
}
