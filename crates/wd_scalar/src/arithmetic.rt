//! Operations on whole numbers of 64 bits.

ghost use Rattle.std.specs.Prelude.{◌≡◌, ℤ, neg_ℤ, ◌+ℤ◌, int_div, int_rem};
ghost use Rattle.wd_plan.specs.Expressions as spec;
ghost use Rattle.wd_plan.specs.Faults.{and_then};
ghost use Rattle.wd_scalar.specs.Numbers.{number_or_fault};

use wd_plan::ArithmeticOp;
use wd_value::{Fault, Value};

/// The value of an operation, where the left operand has a value. It is NULL where either operand is NULL.
pub(crate) fn arithmetic_result(
    op: ArithmeticOp,
    left: &Value,
    right: Result<Value, Fault>,
) -> Result<Value, Fault>
    ensures { result ≡ and_then right (λ w. spec.arithmetic_value op left.now w) }
{
    match (left, right?) {
        (Value::Int(m), Value::Int(n)) => arithmetic(op, *m, n),
        _ => Ok(Value::Null),
    }
}

fn arithmetic(op: ArithmeticOp, m: i64, n: i64) -> Result<Value, Fault>
    ensures { result ≡ spec.arithmetic op m n }
{
    match op {
        ArithmeticOp::Add => in_range(m.checked_add(n)),
        ArithmeticOp::Subtract => in_range(m.checked_sub(n)),
        ArithmeticOp::Multiply => in_range(m.checked_mul(n)),
        ArithmeticOp::Divide => quotient(m, n),
        ArithmeticOp::Remainder => remainder(m, n),
    }
}

/// The quotient, truncated toward zero.
fn quotient(m: i64, n: i64) -> Result<Value, Fault>
    ensures { result ≡ spec.unless_zero n (spec.in_64 (int_div m n)) }
{
    if n == 0 {
        Err(Fault::DivisionByZero)
    } else {
        in_range(m.checked_div(n))
    }
}

/// The remainder, with the dividend's sign; 0 for each dividend where the divisor is -1.
fn remainder(m: i64, n: i64) -> Result<Value, Fault>
    ensures { result ≡ spec.unless_zero n (spec.in_64 (int_rem m n)) }
{
    if n == 0 {
        Err(Fault::DivisionByZero)
    } else if n == -1 {
        Ok(Value::Int(0))
    } else {
        Ok(Value::Int(m % n))
    }
}

/// The number with its sign changed.
pub(crate) fn negate(value: &Value) -> Result<Value, Fault>
    ensures { result ≡ spec.negated value.now }
{
    match value {
        Value::Int(i64::MIN) => Err(Fault::OutOfRange),
        Value::Int(n) => Ok(Value::Int(-*n)),
        _ => Ok(Value::Null),
    }
}

/// The number, or the fault of a result that 64 bits don't hold.
fn in_range(number: Option<i64>) -> Result<Value, Fault>
    ensures { result ≡ number_or_fault number }
{
    number.map(Value::Int).ok_or(Fault::OutOfRange)
}
