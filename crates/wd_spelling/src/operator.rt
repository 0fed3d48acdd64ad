//! The words of operators, and how closely they bind.

ghost use Rattle.std.specs.Prelude.{◌≡◌, ◌≤◌};
ghost use Rattle.wd_plan.specs.Expressions.{expression_of};
ghost use Rattle.wd_spelling.specs.Spelling as spec;

use wd_plan::{ArithmeticOp, Branch, ComparisonOp, Expr};
use wd_value::Value;

/// An operation's sign, between blanks.
pub(crate) fn arithmetic_word(op: ArithmeticOp) -> &'static str
    ensures { result.now ≡ spec.arithmetic_word op }
{
    match op {
        ArithmeticOp::Add => " + ",
        ArithmeticOp::Subtract => " - ",
        ArithmeticOp::Multiply => " * ",
        ArithmeticOp::Divide => " / ",
        ArithmeticOp::Remainder => " % ",
    }
}

/// A comparison's sign, between blanks.
pub(crate) fn comparison_word(op: ComparisonOp) -> &'static str
    ensures { result.now ≡ spec.comparison_word op }
{
    match op {
        ComparisonOp::Equal => " = ",
        ComparisonOp::NotEqual => " <> ",
        ComparisonOp::Less => " < ",
        ComparisonOp::LessOrEqual => " <= ",
        ComparisonOp::Greater => " > ",
        ComparisonOp::GreaterOrEqual => " >= ",
    }
}

/// How closely an operation binds.
pub(crate) fn arithmetic_level(op: ArithmeticOp) -> u8
    ensures value { result ≡ spec.arithmetic_level op }
    ensures small { result ≤ 6 }
{
    match op {
        ArithmeticOp::Add | ArithmeticOp::Subtract => 5,
        ArithmeticOp::Multiply | ArithmeticOp::Divide | ArithmeticOp::Remainder => 6,
    }
}

/// How closely an expression's operator binds; 8 where it needs no brackets.
pub(crate) fn level(expression: &Expr) -> u8
    ensures { result ≡ spec.level (expression_of expression.now) }
{
    match expression {
        Expr::Column(_) | Expr::Case(_, _, _, _) => 8,
        Expr::Literal(value, _) => literal_level(value),
        Expr::Negate(_) => 7,
        Expr::Arithmetic(op, _, _) => arithmetic_level(*op),
        Expr::Compare(_, _, _) | Expr::IsNull(_) | Expr::IsNotNull(_) => 4,
        Expr::Not(_) => 3,
        Expr::And(_, _) => 2,
        Expr::Or(_, _) => 1,
    }
}

/// How closely a literal binds: a number below zero begins with a sign.
fn literal_level(value: &Value) -> u8
    ensures { result ≡ spec.literal_level value.now }
{
    match value {
        Value::Int(number) => if *number < 0 { 7 } else { 8 },
        Value::Null | Value::Text(_) | Value::Bool(_) => 8,
    }
}

/// What begins a branch of a CASE.
pub(crate) fn branch_word(branch: Branch) -> &'static str
    ensures { result.now ≡ spec.branch_word branch }
{
    match branch {
        Branch::First => "CASE WHEN ",
        Branch::Later => " WHEN ",
    }
}

/// The words between a branch of a CASE and the rest.
pub(crate) fn else_word(rest: &Expr) -> &'static str
    ensures { result.now ≡ spec.else_word (expression_of rest.now) }
{
    match rest {
        Expr::Case(Branch::Later, _, _, _) => "",
        _ => " ELSE ",
    }
}

/// The words after the rest of a CASE.
pub(crate) fn end_word(rest: &Expr) -> &'static str
    ensures { result.now ≡ spec.end_word (expression_of rest.now) }
{
    match rest {
        Expr::Case(Branch::Later, _, _, _) => "",
        _ => " END",
    }
}
