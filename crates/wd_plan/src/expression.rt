use wd_value::Value;

/// The kind of an expression's values. Whole numbers of all widths are one kind.
#[derive(Clone, Copy, PartialEq, Eq, Debug)]
pub enum ValueKind {
    Number,
    Text,
    Truth,
}

/// An operation on two whole numbers.
#[derive(Clone, Copy, PartialEq, Eq, Debug)]
pub enum ArithmeticOp {
    Add,
    Subtract,
    Multiply,
    Divide,
    Remainder,
}

/// A comparison of two values of one kind.
#[derive(Clone, Copy, PartialEq, Eq, Debug)]
pub enum ComparisonOp {
    Equal,
    NotEqual,
    Less,
    LessOrEqual,
    Greater,
    GreaterOrEqual,
}

/// Which branch of a CASE this is. The value does not depend on it, but a further branch and a CASE within ELSE are different
/// expressions.
#[derive(Clone, Copy, PartialEq, Eq, Debug)]
pub enum Branch {
    First,
    Later,
}

/// A scalar expression over the columns of a row, which are numbered from 0.
#[derive(Debug)]
pub enum Expr {
    Column(u16),
    /// A literal, NULL too, with its kind.
    Literal(Value, ValueKind),
    Negate(Box<Expr>),
    Arithmetic(ArithmeticOp, Box<Expr>, Box<Expr>),
    Compare(ComparisonOp, Box<Expr>, Box<Expr>),
    Not(Box<Expr>),
    And(Box<Expr>, Box<Expr>),
    Or(Box<Expr>, Box<Expr>),
    IsNull(Box<Expr>),
    IsNotNull(Box<Expr>),
    /// A branch of a CASE: its condition, its result, and the rest, which is the next branch or the operand of ELSE.
    Case(Branch, Box<Expr>, Box<Expr>, Box<Expr>),
}

/// Drops the left side and the branches of a CASE by a loop: a chain of operators is as deep as it is long.
impl Drop for Expr {
    fn drop(mut self) {
        loop {
            match self {
                Expr::Column(_) => return,
                Expr::Literal(_, _) => return,
                Expr::Negate(a) => self = Box::into_inner(a),
                Expr::Arithmetic(_, a, _) => self = Box::into_inner(a),
                Expr::Compare(_, a, _) => self = Box::into_inner(a),
                Expr::Not(a) => self = Box::into_inner(a),
                Expr::And(a, _) => self = Box::into_inner(a),
                Expr::Or(a, _) => self = Box::into_inner(a),
                Expr::IsNull(a) => self = Box::into_inner(a),
                Expr::IsNotNull(a) => self = Box::into_inner(a),
                Expr::Case(_, _, _, rest) => self = Box::into_inner(rest),
            }
        }
    }
}
