//! The operators and functions that words name.

use crate::words::Word;
use wd_plan::{
    Aggregate, ArithmeticOp, ComparisonOp, Direction, Expr, FrameFunction, FrameRow, Function,
    Ranking, Shift,
};
use wd_value::Value;

/// An operator on two expressions.
#[derive(Clone, Copy)]
pub enum Binary {
    Arithmetic(ArithmeticOp),
    Comparison(ComparisonOp),
    And,
    Or,
}

const BINARY: [(&str, Binary); 13] = [
    ("+", Binary::Arithmetic(ArithmeticOp::Add)),
    ("-", Binary::Arithmetic(ArithmeticOp::Subtract)),
    ("*", Binary::Arithmetic(ArithmeticOp::Multiply)),
    ("/", Binary::Arithmetic(ArithmeticOp::Divide)),
    ("%", Binary::Arithmetic(ArithmeticOp::Remainder)),
    ("=", Binary::Comparison(ComparisonOp::Equal)),
    ("<>", Binary::Comparison(ComparisonOp::NotEqual)),
    ("<", Binary::Comparison(ComparisonOp::Less)),
    ("<=", Binary::Comparison(ComparisonOp::LessOrEqual)),
    (">", Binary::Comparison(ComparisonOp::Greater)),
    (">=", Binary::Comparison(ComparisonOp::GreaterOrEqual)),
    ("and", Binary::And),
    ("or", Binary::Or),
];

/// The operator that a word names.
pub fn operator_of(word: &str) -> Option<Binary> {
    let (_, operator) = BINARY.iter().find(|named| named.0 == word)?;
    Some(*operator)
}

impl Binary {
    pub fn over(self, left: Box<Expr>, right: Box<Expr>) -> Expr {
        match self {
            Binary::Arithmetic(op) => Expr::Arithmetic(op, left, right),
            Binary::Comparison(op) => Expr::Compare(op, left, right),
            Binary::And => Expr::And(left, right),
            Binary::Or => Expr::Or(left, right),
        }
    }
}

/// The function of a word such as `rank`, `ntile(2)`, `nth_value(c1,2)` or `count(*)`.
pub fn function(word: Word) -> Option<Function> {
    let ranking = match word.name {
        "row_number" => Ranking::RowNumber,
        "rank" => Ranking::Rank,
        "dense_rank" => Ranking::DenseRank,
        "ntile" => Ranking::Ntile(word.number(0)?),
        _ => return Some(Function::OfFrame(frame_function(word)?)),
    };
    Some(Function::Ranking(ranking))
}

fn frame_function(word: Word) -> Option<FrameFunction> {
    if word.name == "count" && word.arguments == "*" {
        return Some(FrameFunction::Aggregate(Aggregate::CountRows));
    }
    let column = word.column(0)?;
    let row = match word.name {
        "first_value" => FrameRow::First,
        "last_value" => FrameRow::Last,
        "nth_value" => FrameRow::Nth(word.number(1)?),
        name => return Some(FrameFunction::Aggregate(aggregate(name, column)?)),
    };
    Some(FrameFunction::ValueAt(row, column))
}

fn aggregate(name: &str, column: u16) -> Option<Aggregate> {
    match name {
        "count" => Some(Aggregate::Count(column)),
        "sum" => Some(Aggregate::Sum(column)),
        "min" => Some(Aggregate::Min(column)),
        "max" => Some(Aggregate::Max(column)),
        _ => None,
    }
}

/// The aggregate that a function is, if it is one.
pub fn aggregate_of(function: &Function) -> Option<Aggregate> {
    match function {
        Function::OfFrame(FrameFunction::Aggregate(aggregate)) => Some(*aggregate),
        _ => None,
    }
}

/// The function of a word such as `lag(c0,1,null)`, whose default is given.
pub fn neighbour(word: Word, default: Value) -> Option<Function> {
    let direction = match word.name {
        "lag" => Direction::Lag,
        "lead" => Direction::Lead,
        _ => return None,
    };
    Some(Function::Shift(Shift {
        direction,
        argument: word.column(0)?,
        offset: word.number(1)?,
        default,
    }))
}
