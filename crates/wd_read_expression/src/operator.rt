//! Operators and signs.

ghost use Rattle.std.specs.Prelude.{◌≡◌, ◌-◌};
ghost use Rattle.wd_lex.specs.Lexed.{kinds_of};
ghost use Rattle.wd_read_cursor.specs.Given.{Finds};
ghost use Rattle.wd_syntax.specs.Tokens as spec;
ghost use Rattle.wd_read_expression.specs.Reading.{operator_of, operator_at, sign_at};

use wd_lex::{Terminal, Token, TokenKind};
use wd_syntax::{Height, Operator, Sign};

/// The most operators of one chain.
pub const MAX_OPERATORS: u32 = 200;

fn operator_of(terminal: Terminal) -> Option<Operator>
    ensures { result ≡ operator_of terminal }
{
    match terminal {
        Terminal::Or => Some(Operator::Or),
        Terminal::And => Some(Operator::And),
        Terminal::Equals => Some(Operator::Equal),
        Terminal::NotEquals => Some(Operator::NotEqual),
        Terminal::Less => Some(Operator::Less),
        Terminal::LessOrEqual => Some(Operator::LessOrEqual),
        Terminal::Greater => Some(Operator::Greater),
        Terminal::GreaterOrEqual => Some(Operator::GreaterOrEqual),
        Terminal::Plus => Some(Operator::Add),
        Terminal::Minus => Some(Operator::Subtract),
        Terminal::Star => Some(Operator::Multiply),
        Terminal::Slash => Some(Operator::Divide),
        Terminal::Percent => Some(Operator::Remainder),
        _ => None,
    }
}

/// How loosely an operator binds.
fn binding(operator: Operator) -> Height
    ensures { result ≡ spec.binding operator }
{
    match operator {
        Operator::Or => Height::Disjunction,
        Operator::And => Height::Conjunction,
        Operator::Equal
        | Operator::NotEqual
        | Operator::Less
        | Operator::LessOrEqual
        | Operator::Greater
        | Operator::GreaterOrEqual => Height::Comparison,
        Operator::Add | Operator::Subtract => Height::Sum,
        Operator::Multiply | Operator::Divide | Operator::Remainder => Height::Product,
    }
}

/// The height as a number; tighter is lower.
fn rank(height: Height) -> u8
    ensures { result ≡ spec.rank height }
{
    match height {
        Height::Primary => 0,
        Height::Sign => 1,
        Height::Product => 2,
        Height::Sum => 3,
        Height::Comparison => 4,
        Height::Test => 5,
        Height::Negation => 6,
        Height::Conjunction => 7,
        Height::Disjunction => 8,
    }
}

/// The next tighter height; a primary expression's own.
pub fn tighter(height: Height) -> Height
    ensures { spec.rank result ≡ spec.rank height - 1 }
{
    match height {
        Height::Primary | Height::Sign => Height::Primary,
        Height::Product => Height::Sign,
        Height::Sum => Height::Product,
        Height::Comparison => Height::Sum,
        Height::Test => Height::Comparison,
        Height::Negation => Height::Test,
        Height::Conjunction => Height::Negation,
        Height::Disjunction => Height::Conjunction,
    }
}

/// An operator of that height, if the tokens begin with one.
#[tactic(auto, unfolding(crate::specs::Reading::operator_at))]
pub fn operator_at(tokens: &[Token], height: Height) -> Option<(Operator, &[Token])>
    ensures { Finds (λ x. (x.0, kinds_of x.1.now)) result (operator_at (spec.rank height) (kinds_of tokens.now)) }
{
    match tokens {
        [
            Token {
                kind: TokenKind::Terminal(first),
                ..
            },
            rest @ ..,
        ] => match operator_of(*first) {
            Some(operator) => {
                if rank(binding(operator)) == rank(height) {
                    Some((operator, rest))
                } else {
                    None
                }
            }
            None => None,
        },
        _ => None,
    }
}

/// A sign, if the tokens begin with one, and the tokens after it.
#[tactic(auto, unfolding(crate::specs::Reading::sign_at))]
pub fn sign_at(tokens: &[Token]) -> Option<(Sign, &[Token])>
    ensures { Finds (λ x. (x.0, kinds_of x.1.now)) result (sign_at (kinds_of tokens.now)) }
{
    match tokens {
        [
            Token {
                kind: TokenKind::Terminal(Terminal::Plus),
                ..
            },
            rest @ ..,
        ] => Some((Sign::Plus, rest)),
        [
            Token {
                kind: TokenKind::Terminal(Terminal::Minus),
                ..
            },
            rest @ ..,
        ] => Some((Sign::Minus, rest)),
        _ => None,
    }
}
