//! An equation that applies at the start of tokens, and its parts.

ghost use Rattle.std.specs.Prelude.{◌≡◌};
ghost use Rattle.wd_equations.specs.Places.{after, after_not};

use crate::equation::Form;
use wd_lex::{Span, Terminal, Token, TokenKind};

/// What is known of a place by what comes before it.
#[derive(Clone, Copy)]
pub enum Before {
    /// An operand that begins here is the whole left side of a test.
    Open,
    /// A comparison comes before it, which binds less tightly than BETWEEN and IN, and more tightly than IS.
    Compared,
    /// The place is within an operand, or after something that is not an operator.
    Inside,
}

/// An equation, and the tokens after what it replaces.
#[derive(Drop)]
pub struct Found<'t> {
    pub form: Form,
    /// Whether it has NOT.
    pub is_not: bool,
    /// The place of the word that the equation is about.
    pub at: Span,
    pub parts: Vec<&'t [Token]>,
    pub rest: &'t [Token],
}

/// What is known of the place after a token.
pub fn after(before: Before, kind: &TokenKind) -> Before
    ensures { result ≡ after before kind.now }
{
    match kind {
        TokenKind::Terminal(
            Terminal::LeftBracket
            | Terminal::Comma
            | Terminal::And
            | Terminal::Or
            | Terminal::When
            | Terminal::Then
            | Terminal::Else
            | Terminal::Where
            | Terminal::On
            | Terminal::Having
            | Terminal::Select
            | Terminal::Distinct
            | Terminal::By,
        ) => Before::Open,
        TokenKind::Terminal(
            Terminal::Equals
            | Terminal::NotEquals
            | Terminal::Less
            | Terminal::LessOrEqual
            | Terminal::Greater
            | Terminal::GreaterOrEqual,
        ) => Before::Compared,
        TokenKind::Terminal(Terminal::Not) => after_not(before),
        _ => Before::Inside,
    }
}

/// What is known after a NOT: it comes before what it negates, or is part of a test.
fn after_not(before: Before) -> Before
    ensures { result ≡ after_not before }
{
    match before {
        Before::Open => Before::Open,
        Before::Compared | Before::Inside => Before::Inside,
    }
}
