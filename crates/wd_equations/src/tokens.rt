//! Single tokens, and what tokens begin with.

ghost use Rattle.std.specs.Prelude.{◌≡◌};
ghost use Rattle.wd_operands.specs.Given.{Finds};
ghost use Rattle.wd_equations.specs.Tokens.{goes_on, is_operator, is_terminal, is_word, past};

use wd_lex::{Terminal, Token, TokenKind};
use wd_operands::is_test_word;

pub fn is_terminal(kind: &TokenKind, terminal: Terminal) -> bool
    ensures { result ≡ is_terminal terminal kind.now }
{
    match kind {
        TokenKind::Terminal(found) => *found == terminal,
        _ => false,
    }
}

/// Whether a token is this word, which is not reserved.
pub fn is_word(kind: &TokenKind, word: &str) -> bool
    ensures { result ≡ is_word word.now kind.now }
{
    match kind {
        TokenKind::Word(text) => text.as_str() == word,
        _ => false,
    }
}

/// The tokens after a terminal, if they begin with it.
#[tactic(auto, unfolding(crate::specs::Tokens::past))]
pub fn past(tokens: &[Token], terminal: Terminal) -> Option<&[Token]>
    ensures { Finds (λ r. r.now) result (past terminal tokens.now) }
{
    match tokens {
        [first, rest @ ..] => {
            if is_terminal(&first.kind, terminal) {
                Some(rest)
            } else {
                None
            }
        }
        [] => None,
    }
}

/// Whether a token continues an operand with an operator that binds no less tightly than IS.
fn is_operator(kind: &TokenKind) -> bool
    ensures { result ≡ is_operator kind.now }
{
    match kind {
        TokenKind::Terminal(
            Terminal::Plus
            | Terminal::Minus
            | Terminal::Star
            | Terminal::Slash
            | Terminal::Percent
            | Terminal::Equals
            | Terminal::NotEquals
            | Terminal::Less
            | Terminal::LessOrEqual
            | Terminal::Greater
            | Terminal::GreaterOrEqual
            | Terminal::Not
            | Terminal::Is
            | Terminal::IsNull
            | Terminal::NotNull,
        ) => true,
        TokenKind::Word(text) => is_test_word(text.as_str()),
        _ => false,
    }
}

/// Whether the tokens continue with such an operator.
#[tactic(auto, unfolding(crate::specs::Tokens::goes_on))]
pub fn goes_on(tokens: &[Token]) -> bool
    ensures { result ≡ goes_on tokens.now }
{
    match tokens {
        [first, ..] => is_operator(&first.kind),
        [] => false,
    }
}
