//! Writes tokens one by one, at most 65,536.

ghost use Rattle.std.specs.Prelude.{◌≡◌, ◌∷◌, [], ◌≤◌, length};
ghost use Rattle.wd_moments.specs.Given.{Adds, most_tokens};
ghost use Rattle.wd_moments.specs.Literals.{made, number_token};

use crate::error::MomentError;
use wd_clauses::copy_token;
use wd_lex::{Span, Terminal, Token, TokenKind};

/// The most tokens that are written.
const MOST_TOKENS: usize = 65536;

/// Adds a token, if there are not too many.
fn push(out: &mut Vec<Token>, token: Token) -> Result<(), MomentError>
    requires { length out.old.items ≤ most_tokens }
    ensures { Adds result out.old.items out.new.items (token ∷ []) }
{
    if out.len() >= MOST_TOKENS {
        return Err(MomentError::TooLong);
    }
    out.push(token)?;
    Ok(())
}

/// Adds a reserved word or a symbol.
pub fn push_mark(out: &mut Vec<Token>, at: Span, terminal: Terminal) -> Result<(), MomentError>
    requires { length out.old.items ≤ most_tokens }
    ensures { Adds result out.old.items out.new.items (made terminal at ∷ []) }
{
    let kind = TokenKind::Terminal(terminal);
    push(out, Token { kind, span: at })
}

/// Adds a number.
pub fn push_number(out: &mut Vec<Token>, at: Span, number: u64) -> Result<(), MomentError>
    requires { length out.old.items ≤ most_tokens }
    ensures { Adds result out.old.items out.new.items (number_token number at ∷ []) }
{
    let kind = TokenKind::Number(number);
    push(out, Token { kind, span: at })
}

/// Adds an equal token.
pub fn push_copy(out: &mut Vec<Token>, token: &Token) -> Result<(), MomentError>
    requires { length out.old.items ≤ most_tokens }
    ensures { Adds result out.old.items out.new.items (token.now ∷ []) }
{
    let own = copy_token(token)?;
    push(out, own)
}

/// Adds equal tokens.
pub fn push_copies(out: &mut Vec<Token>, tokens: &[Token]) -> Result<(), MomentError>
    requires { length out.old.items ≤ most_tokens }
    ensures { Adds result out.old.items out.new.items tokens.now }
{
    let mut rest = tokens;
    while let [first, after @ ..] = rest {
        push_copy(out, first)?;
        rest = after;
    }
    Ok(())
}
