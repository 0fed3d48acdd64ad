//! Tests for NULL.

ghost use Rattle.wd_lex.specs.Lexed.{kinds_of};
ghost use Rattle.wd_syntax.specs.Limits.{most_operators};
ghost use Rattle.wd_syntax.specs.View.{view};
ghost use Rattle.wd_read_expression.specs.Reading.{null_at, tests};
ghost use Rattle.wd_read_cursor.specs.Given.{Gives};

use crate::operator::MAX_OPERATORS;
use crate::tree::tests_of;
use std::alloc::Global;
use wd_lex::{Terminal, Token};
use wd_read_cursor::{Refusal, eat, expect};
use wd_syntax::Expr;

/// `[NOT] NULL`: whether NOT is written.
#[tactic(auto, unfolding(crate::specs::Reading::null_at))]
fn null_at(tokens: &[Token]) -> Result<(bool, &[Token]), Refusal>
    ensures { Gives (λ x. (x.0, kinds_of x.1.now)) result (null_at (kinds_of tokens.now)) }
{
    match eat(tokens, Terminal::Not) {
        Some(rest) => Ok((true, expect(rest, Terminal::Null)?)),
        None => Ok((false, expect(tokens, Terminal::Null)?)),
    }
}

/// The operand and the tests for NULL that follow it.
#[tactic(auto, unfolding(crate::specs::Reading::tests))]
pub fn tests(
    alloc: Global,
    operand: Box<Expr>,
    tokens: &[Token],
) -> Result<(Box<Expr>, &[Token]), Refusal>
    ensures { Gives (λ x. (view x.0.value, kinds_of x.1.now)) result (tests most_operators (view operand.value) (kinds_of tokens.now)) }
{
    let mut items = Vec::new(alloc);
    let mut rest = tokens;
    for _ in 0..MAX_OPERATORS {
        let Some(after) = eat(rest, Terminal::Is) else {
            return Ok((tests_of(alloc, operand, items)?, rest));
        };
        let (not, after) = null_at(after)?;
        items.push(not)?;
        rest = after;
    }
    match eat(rest, Terminal::Is) {
        Some(_) => Err(Refusal::PastLimit { left: rest.len() }),
        None => Ok((tests_of(alloc, operand, items)?, rest)),
    }
}
