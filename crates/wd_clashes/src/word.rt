//! A word in place of an operator that has no equation, at which the profile refuses the query.

ghost use Rattle.std.specs.Prelude.{◌≡◌, IfOk};
ghost use Rattle.wd_clashes.specs.Unlike as spec;
ghost use Rattle.wd_clashes.specs.Unlike.{with_word_from};

use crate::unlike::{Clash, Unlike};
use std::alloc::{AllocError, Global};
use wd_clauses::copy_token;
use wd_lex::{Token, TokenKind};
use wd_value::Text;

/// The word that replaces an operator that is not allowed.
fn word_of(clash: Clash) -> &'static str
    ensures { result.now ≡ spec.word_of clash }
{
    match clash {
        Clash::Product => "decimal_product",
        Clash::Quotient => "decimal_quotient",
        Clash::Units => "unlike_units",
    }
}

/// An equal token, or the word that replaces it.
fn copy_or_word(
    alloc: Global,
    is_there: bool,
    clash: Clash,
    token: &Token,
) -> Result<Token, AllocError>
    ensures { IfOk result (λ found. found ≡ spec.word_or_token is_there clash token.now) }
{
    if is_there {
        let kind = TokenKind::Word(Text::from_str(alloc, word_of(clash))?);
        let span = token.span;
        Ok(Token { kind, span })
    } else {
        copy_token(token)
    }
}

/// Equal tokens, with a word in place of an operator that is not allowed.
#[tactic(auto, unfolding(crate::specs::Unlike::with_word_from))]
pub fn copy_with_word(
    alloc: Global,
    unlike: Unlike,
    tokens: &[Token],
) -> Result<Vec<Token>, AllocError>
    ensures { IfOk result (λ out. out.items ≡ with_word_from 0 unlike tokens.now) }
{
    let mut out = Vec::new(alloc);
    let mut count = 0;
    let mut rest = tokens;
    while let [first, after @ ..] = rest {
        out.push(copy_or_word(alloc, count == unlike.place, unlike.clash, first)?)?;
        count += 1;
        rest = after;
    }
    Ok(out)
}
