//! The names of types.

ghost use Rattle.std.specs.Prelude.{◌≡◌};
ghost use Rattle.wd_clauses.specs.Given.{Finds};
ghost use Rattle.wd_casts.specs.Seen.{found_rest};
ghost use Rattle.wd_casts.specs.Types as spec;

use crate::kind::{Kind, kind_of_word};
use crate::token::is_word;
use wd_lex::{Terminal, Token, TokenKind};
use wd_units::begins_bracket;

/// VARYING, after CHARACTER.
#[tactic(auto, unfolding(crate::specs::Types::varying_at))]
fn varying_at(tokens: &[Token]) -> Option<(Kind, &[Token])>
    ensures { Finds found_rest result (spec.varying_at tokens.now) }
{
    match tokens {
        [first, rest @ ..] => if is_word(&first.kind, "varying") {
            Some((Kind::Text, rest))
        } else {
            None
        },
        [] => None,
    }
}

/// WITH or WITHOUT.
fn is_with(kind: &TokenKind) -> bool
    ensures { result ≡ spec.is_with kind.now }
{
    match kind {
        TokenKind::Terminal(Terminal::With) => true,
        _ => is_word(kind, "without"),
    }
}

/// The tokens after WITH TIME ZONE or WITHOUT TIME ZONE, if they begin with that; else all of them.
#[tactic(auto, unfolding(crate::specs::Types::past_zone))]
fn past_zone(tokens: &[Token]) -> &[Token]
    ensures { result.now ≡ spec.past_zone tokens.now }
{
    match tokens {
        [first, second, third, rest @ ..] => {
            if is_with(&first.kind)
                && is_word(&second.kind, "time")
                && is_word(&third.kind, "zone")
            {
                rest
            } else {
                tokens
            }
        }
        _ => tokens,
    }
}

/// A type whose name is one word.
fn word_at<'t>(kind: &TokenKind, tokens: &'t [Token]) -> Option<(Kind, &'t [Token])>
    ensures { Finds found_rest result (spec.word_at kind.now tokens.now) }
{
    let TokenKind::Word(word) = kind else {
        return None;
    };
    match kind_of_word(word.as_str()) {
        Some(kind) => Some((kind, tokens)),
        None => None,
    }
}

/// A type, of which this is the first word.
#[tactic(auto, unfolding(crate::specs::Types::type_from_word))]
fn type_from_word<'t>(first: &Token, tokens: &'t [Token]) -> Option<(Kind, &'t [Token])>
    ensures { Finds found_rest result (spec.type_from_word first.now tokens.now) }
{
    if is_word(&first.kind, "character") {
        varying_at(tokens)
    } else if is_word(&first.kind, "timestamp") {
        Some((Kind::Timestamp, past_zone(tokens)))
    } else {
        word_at(&first.kind, tokens)
    }
}

/// The type at the start, which must have no length and no number of places, and the tokens after it.
#[tactic(auto, unfolding(crate::specs::Types::type_at))]
pub fn type_at(tokens: &[Token]) -> Option<(Kind, &[Token])>
    ensures { Finds found_rest result (spec.type_at tokens.now) }
{
    let [first, rest @ ..] = tokens else {
        return None;
    };
    let Some((kind, after)) = type_from_word(first, rest) else {
        return None;
    };
    if begins_bracket(after) {
        None
    } else {
        Some((kind, after))
    }
}
