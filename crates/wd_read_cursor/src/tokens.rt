//! The first token.

ghost use Rattle.std.specs.Prelude.{◌≡◌, ◌-◌, length};
ghost use Rattle.wd_lex.specs.Lexed.{kinds_of};
ghost use Rattle.wd_read_cursor.specs.Cursor.{is_terminal, eat, expect, eat_word, expect_word, eat_name, name_at, number_at};
ghost use Rattle.wd_read_cursor.specs.Given.{Gives, MayFind, Finds};

use crate::name::Name;
use crate::refusal::Refusal;
use crate::words::KeyWord;
use std::alloc::Global;
use wd_lex::{Terminal, Token, TokenKind};

fn is_terminal(kind: &TokenKind, terminal: Terminal) -> bool
    ensures { result ≡ is_terminal terminal kind.now }
{
    match kind {
        TokenKind::Terminal(found) => *found == terminal,
        _ => false,
    }
}

/// The tokens after a terminal, if they begin with it.
#[tactic(auto, unfolding(crate::specs::Cursor::eat))]
pub fn eat(tokens: &[Token], terminal: Terminal) -> Option<&[Token]>
    ensures { Finds (λ r. kinds_of r.now) result (eat terminal (kinds_of tokens.now)) }
{
    match tokens {
        [first, rest @ ..] => {
            if is_terminal(&first.kind, terminal) {
                Some(rest)
            } else {
                None
            }
        }
        [] => None,
    }
}

/// The refusal of the first token, or of the end of the tokens.
pub fn unexpected_token(tokens: &[Token]) -> Refusal
    ensures { result ≡ Refusal.Unexpected (length (kinds_of tokens.now)) }
{
    Refusal::Unexpected { left: tokens.len() }
}

/// The number of the first of the last `left` tokens.
pub fn token_place(tokens: &[Token], left: usize) -> u64
    ensures { result ≡ length (kinds_of tokens.now) - left }
{
    tokens.len().saturating_sub(left) as u64
}

/// The tokens after a terminal; if they don't begin with it, the first one is refused as unexpected.
#[tactic(auto, unfolding(crate::specs::Cursor::expect))]
pub fn expect(tokens: &[Token], terminal: Terminal) -> Result<&[Token], Refusal>
    ensures { Gives (λ r. kinds_of r.now) result (expect terminal (kinds_of tokens.now)) }
{
    match eat(tokens, terminal) {
        Some(rest) => Ok(rest),
        None => Err(unexpected_token(tokens)),
    }
}

/// The tokens after a key word that is not reserved, if they begin with it.
#[tactic(auto, unfolding(crate::specs::Cursor::eat_word))]
pub fn eat_word(tokens: &[Token], word: KeyWord) -> Option<&[Token]>
    ensures { Finds (λ r. kinds_of r.now) result (eat_word word (kinds_of tokens.now)) }
{
    match tokens {
        [
            Token {
                kind: TokenKind::Word(first),
                ..
            },
            rest @ ..,
        ] => {
            if first.as_str() == word.letters() {
                Some(rest)
            } else {
                None
            }
        }
        _ => None,
    }
}

/// The tokens after a key word that is not reserved; if they don't begin with it, the first one is refused as unexpected.
#[tactic(auto, unfolding(crate::specs::Cursor::expect_word))]
pub fn expect_word(tokens: &[Token], word: KeyWord) -> Result<&[Token], Refusal>
    ensures { Gives (λ r. kinds_of r.now) result (expect_word word (kinds_of tokens.now)) }
{
    match eat_word(tokens, word) {
        Some(rest) => Ok(rest),
        None => Err(unexpected_token(tokens)),
    }
}

/// The first name, quoted or not, and the tokens after it. A reserved word is no name.
#[tactic(auto, unfolding(crate::specs::Cursor::eat_name))]
pub fn eat_name(alloc: Global, tokens: &[Token]) -> Result<Option<(Name, &[Token])>, Refusal>
    ensures { MayFind (λ x. (x.0, kinds_of x.1.now)) result (eat_name (kinds_of tokens.now)) }
{
    match tokens {
        [
            Token {
                kind: TokenKind::Word(text),
                ..
            },
            rest @ ..,
        ] => {
            let text = text.copy()?;
            Ok(Some((
                Name {
                    text,
                    quoted: false,
                },
                rest,
            )))
        }
        [
            Token {
                kind: TokenKind::Quoted(text),
                ..
            },
            rest @ ..,
        ] => {
            let text = text.copy()?;
            Ok(Some((Name { text, quoted: true }, rest)))
        }
        _ => Ok(None),
    }
}

/// The first name and the tokens after it; if they don't begin with a name, the first one is refused as unexpected.
#[tactic(auto, unfolding(crate::specs::Cursor::name_at))]
pub fn name_at(alloc: Global, tokens: &[Token]) -> Result<(Name, &[Token]), Refusal>
    ensures { Gives (λ x. (x.0, kinds_of x.1.now)) result (name_at (kinds_of tokens.now)) }
{
    match eat_name(alloc, tokens)? {
        Some(found) => Ok(found),
        None => Err(unexpected_token(tokens)),
    }
}

/// The first number and the tokens after it; if they don't begin with a number, the first one is refused as unexpected.
#[tactic(auto, unfolding(crate::specs::Cursor::number_at))]
pub fn number_at(tokens: &[Token]) -> Result<(u64, &[Token]), Refusal>
    ensures { Gives (λ x. (x.0, kinds_of x.1.now)) result (number_at (kinds_of tokens.now)) }
{
    match tokens {
        [
            Token {
                kind: TokenKind::Number(number),
                ..
            },
            rest @ ..,
        ] => Ok((*number, rest)),
        _ => Err(unexpected_token(tokens)),
    }
}
