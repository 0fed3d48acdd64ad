//! Single words, and lists of words.

ghost use Rattle.std.specs.Prelude.{◌≡◌, map};
ghost use Rattle.wd_lex.specs.Lexed.{kinds_of};
ghost use Rattle.wd_read_cursor.specs.Given.{Finds, Gives};
ghost use Rattle.wd_dialect_read.specs.Tokens.{has_word, is_among, table_words, type_words};
ghost use Rattle.wd_dialect_read.specs.Reading.{begins_among, eat_text, expect_text, identifier_at, past_words};

use std::alloc::Global;
use wd_declaration::Identifier;
use wd_lex::{Token, TokenKind};
use wd_read_cursor::{Name, Refusal, name_at, unexpected_token};

/// The tokens after this word, if they begin with it.
#[tactic(auto, unfolding(crate::specs::Reading::eat_text))]
pub fn eat_text<'t>(tokens: &'t [Token], word: &str) -> Option<&'t [Token]>
    ensures { Finds (λ r. kinds_of r.now) result (eat_text word.now (kinds_of tokens.now)) }
{
    match tokens {
        [
            Token {
                kind: TokenKind::Word(first),
                ..
            },
            rest @ ..,
        ] => {
            if first.as_str() == word {
                Some(rest)
            } else {
                None
            }
        }
        _ => None,
    }
}

/// The name at the start, which is required, and the tokens after it.
#[tactic(auto, unfolding(crate::specs::Reading::identifier_at))]
pub fn read_identifier(alloc: Global, tokens: &[Token]) -> Result<(Identifier, &[Token]), Refusal>
    ensures { Gives (λ x. (x.0.text, kinds_of x.1.now)) result (identifier_at (kinds_of tokens.now)) }
{
    let (name, rest) = name_at(alloc, tokens)?;
    let Name { text, quoted: _ } = name;
    match Identifier::new(text) {
        Some(identifier) => Ok((identifier, rest)),
        None => Err(unexpected_token(tokens)),
    }
}

/// The tokens after this word, which is required at the start.
#[tactic(auto, unfolding(crate::specs::Reading::expect_text))]
pub fn expect_text<'t>(tokens: &'t [Token], word: &str) -> Result<&'t [Token], Refusal>
    ensures { Gives (λ r. kinds_of r.now) result (expect_text word.now (kinds_of tokens.now)) }
{
    match eat_text(tokens, word) {
        Some(rest) => Ok(rest),
        None => Err(unexpected_token(tokens)),
    }
}

/// Whether a list has a word.
fn has_word(mut words: &[&[u8]], text: &[u8]) -> bool
    ensures { result ≡ has_word (map (λ word. word.now) words.entry.now) text.now }
{
    while let [word, rest @ ..] = words {
        if *word == text {
            return true;
        }
        words = rest;
    }
    false
}

/// Whether the tokens begin with a word of a list.
#[tactic(auto, unfolding(crate::specs::Reading::begins_among))]
pub fn begins_among(tokens: &[Token], words: &[&[u8]]) -> bool
    ensures { result ≡ begins_among (map (λ word. word.now) words.now) (kinds_of tokens.now) }
{
    match tokens {
        [first, ..] => is_among(words, &first.kind),
        [] => false,
    }
}

/// Whether a token is a word of a list.
fn is_among(words: &[&[u8]], kind: &TokenKind) -> bool
    ensures { result ≡ is_among (map (λ word. word.now) words.now) kind.now }
{
    match kind {
        TokenKind::Word(text) => has_word(words, text.as_bytes()),
        _ => false,
    }
}

/// The tokens after the words of a list at the start.
#[tactic(auto, unfolding(crate::specs::Reading::past_words))]
fn past_words<'t>(tokens: &'t [Token], words: &[&[u8]]) -> &'t [Token]
    ensures { kinds_of result.now ≡ past_words (map (λ word. word.now) words.now) (kinds_of tokens.now) }
{
    let mut rest = tokens;
    while let [first, after @ ..] = rest {
        if !is_among(words, &first.kind) {
            return rest;
        }
        rest = after;
    }
    rest
}

// The further words of the names of types.
const TYPE_WORDS: [&[u8]; 14] = [
    b"precision",
    b"varying",
    b"character",
    b"char",
    b"without",
    b"time",
    b"zone",
    b"year",
    b"month",
    b"day",
    b"hour",
    b"minute",
    b"second",
    b"to",
];

/// The tokens after the further words of a type's name.
pub fn past_type_words(tokens: &[Token]) -> &[Token]
    ensures { kinds_of result.now ≡ past_words type_words (kinds_of tokens.now) }
{
    past_words(tokens, &TYPE_WORDS)
}

// The words between CREATE and TABLE.
const TABLE_WORDS: [&[u8]; 5] = [b"global", b"local", b"temporary", b"temp", b"unlogged"];

/// The tokens after the words between CREATE and TABLE.
pub fn past_table_words(tokens: &[Token]) -> &[Token]
    ensures { kinds_of result.now ≡ past_words table_words (kinds_of tokens.now) }
{
    past_words(tokens, &TABLE_WORDS)
}
