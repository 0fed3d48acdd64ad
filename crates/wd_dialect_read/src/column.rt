//! Columns and their types.

ghost use Rattle.std.specs.Prelude.{◌≡◌};
ghost use Rattle.wd_lex.specs.Lexed.{kinds_of};
ghost use Rattle.wd_read_cursor.specs.Given.{Gives};
ghost use Rattle.wd_dialect_read.specs.Said.{column_said};
ghost use Rattle.wd_dialect_read.specs.Tokens.{with_array};
ghost use Rattle.wd_dialect_read.specs.Reading.{array_at, column_at, modifier_at, numbers_at, past_zone, qualified_at, type_at};

use crate::kind::{ColumnKind, Modifier, kind_named, with_modifier};
use crate::said::SaidColumn;
use crate::tail::read_tail;
use crate::words::{past_type_words, read_identifier};
use std::alloc::Global;
use wd_declaration::Identifier;
use wd_lex::{Terminal, Token};
use wd_read_cursor::{Refusal, eat, expect, number_at};

/// The last of at most three names with dots between them.
#[tactic(auto, unfolding(crate::specs::Reading::qualified_at))]
pub fn read_qualified(alloc: Global, tokens: &[Token]) -> Result<(Identifier, &[Token]), Refusal>
    ensures { Gives (λ x. (x.0.text, kinds_of x.1.now)) result (qualified_at (kinds_of tokens.now)) }
{
    let (first, rest) = read_identifier(alloc, tokens)?;
    let Some(after) = eat(rest, Terminal::Dot) else {
        return Ok((first, rest));
    };
    let (second, rest) = read_identifier(alloc, after)?;
    match eat(rest, Terminal::Dot) {
        Some(after) => read_identifier(alloc, after),
        None => Ok((second, rest)),
    }
}

/// `number [, number] )`
#[tactic(auto, unfolding(crate::specs::Reading::numbers_at))]
fn read_numbers(tokens: &[Token]) -> Result<(Modifier, &[Token]), Refusal>
    ensures { Gives (λ x. (x.0, kinds_of x.1.now)) result (numbers_at (kinds_of tokens.now)) }
{
    let (first, rest) = number_at(tokens)?;
    match eat(rest, Terminal::Comma) {
        Some(rest) => {
            let (second, rest) = number_at(rest)?;
            let rest = expect(rest, Terminal::RightBracket)?;
            Ok((Modifier::Two(first, second), rest))
        }
        None => {
            let rest = expect(rest, Terminal::RightBracket)?;
            Ok((Modifier::One(first), rest))
        }
    }
}

/// What is in brackets after the name of a type.
#[tactic(auto, unfolding(crate::specs::Reading::modifier_at))]
fn read_modifier(tokens: &[Token]) -> Result<(Modifier, &[Token]), Refusal>
    ensures { Gives (λ x. (x.0, kinds_of x.1.now)) result (modifier_at (kinds_of tokens.now)) }
{
    let Some(inside) = eat(tokens, Terminal::LeftBracket) else {
        return Ok((Modifier::Nothing, tokens));
    };
    match eat(inside, Terminal::RightBracket) {
        Some(rest) => Ok((Modifier::Array, rest)),
        None => read_numbers(inside),
    }
}

/// Whether the empty brackets of an array come next, and the tokens after them.
#[tactic(auto, unfolding(crate::specs::Reading::array_at))]
fn read_array(tokens: &[Token]) -> Result<(bool, &[Token]), Refusal>
    ensures { Gives (λ x. (x.0, kinds_of x.1.now)) result (array_at (kinds_of tokens.now)) }
{
    match eat(tokens, Terminal::LeftBracket) {
        Some(rest) => Ok((true, expect(rest, Terminal::RightBracket)?)),
        None => Ok((false, tokens)),
    }
}

/// The tokens after the words that may follow a type's brackets, such as WITH TIME ZONE.
#[tactic(auto, unfolding(crate::specs::Reading::past_zone))]
fn past_zone(tokens: &[Token]) -> &[Token]
    ensures { kinds_of result.now ≡ past_zone (kinds_of tokens.now) }
{
    match eat(tokens, Terminal::With) {
        Some(rest) => past_type_words(rest),
        None => past_type_words(tokens),
    }
}

/// The kind of an array of a kind, or the kind itself.
fn with_array(is_array: bool, kind: ColumnKind) -> ColumnKind
    ensures { result ≡ with_array is_array kind }
{
    if is_array { ColumnKind::Opaque } else { kind }
}

/// A type.
#[tactic(auto, unfolding(crate::specs::Reading::type_at))]
fn read_type(alloc: Global, tokens: &[Token]) -> Result<(ColumnKind, &[Token]), Refusal>
    ensures { Gives (λ x. (x.0, kinds_of x.1.now)) result (type_at (kinds_of tokens.now)) }
{
    let (name, rest) = read_qualified(alloc, tokens)?;
    let (modifier, rest) = read_modifier(past_type_words(rest))?;
    let (is_array, rest) = read_array(past_zone(rest))?;
    let kind = with_modifier(kind_named(name.text.as_bytes()), modifier);
    Ok((with_array(is_array, kind), rest))
}

/// A column.
#[tactic(auto, unfolding(crate::specs::Reading::column_at))]
pub fn read_column(alloc: Global, tokens: &[Token]) -> Result<(SaidColumn, &[Token]), Refusal>
    ensures { Gives (λ x. (column_said x.0, kinds_of x.1.now)) result (column_at (kinds_of tokens.now)) }
{
    let (name, rest) = read_identifier(alloc, tokens)?;
    let (kind, rest) = read_type(alloc, rest)?;
    let (marks, rest) = read_tail(alloc, rest)?;
    Ok((SaidColumn { name, kind, marks }, rest))
}
