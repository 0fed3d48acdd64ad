//! The cast of an operand, as pieces that are written in its place.

ghost use Rattle.std.specs.Prelude.{◌≡◌, ◌∷◌, []};
ghost use Rattle.wd_clauses.specs.Given.{Writes};
ghost use Rattle.wd_casts.specs.Equations as spec;
ghost use Rattle.wd_casts.specs.declared.equation.Piece.{Piece};

use crate::kind::{Kind, holds, is_within};
use crate::known::Known;
use wd_clauses::{RespellError, add, add_all};
use wd_lex::{Span, Terminal, Token, TokenKind};
use wd_value::Text;

/// The microseconds of a day.
const DAY: u64 = 86_400_000_000;

/// The form in which the cast of an operand is written.
#[derive(Clone, Copy)]
pub enum Form {
    /// The operand itself.
    Same,
    /// DATE '..'
    DateText,
    /// TIMESTAMP '..'
    TimestampText,
    /// INTERVAL '..'
    IntervalText,
    /// The day of a moment.
    Day,
    /// The first moment of a day.
    Midnight,
}

/// A piece of what is written in place of a cast.
#[derive(Clone, Copy)]
pub enum Piece {
    Operand,
    Mark(Terminal),
    Number(u64),
    /// The word of a type before a text.
    Word(Kind),
}

/// The form of a text in quotes as a type.
fn text_equation(kind: Kind) -> Option<Form>
    ensures { result ≡ spec.text_equation kind }
{
    match kind {
        Kind::Text => Some(Form::Same),
        Kind::Date => Some(Form::DateText),
        Kind::Timestamp => Some(Form::TimestampText),
        Kind::Interval => Some(Form::IntervalText),
        _ => None,
    }
}

/// The form of a value as another type.
fn value_equation(from: Kind, to: Kind) -> Option<Form>
    ensures { result ≡ spec.value_equation from to }
{
    match (from, to) {
        (Kind::Timestamp, Kind::Date) => Some(Form::Day),
        (Kind::Date, Kind::Timestamp) => Some(Form::Midnight),
        _ => if is_within(from, to) {
            Some(Form::Same)
        } else {
            None
        },
    }
}

/// The form of the cast of an operand, of which this is known.
pub fn equation(known: Known, kind: Kind) -> Option<Form>
    ensures { result ≡ spec.equation known kind }
{
    match known {
        Known::Nothing => None,
        Known::Literal => text_equation(kind),
        Known::Number(number) => if holds(kind, number) {
            Some(Form::Same)
        } else {
            None
        },
        Known::Value(from) => value_equation(from, kind),
    }
}

fn type_word(kind: Kind) -> &'static str
    ensures { result.now ≡ spec.type_word kind }
{
    match kind {
        Kind::Date => "date",
        Kind::Timestamp => "timestamp",
        _ => "interval",
    }
}

/// Adds the tokens of a piece.
fn add_piece(
    written: &mut Vec<Token>,
    at: Span,
    operand: &[Token],
    piece: Piece,
) -> Result<(), RespellError>
    ensures { Writes written.old.items written.new.items result (spec.piece_tokens at operand.now piece) }
{
    let kind = match piece {
        Piece::Operand => return add_all(written, operand),
        Piece::Mark(terminal) => TokenKind::Terminal(terminal),
        Piece::Number(number) => TokenKind::Number(number),
        Piece::Word(kind) => {
            TokenKind::Word(Text::from_str(*written.allocator(), type_word(kind))?)
        }
    };
    add(written, Token { kind, span: at })
}

/// Adds the tokens of pieces.
#[tactic(auto, unfolding(crate::specs::Equations::pieces_tokens))]
fn add_pieces(
    written: &mut Vec<Token>,
    at: Span,
    operand: &[Token],
    pieces: &[Piece],
) -> Result<(), RespellError>
    ensures { Writes written.old.items written.new.items result (spec.pieces_tokens at operand.now pieces.now) }
{
    let mut rest = pieces;
    while let [piece, after @ ..] = rest {
        add_piece(written, at, operand, *piece)?;
        rest = after;
    }
    Ok(())
}

/// Adds the day of a moment, rounded down: `CASE WHEN x < 0 THEN ( x + 1 ) / 86400000000 - 1 ELSE x / 86400000000 END`.
fn add_day(written: &mut Vec<Token>, at: Span, operand: &[Token]) -> Result<(), RespellError>
    ensures { Writes written.old.items written.new.items result (spec.pieces_tokens at operand.now spec.day_pieces) }
{
    let pieces = [
        Piece::Mark(Terminal::Case),
        Piece::Mark(Terminal::When),
        Piece::Operand,
        Piece::Mark(Terminal::Less),
        Piece::Number(0),
        Piece::Mark(Terminal::Then),
        Piece::Mark(Terminal::LeftBracket),
        Piece::Operand,
        Piece::Mark(Terminal::Plus),
        Piece::Number(1),
        Piece::Mark(Terminal::RightBracket),
        Piece::Mark(Terminal::Slash),
        Piece::Number(DAY),
        Piece::Mark(Terminal::Minus),
        Piece::Number(1),
        Piece::Mark(Terminal::Else),
        Piece::Operand,
        Piece::Mark(Terminal::Slash),
        Piece::Number(DAY),
        Piece::Mark(Terminal::End),
    ];
    add_pieces(written, at, operand, &pieces)
}

/// Adds the first moment of a day: `( x * 86400000000 )`.
fn add_midnight(written: &mut Vec<Token>, at: Span, operand: &[Token]) -> Result<(), RespellError>
    ensures { Writes written.old.items written.new.items result (spec.pieces_tokens at operand.now spec.midnight_pieces) }
{
    let pieces = [
        Piece::Mark(Terminal::LeftBracket),
        Piece::Operand,
        Piece::Mark(Terminal::Star),
        Piece::Number(DAY),
        Piece::Mark(Terminal::RightBracket),
    ];
    add_pieces(written, at, operand, &pieces)
}

/// Adds a text with the word of its type before it.
fn add_text(
    written: &mut Vec<Token>,
    at: Span,
    operand: &[Token],
    kind: Kind,
) -> Result<(), RespellError>
    ensures { Writes written.old.items written.new.items result (spec.pieces_tokens at operand.now (Piece.Word kind ∷ Piece.Operand ∷ [])) }
{
    add_pieces(written, at, operand, &[Piece::Word(kind), Piece::Operand])
}

/// Adds the cast of an operand.
pub fn add_form(
    written: &mut Vec<Token>,
    at: Span,
    operand: &[Token],
    form: Form,
) -> Result<(), RespellError>
    ensures { Writes written.old.items written.new.items result (spec.pieces_tokens at operand.now (spec.pieces form)) }
{
    match form {
        Form::Same => add_pieces(written, at, operand, &[Piece::Operand]),
        Form::DateText => add_text(written, at, operand, Kind::Date),
        Form::TimestampText => add_text(written, at, operand, Kind::Timestamp),
        Form::IntervalText => add_text(written, at, operand, Kind::Interval),
        Form::Day => add_day(written, at, operand),
        Form::Midnight => add_midnight(written, at, operand),
    }
}
