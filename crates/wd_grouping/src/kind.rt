//! Single tokens.

ghost use Rattle.std.specs.Prelude.{◌≡◌};
ghost use Rattle.wd_distinct_on.specs.Kinds as kinds;
ghost use Rattle.wd_grouping.specs.Kinds as spec;

use wd_distinct_on::is_direction;
use wd_lex::{Terminal, TokenKind};

pub fn is_group(kind: &TokenKind) -> bool
    ensures { result ≡ spec.is_group kind.now }
{
    matches!(kind, TokenKind::Terminal(Terminal::Group))
}

pub fn is_over(kind: &TokenKind) -> bool
    ensures { result ≡ spec.is_over kind.now }
{
    matches!(kind, TokenKind::Terminal(Terminal::Over))
}

/// The number that a token is, if it is one.
pub fn number_of(kind: &TokenKind) -> Option<u64>
    ensures { result ≡ spec.number_of kind.now }
{
    match kind {
        TokenKind::Number(number) => Some(*number),
        _ => None,
    }
}

/// Whether a token is a bracket or a plus sign.
pub fn is_plain(kind: &TokenKind) -> bool
    ensures { result ≡ spec.is_plain kind.now }
{
    matches!(
        kind,
        TokenKind::Terminal(Terminal::LeftBracket | Terminal::Plus)
    )
}

/// Whether a token is ROLLUP, CUBE or GROUPING.
pub fn begins_sets(kind: &TokenKind) -> bool
    ensures { result ≡ spec.begins_sets kind.now }
{
    match kind {
        TokenKind::Word(text) => {
            text.as_bytes() == b"rollup".as_slice()
                || text.as_bytes() == b"cube".as_slice()
                || text.as_bytes() == b"grouping".as_slice()
        }
        _ => false,
    }
}

/// Whether a separate operand begins after this token.
pub fn begins_operand(kind: &TokenKind) -> bool
    ensures { result ≡ spec.begins_operand kind.now }
{
    matches!(
        kind,
        TokenKind::Terminal(
            Terminal::Select
                | Terminal::LeftBracket
                | Terminal::Comma
                | Terminal::By
                | Terminal::Case
                | Terminal::When
                | Terminal::Then
                | Terminal::Else
        )
    )
}

/// Whether a token is a bracket, a comma, AS, or a word of CASE, of a frame or of a later clause.
fn stops_operand(kind: &TokenKind) -> bool
    ensures { result ≡ spec.stops_operand kind.now }
{
    matches!(
        kind,
        TokenKind::Terminal(
            Terminal::RightBracket
                | Terminal::Semicolon
                | Terminal::Comma
                | Terminal::As
                | Terminal::When
                | Terminal::Then
                | Terminal::Else
                | Terminal::End
                | Terminal::Rows
                | Terminal::Range
                | Terminal::Groups
                | Terminal::Having
                | Terminal::Window
                | Terminal::Order
                | Terminal::Limit
                | Terminal::Offset
                | Terminal::Fetch
        )
    )
}

/// Whether a separate operand ends before this token.
pub fn ends_operand(kind: &TokenKind) -> bool
    ensures { result ≡ spec.ends_operand kind.now }
{
    stops_operand(kind) || is_direction(kind)
}
