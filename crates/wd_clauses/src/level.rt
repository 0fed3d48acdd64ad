//! How far the parts of a query reach.

ghost use Rattle.std.specs.Prelude.{◌≡◌, ◌+◌, ◌<◌, ◌≤◌, ◌^◌, length, take, drop, IfSome};
ghost use Rattle.wd_clauses.specs.Reach as spec;

use wd_lex::{Terminal, Token, TokenKind};

/// What ends a part of a query, apart from the end of its level.
#[derive(Clone, Copy)]
pub enum Stop {
    /// A comma.
    Comma,
    /// FROM, with which the items of SELECT end, or DISTINCT, so that they do not end with the FROM of IS DISTINCT FROM.
    From,
    /// WHERE, or a word that begins a clause after it: a FROM clause ends there.
    Clause,
    /// A word that begins a clause after WHERE.
    Later,
}

/// Whether a token is a closing bracket or a semicolon.
fn ends_level(kind: &TokenKind) -> bool
    ensures { result ≡ spec.ends_level kind.now }
{
    matches!(
        kind,
        TokenKind::Terminal(Terminal::RightBracket | Terminal::Semicolon)
    )
}

/// Whether a word begins a clause after WHERE.
fn begins_later(kind: &TokenKind) -> bool
    ensures { result ≡ spec.begins_later kind.now }
{
    matches!(
        kind,
        TokenKind::Terminal(
            Terminal::Group
                | Terminal::Having
                | Terminal::Window
                | Terminal::Union
                | Terminal::Order
                | Terminal::Limit
                | Terminal::Offset
                | Terminal::Fetch
        )
    )
}

/// Whether a part that ends in this way ends at a token.
fn stops(stop: Stop, kind: &TokenKind) -> bool
    ensures { result ≡ spec.stops stop kind.now }
{
    match stop {
        Stop::Comma => matches!(kind, TokenKind::Terminal(Terminal::Comma)),
        Stop::From => matches!(
            kind,
            TokenKind::Terminal(Terminal::From | Terminal::Distinct)
        ),
        Stop::Clause => {
            matches!(kind, TokenKind::Terminal(Terminal::Where)) || begins_later(kind)
        }
        Stop::Later => begins_later(kind),
    }
}

/// How many brackets are open after a token.
fn depth_after(depth: usize, kind: &TokenKind) -> usize
    requires { depth + 1 < 2 ^ 64 }
    ensures { result ≡ spec.depth_after depth kind.now }
{
    match kind {
        TokenKind::Terminal(Terminal::LeftBracket) => depth + 1,
        TokenKind::Terminal(Terminal::RightBracket) => depth.saturating_sub(1),
        _ => depth,
    }
}

/// How many tokens come before the end of a part that begins with them.
#[tactic(auto, unfolding(crate::specs::Reach::reach_from))]
fn reach(stop: Stop, tokens: &[Token]) -> usize
    ensures length { result ≡ spec.reach stop tokens.now }
    ensures within { result ≤ length tokens.now }
{
    let mut depth: usize = 0;
    let mut count: usize = 0;
    let mut rest = tokens;
    while let [first, after @ ..] = rest {
        if depth == 0 && (ends_level(&first.kind) || stops(stop, &first.kind)) {
            return count;
        }
        depth = depth_after(depth, &first.kind);
        count += 1;
        rest = after;
    }
    count
}

/// The part that the tokens begin with, and the tokens after it.
pub fn split(stop: Stop, tokens: &[Token]) -> (&[Token], &[Token])
    ensures part { result.0.now ≡ take (spec.reach stop tokens.now) tokens.now }
    ensures following { result.1.now ≡ drop (spec.reach stop tokens.now) tokens.now }
{
    let count = reach(stop, tokens);
    (&tokens[..count], &tokens[count..])
}

/// The place of the bracket that closes what holds the tokens.
#[tactic(auto, unfolding(crate::specs::Reach::closing_from))]
pub fn closing(tokens: &[Token]) -> Option<usize>
    ensures place { result ≡ spec.closing tokens.now }
    ensures within { IfSome result (λ place. place < length tokens.now) }
{
    let mut depth: usize = 0;
    let mut place: usize = 0;
    let mut rest = tokens;
    while let [first, after @ ..] = rest {
        if depth == 0 && matches!(first.kind, TokenKind::Terminal(Terminal::RightBracket)) {
            return Some(place);
        }
        depth = depth_after(depth, &first.kind);
        place += 1;
        rest = after;
    }
    None
}
