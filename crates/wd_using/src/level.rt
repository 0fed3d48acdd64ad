//! The lengths of parts of a select: a table of a FROM clause with its condition, a conjunct, a level, and the tokens before certain
//! words.

ghost use Rattle.std.specs.Prelude.{◌≡◌, ◌+◌, ◌<◌, ◌≤◌, ◌^◌, length, take, drop};
ghost use Rattle.wd_clauses.specs.Reach as clauses;
ghost use Rattle.wd_using.specs.Reach as spec;

use crate::kind::{
    begins_limit, begins_select, ends_level, ends_table, is_and, is_between, is_choice,
};
use wd_lex::{Terminal, Token, TokenKind};

/// A part that is looked through, up to its end or the end of the level.
#[derive(Clone, Copy)]
pub enum Extent {
    /// A table of a FROM clause, with its condition.
    Table,
    /// The whole level.
    Level,
    /// The tokens before AND.
    Conjunct,
    /// The tokens before OR and CASE.
    Choice,
    /// The tokens before BETWEEN.
    Between,
    /// The tokens before a further select.
    Select,
    /// The tokens before ORDER, LIMIT, OFFSET and FETCH.
    Limit,
}

/// Whether a token ends the part, besides the end of its level.
fn stops(extent: Extent, kind: &TokenKind) -> bool
    ensures { result ≡ spec.stops extent kind.now }
{
    match extent {
        Extent::Table => ends_table(kind),
        Extent::Level => false,
        Extent::Conjunct => is_and(kind),
        Extent::Choice => is_choice(kind),
        Extent::Between => is_between(kind),
        Extent::Select => begins_select(kind),
        Extent::Limit => begins_limit(kind),
    }
}

/// How many brackets are open after a token.
fn depth_after(depth: usize, kind: &TokenKind) -> usize
    requires { depth + 1 < 2 ^ 64 }
    ensures { result ≡ clauses.depth_after depth kind.now }
{
    match kind {
        TokenKind::Terminal(Terminal::LeftBracket) => depth + 1,
        TokenKind::Terminal(Terminal::RightBracket) => depth.saturating_sub(1),
        _ => depth,
    }
}

/// How many of the tokens come before the end of the part.
#[tactic(auto, unfolding(crate::specs::Reach::reach_from))]
fn reach(extent: Extent, tokens: &[Token]) -> usize
    ensures length { result ≡ spec.reach extent tokens.now }
    ensures within { result ≤ length tokens.now }
{
    let mut depth: usize = 0;
    let mut count: usize = 0;
    let mut rest = tokens;
    while let [first, after @ ..] = rest {
        if depth == 0 && (ends_level(&first.kind) || stops(extent, &first.kind)) {
            return count;
        }
        depth = depth_after(depth, &first.kind);
        count += 1;
        rest = after;
    }
    count
}

/// The part that the tokens begin with, and the tokens after it.
pub fn split_at(extent: Extent, tokens: &[Token]) -> (&[Token], &[Token])
    ensures part { result.0.now ≡ take (spec.reach extent tokens.now) tokens.now }
    ensures following { result.1.now ≡ drop (spec.reach extent tokens.now) tokens.now }
{
    let count = reach(extent, tokens);
    (&tokens[..count], &tokens[count..])
}
