//! Parts of a list of tokens, up to separators outside brackets.

ghost use Rattle.std.specs.Prelude.{◌≡◌, ◌≤◌, ◌+◌, ◌<◌, ◌^◌, length, map, drop, IfOk};
ghost use Rattle.wd_equations.specs.Parts.{depth_after, part_from, parts_of};

use crate::tokens::is_terminal;
use std::alloc::{AllocError, Global};
use wd_lex::{Terminal, Token, TokenKind};

/// How many brackets are open after a token; CASE and END are a pair of brackets.
fn depth_after(depth: usize, kind: &TokenKind) -> usize
    requires { depth + 1 < 2 ^ 64 }
    ensures { result ≡ depth_after depth kind.now }
{
    match kind {
        TokenKind::Terminal(Terminal::LeftBracket | Terminal::Case) => depth + 1,
        TokenKind::Terminal(Terminal::RightBracket | Terminal::End) => depth.saturating_sub(1),
        _ => depth,
    }
}

/// How many tokens come before the first separator outside brackets.
#[tactic(auto, unfolding(crate::specs::Parts::part_from))]
fn part_length(separator: Terminal, tokens: &[Token]) -> usize
    ensures value { result ≡ part_from separator 0 0 tokens.now }
    ensures within { result ≤ length tokens.now }
{
    let mut count = 0;
    let mut depth: usize = 0;
    let mut rest = tokens;
    while let [first, after @ ..] = rest {
        if depth == 0 && is_terminal(&first.kind, separator) {
            return count;
        }
        count += 1;
        depth = depth_after(depth, &first.kind);
        rest = after;
    }
    count
}

/// The parts of tokens: the first goes up to the one separator, the next up to the other, and so on in turn.
pub fn parts_of<'t>(
    alloc: Global,
    separator: Terminal,
    other: Terminal,
    tokens: &'t [Token],
) -> Result<Vec<&'t [Token]>, AllocError>
    ensures { IfOk result (λ parts. map (λ part. part.now) parts.items ≡ parts_of (length tokens.now) separator other tokens.now) }
{
    let mut parts = Vec::new(alloc);
    let mut here = separator;
    let mut next = other;
    let mut rest = tokens;
    for _ in 0..tokens.len() {
        let (part, after) = rest.split_at(part_length(here, rest));
        let [_, following @ ..] = after else {
            break;
        };
        parts.push(part)?;
        rest = following;
        (here, next) = (next, here);
    }
    parts.push(rest)?;
    Ok(parts)
}
