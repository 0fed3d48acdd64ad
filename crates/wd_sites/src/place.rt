//! Tokens by their numbers: what they are, and the bytes that they take.

ghost use Rattle.std.specs.Prelude.{◌≡◌, IfSome};
ghost use Rattle.wd_sites.specs.Sites.{EndsToken, IsSpanFrom, IsTerminalAt};

use std::alloc::Global;
use wd_lex::{Span, Terminal, Token, TokenKind};
use wd_value::OutOfMemory;

/// The terminal with this number, if the token is one.
pub(crate) fn terminal_at(tokens: &[Token], number: usize) -> Option<Terminal>
    ensures { IfSome result (IsTerminalAt tokens.now number) }
{
    match &tokens.get(number)?.kind {
        TokenKind::Terminal(terminal) => Some(*terminal),
        _ => None,
    }
}

/// The name with this number, if the token is one.
pub(crate) fn name_at(tokens: &[Token], number: usize) -> Option<&str> {
    match &tokens.get(number)?.kind {
        TokenKind::Word(name) | TokenKind::Quoted(name) => Some(name.as_str()),
        _ => None,
    }
}

/// The bytes from the beginning of one token to the end of another, which does not come before it.
pub(crate) fn span_from(tokens: &[Token], first: usize, last: usize) -> Option<Span>
    ensures { IfSome result (IsSpanFrom tokens.now first last) }
{
    if first > last {
        return None;
    }
    let start = tokens.get(first)?.span.start;
    let end = tokens.get(last)?.span.end;
    Some(Span { start, end })
}

/// The byte at which a token ends.
pub(crate) fn end_of(tokens: &[Token], number: usize) -> Option<u64>
    ensures { IfSome result (EndsToken tokens.now) }
{
    let token = tokens.get(number)?;
    Some(token.span.end)
}

/// For each token its number, and for a bracket the number of the bracket that matches it.
pub(crate) fn partners(alloc: Global, tokens: &[Token]) -> Result<Vec<usize>, OutOfMemory> {
    let mut partners = Vec::with_capacity(alloc, tokens.len())?;
    let mut open = Vec::new(alloc);
    for number in 0..tokens.len() {
        partners.push(number)?;
        match terminal_at(tokens, number) {
            Some(Terminal::LeftBracket) => open.push(number)?,
            Some(Terminal::RightBracket) => {
                if let Some(opening) = open.pop() {
                    pair(&mut partners, opening, number);
                }
            }
            _ => {}
        }
    }
    Ok(partners)
}

/// Makes two brackets match.
fn pair(partners: &mut Vec<usize>, opening: usize, closing: usize) {
    if let Some(partner) = partners.get_mut(opening) {
        *partner = closing;
    }
    if let Some(partner) = partners.get_mut(closing) {
        *partner = opening;
    }
}
