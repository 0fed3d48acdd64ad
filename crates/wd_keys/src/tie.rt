//! Changes with which rows that tie are treated alike.

ghost use Rattle.std.specs.Prelude.{◌≡◌, string_bytes, IfOk, IfSome, IsTrue};
ghost use Rattle.wd_keys.specs.Alike.{IsAlike, IsFetch};
ghost use Rattle.wd_lex.specs.declared.token.Terminal.TheVariants as m;
ghost use Rattle.wd_lex.specs.declared.token.TokenKind.TheVariants as t;

use crate::change::Change;
use std::alloc::Global;
use wd_lex::{Span, Terminal, Token, TokenKind};
use wd_sites::{KeyPlace, PlanSite, Site};
use wd_value::OutOfMemory;

/// The change at a site of a query's tokens with which rows that tie are treated alike: RANK in place of ROW_NUMBER, and WITH TIES for
/// a limit. `None` where the site has no ORDER BY or the limit an OFFSET, and for other calls.
pub fn treat_alike(
    alloc: Global,
    tokens: &[Token],
    found: PlanSite,
) -> Result<Option<Change>, OutOfMemory>
    ensures { IfOk result (λ found. IfSome found (IsAlike tokens.now)) }
{
    if !is_sorted(found.site) {
        return Ok(None);
    }
    match found.call {
        Some(_) => use_rank(alloc, tokens, found.site.span),
        None => limit_with_ties(alloc, tokens, found.site.span),
    }
}

/// Whether a site has an ORDER BY.
fn is_sorted(site: Site) -> bool {
    matches!(site.key, Some(KeyPlace { order: Some(_), .. }))
}

/// RANK in place of ROW_NUMBER, where the call at the site begins with that word.
fn use_rank(alloc: Global, tokens: &[Token], span: Span) -> Result<Option<Change>, OutOfMemory>
    ensures { IfOk result (λ found. IfSome found (IsAlike tokens.now)) }
{
    for token in tokens {
        if token.span.start == span.start {
            return if is_word(token, "row_number") {
                Ok(Some(put(alloc, token.span, "RANK")?))
            } else {
                Ok(None)
            };
        }
    }
    Ok(None)
}

/// WITH TIES for the limit of a select, where the select has no OFFSET.
fn limit_with_ties(
    alloc: Global,
    tokens: &[Token],
    span: Span,
) -> Result<Option<Change>, OutOfMemory>
    ensures { IfOk result (λ found. IfSome found (IsAlike tokens.now)) }
{
    if has_offset(tokens, span) {
        return Ok(None);
    }
    match fetch_with_ties(alloc, tokens, span)? {
        Some(change) => Ok(Some(change)),
        None => ties_for_only(alloc, tokens, span),
    }
}

/// Whether OFFSET is among the tokens of a site.
fn has_offset(tokens: &[Token], span: Span) -> bool {
    tokens
        .iter()
        .any(|token| is_within(token, span) && is_offset(token))
}

/// FETCH FIRST with ties in place of LIMIT, where the site has LIMIT.
fn fetch_with_ties(
    alloc: Global,
    tokens: &[Token],
    span: Span,
) -> Result<Option<Change>, OutOfMemory>
    ensures { IfOk result (λ found. IfSome found (IsAlike tokens.now)) }
{
    for number in 0..tokens.len() {
        if let Some(change) = fetch_with_ties_at(alloc, tokens, number, span)? {
            return Ok(Some(change));
        }
    }
    Ok(None)
}

/// FETCH FIRST with ties in place of LIMIT, which is the token of this number.
fn fetch_with_ties_at(
    alloc: Global,
    tokens: &[Token],
    number: usize,
    span: Span,
) -> Result<Option<Change>, OutOfMemory>
    ensures { IfOk result (λ found. IfSome found (IsAlike tokens.now)) }
{
    let limit = tokens.get(number);
    let count = tokens.get(number.saturating_add(1));
    match (limit, count) {
        (Some(limit), Some(count)) if is_within(limit, span) && is_limit(limit) => {
            limit_put(alloc, limit, count)
        }
        _ => Ok(None),
    }
}

/// FETCH FIRST with ties in place of the tokens from one up to another, where the last one is a number.
fn limit_put(alloc: Global, limit: &Token, count: &Token) -> Result<Option<Change>, OutOfMemory>
    ensures { IfOk result (λ found. IfSome found (IsFetch limit.now count.now)) }
{
    let TokenKind::Number(rows) = count.kind else {
        return Ok(None);
    };
    let written = Span {
        start: limit.span.start,
        end: count.span.end,
    };
    let words = format!(in alloc; "FETCH FIRST {rows} ROWS WITH TIES")?;
    Ok(Some(put(alloc, written, words.as_str())?))
}

/// WITH TIES in place of ONLY, where that is the last word of the site.
fn ties_for_only(alloc: Global, tokens: &[Token], span: Span) -> Result<Option<Change>, OutOfMemory>
    ensures { IfOk result (λ found. IfSome found (IsAlike tokens.now)) }
{
    for token in tokens {
        if token.span.end == span.end && is_word(token, "only") {
            return Ok(Some(put(alloc, token.span, "WITH TIES")?));
        }
    }
    Ok(None)
}

/// Whether a token is within these bytes.
fn is_within(token: &Token, span: Span) -> bool {
    span.start <= token.span.start && token.span.end <= span.end
}

fn is_offset(token: &Token) -> bool {
    matches!(token.kind, TokenKind::Terminal(Terminal::Offset))
}

fn is_limit(token: &Token) -> bool
    ensures { IsTrue result → token.now.kind ≡ t.Terminal m.Limit }
{
    match &token.kind {
        TokenKind::Terminal(Terminal::Limit) => true,
        _ => false,
    }
}

/// Whether a token is this word, which is not reserved.
fn is_word(token: &Token, wanted: &str) -> bool
    ensures { IsTrue result → token.now.kind ≡ t.Word wanted.now }
{
    match &token.kind {
        TokenKind::Word(word) => word.as_str() == wanted,
        _ => false,
    }
}

/// The change that puts words in place of a range.
fn put(alloc: Global, span: Span, words: &str) -> Result<Change, OutOfMemory>
    ensures at { IfOk result (λ c. c.at ≡ span.start) }
    ensures end { IfOk result (λ c. c.end ≡ span.end) }
    ensures text { IfOk result (λ c. string_bytes c.text ≡ words.now) }
{
    Ok(Change {
        at: span.start,
        end: span.end,
        text: String::from_str(alloc, words)?,
        keys: String::new(alloc),
    })
}
