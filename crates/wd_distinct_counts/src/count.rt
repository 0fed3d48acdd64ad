//! The calls COUNT( DISTINCT c ) among tokens.

ghost use Rattle.std.specs.Prelude.{◌≡◌, ◌∷◌, map, option_map};
ghost use Rattle.wd_clauses.specs.Given.{Finds, Writes};
ghost use Rattle.wd_clauses.specs.Reach as reach;
ghost use Rattle.wd_distinct_counts.specs.Counts as spec;
ghost use Rattle.wd_distinct_on.specs.Kinds as kinds;

use wd_clauses::RespellError;
use wd_distinct_on::{split_at_place, strip};
use wd_grouping::{add_its_table, begins_dot, is_column, is_over};
use wd_lex::{Terminal, Token, TokenKind};
use wd_using::{begins_distinct, opens};

/// Whether a token is COUNT.
fn is_count(kind: &TokenKind) -> bool
    ensures { result ≡ spec.is_count kind.now }
{
    match kind {
        TokenKind::Word(text) => text.as_bytes() == b"count".as_slice(),
        _ => false,
    }
}

/// Whether a token is COUNT, SUM, MIN or MAX, quoted or not.
fn is_aggregate(kind: &TokenKind) -> bool
    ensures { result ≡ spec.is_aggregate kind.now }
{
    match kind {
        TokenKind::Word(text) | TokenKind::Quoted(text) => {
            text.as_bytes() == b"count".as_slice()
                || text.as_bytes() == b"sum".as_slice()
                || text.as_bytes() == b"min".as_slice()
                || text.as_bytes() == b"max".as_slice()
        }
        _ => false,
    }
}

/// Whether a token is OVER or FILTER.
fn goes_on(kind: &TokenKind) -> bool
    ensures { result ≡ spec.goes_on kind.now }
{
    match kind {
        TokenKind::Word(text) => text.as_bytes() == b"filter".as_slice(),
        _ => is_over(kind),
    }
}

/// Whether the tokens begin with OVER or FILTER.
fn begins_more(tokens: &[Token]) -> bool
    ensures { result ≡ kinds.begins spec.goes_on tokens.now }
{
    match tokens {
        [first, ..] => goes_on(&first.kind),
        [] => false,
    }
}

fn closes(kind: &TokenKind) -> bool
    ensures { result ≡ reach.closes kind.now }
{
    matches!(kind, TokenKind::Terminal(Terminal::RightBracket))
}

fn is_distinct(kind: &TokenKind) -> bool
    ensures { result ≡ kinds.is_distinct kind.now }
{
    matches!(kind, TokenKind::Terminal(Terminal::Distinct))
}

/// Whether the tokens begin with the bracket that closes the call, and no OVER or FILTER follows it.
fn closes_call(tokens: &[Token]) -> bool
    ensures { result ≡ spec.closes_call tokens.now }
{
    match tokens {
        [bracket, rest @ ..] => closes(&bracket.kind) && !begins_more(rest),
        [] => false,
    }
}

/// The first `count` tokens, if they are a column and the call closes after them.
fn if_closed(count: usize, tokens: &[Token]) -> Option<&[Token]>
    ensures { Finds (λ column. column.now) result (spec.closed_after count tokens.now) }
{
    let (column, following) = split_at_place(count, tokens);
    if is_column(column) && closes_call(following) {
        return Some(column);
    }
    None
}

/// `x.c` or `c`, if the bracket that closes the call follows it.
fn column_at(tokens: &[Token]) -> Option<&[Token]>
    ensures { Finds (λ column. column.now) result (spec.column_at tokens.now) }
{
    match if_closed(3, tokens) {
        Some(column) => Some(column),
        None => if_closed(1, tokens),
    }
}

/// The column of `COUNT( DISTINCT c )`, by the tokens after its bracket; `before` is the token before the bracket.
fn counted_column<'t>(before: &TokenKind, tokens: &'t [Token]) -> Option<&'t [Token]>
    ensures { Finds (λ column. column.now) result (spec.counted_column before.now tokens.now) }
{
    match tokens {
        [distinct, rest @ ..] if is_count(before) && is_distinct(&distinct.kind) => column_at(rest),
        _ => None,
    }
}

/// Whether a bracket is that of an aggregate, or DISTINCT follows it.
fn begins_call(before: &TokenKind, bracket: &Token, tokens: &[Token]) -> bool
    ensures { result ≡ spec.begins_call before.now bracket.now tokens.now }
{
    opens(&bracket.kind) && (is_aggregate(before) || begins_distinct(tokens))
}

/// Whether two columns are written alike.
fn is_same_column(column: &[Token], other: &[Token]) -> bool
    ensures { result ≡ spec.is_same_column column.now other.now }
{
    match strip(column, other) {
        Some([]) => true,
        _ => false,
    }
}

/// The one column that is counted, with that of a further call.
fn common_column<'t>(so_far: Option<&'t [Token]>, found: Option<&'t [Token]>) -> Option<&'t [Token]>
    ensures { Finds (λ column. column.now) result (spec.joined (option_map (λ column. column.now) so_far.entry) (option_map (λ column. column.now) found.entry)) }
{
    match (so_far, found) {
        (_, None) => None,
        (None, Some(column)) => Some(column),
        (Some(first), Some(column)) if is_same_column(first, column) => Some(first),
        (Some(_), Some(_)) => None,
    }
}

/// The one column, if any, of each `COUNT( DISTINCT c )` in the tokens, with the one found so far, if there is no other aggregate;
/// `before` is the token before these.
pub fn column_in<'t>(
    so_far: Option<&'t [Token]>,
    before: &TokenKind,
    tokens: &'t [Token],
) -> Option<Option<&'t [Token]>>
    ensures { Finds (λ found. option_map (λ column. column.now) found) result (spec.column_in (option_map (λ column. column.now) so_far.entry) before.now tokens.now) }
{
    let mut column = so_far;
    let mut last = before;
    let mut rest = tokens;
    while let [first, after @ ..] = rest {
        if begins_call(last, first, after) {
            match common_column(column, counted_column(last, after)) {
                Some(one) => column = Some(one),
                None => return None,
            }
        }
        last = &first.kind;
        rest = after;
    }
    Some(column)
}

/// Adds tokens without DISTINCT in such calls; where one table replaces several, it also replaces their names before columns.
pub fn add_counted(
    written: &mut Vec<Token>,
    table: Option<&Token>,
    before: &TokenKind,
    tokens: &[Token],
) -> Result<(), RespellError>
    ensures { Writes written.old.items written.new.items result (spec.counted (option_map (λ table. table.now) table.entry) before.now tokens.now) }
{
    let mut last = before;
    let mut rest = tokens;
    while let [first, after @ ..] = rest {
        if !(opens(last) && is_distinct(&first.kind)) {
            add_its_table(written, table, first, after)?;
        }
        last = &first.kind;
        rest = after;
    }
    Ok(())
}

/// Whether a column is one of these.
fn is_among(column: &[Token], mut columns: &[&[Token]]) -> bool
    ensures { result ≡ spec.is_among column.now (map (λ other. other.now) columns.entry.now) }
{
    while let [other, rest @ ..] = columns {
        if is_same_column(other, column) {
            return true;
        }
        columns = rest;
    }
    false
}

/// Whether a column is the counted column, or one of these.
fn is_one_of(found: &[Token], column: &[Token], columns: &[&[Token]]) -> bool
    ensures { result ≡ spec.is_among found.now (column.now ∷ map (λ other. other.now) columns.now) }
{
    is_same_column(column, found) || is_among(found, columns)
}

/// Whether each column that is written with its table is the counted column, or one of these.
pub fn are_theirs(column: &[Token], columns: &[&[Token]], tokens: &[Token]) -> bool
    ensures { result ≡ spec.are_theirs (column.now ∷ map (λ other. other.now) columns.now) tokens.now }
{
    let mut rest = tokens;
    while let [_first, after @ ..] = rest {
        let (found, _after) = split_at_place(3, rest);
        if begins_dot(after) && !is_one_of(found, column, columns) {
            return false;
        }
        rest = after;
    }
    true
}
