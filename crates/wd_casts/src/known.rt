//! What is known of an operand: that it is a text or a number, or what its values are by the columns of a schema.

ghost use Rattle.std.specs.Prelude.{◌≡◌, Some, IfOk};
ghost use Rattle.wd_clauses.specs.Given.{Finds};
ghost use Rattle.wd_casts.specs.Known as spec;
ghost use Rattle.wd_casts.specs.Known.{known_within};
ghost use Rattle.wd_casts.specs.Seen.{kinds_seen, term_seen};

use crate::agreed::KnownKinds;
use crate::equation::equation;
use crate::kind::Kind;
use crate::term::{Cast, Term, term_at};
use std::alloc::{AllocError, Global};
use wd_amounts::{bracket_contents, is_picked};
use wd_lex::{Token, TokenKind};
use wd_operands::{brackets_at, is_name};
use wd_units::{Stop, begins_bracket, is_dot, part_length};

/// How deep brackets and casts are followed.
const MOST_DEEP: usize = 130;

/// What is known of an operand.
#[derive(Clone, Copy)]
pub enum Known {
    Nothing,
    /// The operand is a text in quotes.
    Literal,
    /// The operand is this number.
    Number(u64),
    /// The operand's values are of this kind.
    Value(Kind),
}

fn value_of(kind: Option<Kind>) -> Known
    ensures { result ≡ spec.value_of kind }
{
    match kind {
        Some(kind) => Known::Value(kind),
        None => Known::Nothing,
    }
}

fn token_known(kinds: &KnownKinds, kind: &TokenKind) -> Known
    ensures { result ≡ spec.token_known (kinds_seen kinds.now) kind.now }
{
    match kind {
        TokenKind::Word(name) | TokenKind::Quoted(name) => {
            value_of(kinds.value_named(name.as_str()))
        }
        TokenKind::Number(number) => Known::Number(*number),
        TokenKind::Literal(_) => Known::Literal,
        TokenKind::Terminal(_) => Known::Nothing,
    }
}

/// What is known of a single token: a name, with its table or not, a number or a text.
#[tactic(auto, unfolding(crate::specs::Known::column_known))]
fn column_known(kinds: &KnownKinds, tokens: &[Token]) -> Known
    ensures { result ≡ spec.column_known (kinds_seen kinds.now) tokens.now }
{
    match tokens {
        [only] => token_known(kinds, &only.kind),
        [table, dot, column] => {
            if is_name(&table.kind) && is_dot(&dot.kind) && is_name(&column.kind) {
                token_known(kinds, &column.kind)
            } else {
                Known::Nothing
            }
        }
        _ => Known::Nothing,
    }
}

/// Whether a call of that name counts rows, in whole numbers of 64 bits.
fn is_counted(kind: &TokenKind) -> bool
    ensures { result ≡ spec.is_counted kind.now }
{
    match kind {
        TokenKind::Word(name) => {
            matches!(
                name.as_str(),
                "count" | "row_number" | "rank" | "dense_rank"
            )
        }
        _ => false,
    }
}

/// Whether the tokens begin with a call that counts rows.
#[tactic(auto, unfolding(crate::specs::Known::counts_rows))]
fn counts_rows(tokens: &[Token]) -> bool
    ensures { result ≡ spec.counts_rows tokens.now }
{
    match tokens {
        [first, rest @ ..] => is_counted(&first.kind) && begins_bracket(rest),
        [] => false,
    }
}

#[tactic(auto, unfolding(crate::specs::Known::plain_known))]
fn plain_known(kinds: &KnownKinds, tokens: &[Token]) -> Known
    ensures { result ≡ spec.plain_known (kinds_seen kinds.now) tokens.now }
{
    if counts_rows(tokens) {
        Known::Value(Kind::Big)
    } else {
        column_known(kinds, tokens)
    }
}

/// The first argument, where at most a comma and one more token come after it.
#[tactic(auto, unfolding(crate::specs::Known::first_argument))]
fn first_argument(tokens: &[Token]) -> Option<&[Token]>
    ensures { Finds (λ r. r.now) result (spec.first_argument tokens.now) }
{
    let (first, others) = tokens.split_at(part_length(Stop::Comma, tokens));
    if others.len() > 2 { None } else { Some(first) }
}

/// The argument whose values a call returns.
#[tactic(auto, unfolding(crate::specs::Known::picked))]
fn picked_argument(tokens: &[Token]) -> Option<&[Token]>
    ensures { Finds (λ r. r.now) result (spec.picked tokens.now) }
{
    let [first, rest @ ..] = tokens else {
        return None;
    };
    if !is_picked(&first.kind) {
        return None;
    }
    let Some((arguments, _)) = brackets_at(rest) else {
        return None;
    };
    first_argument(arguments)
}

/// The smaller operand within this one that has the same values.
#[tactic(auto, unfolding(crate::specs::Known::inner_operand))]
fn inner_operand(tokens: &[Token]) -> Option<&[Token]>
    ensures { Finds (λ r. r.now) result (spec.inner_operand tokens.now) }
{
    match bracket_contents(tokens) {
        Some(inside) => Some(inside),
        None => picked_argument(tokens),
    }
}

fn as_value(known: Known) -> Known
    ensures { result ≡ spec.as_value known }
{
    match known {
        Known::Value(_) => known,
        _ => Known::Nothing,
    }
}

/// What is known of a cast of an operand.
pub fn known_as(known: Known, kind: Kind) -> Known
    ensures { result ≡ spec.known_as known kind }
{
    match equation(known, kind) {
        Some(_) => Known::Value(kind),
        None => Known::Nothing,
    }
}

/// What is known of an operand after its casts.
#[tactic(auto, unfolding(crate::specs::Known::known_after))]
pub fn known_after(first: Known, casts: &[Cast]) -> Known
    ensures { result ≡ spec.known_after first casts.now }
{
    let mut known = first;
    let mut rest = casts;
    while let [cast, after @ ..] = rest {
        known = known_as(known, cast.kind);
        rest = after;
    }
    known
}

/// What is known of an operand without casts.
#[tactic(auto, unfolding(crate::specs::Known::primary_known))]
#[cycle(known_within)]
fn primary_known(
    alloc: Global,
    kinds: &KnownKinds,
    depth: usize,
    tokens: &[Token],
) -> Result<Known, AllocError>
    ensures { IfOk result (λ known. known ≡ spec.primary_known (known_within (kinds_seen kinds.now) depth) (kinds_seen kinds.now) tokens.now) }
{
    match inner_operand(tokens) {
        Some(inside) => {
            let known = known_within(alloc, kinds, depth, inside)?;
            Ok(as_value(known))
        }
        None => Ok(plain_known(kinds, tokens)),
    }
}

/// What is known of an operand with its casts.
#[cycle(known_within)]
fn term_known(
    alloc: Global,
    kinds: &KnownKinds,
    depth: usize,
    term: &Term,
) -> Result<Known, AllocError>
    ensures { IfOk result (λ known. known ≡ spec.term_by (known_within (kinds_seen kinds.now) depth) (kinds_seen kinds.now) term.now.operand.now term.now.casts.items) }
{
    if term.casts.is_empty() {
        primary_known(alloc, kinds, depth, term.operand)
    } else {
        let known = known_within(alloc, kinds, depth, term.operand)?;
        Ok(known_after(known, &term.casts))
    }
}

/// What is known of an operand with its casts, where no tokens come after the casts.
#[cycle(known_within)]
fn whole_known(
    alloc: Global,
    kinds: &KnownKinds,
    depth: usize,
    term: &Term,
) -> Result<Known, AllocError>
    ensures { IfOk result (λ known. known ≡ spec.whole_known (known_within (kinds_seen kinds.now) depth) (kinds_seen kinds.now) (Some (term_seen term.now))) }
{
    if term.rest.is_empty() {
        term_known(alloc, kinds, depth, term)
    } else {
        Ok(Known::Nothing)
    }
}

/// What is known of tokens that are one operand with its casts, followed into at most `depth` brackets and casts.
#[cycle(known_within)]
fn known_within(
    alloc: Global,
    kinds: &KnownKinds,
    depth: usize,
    tokens: &[Token],
) -> Result<Known, AllocError>
    ensures { IfOk result (λ known. known ≡ known_within (kinds_seen kinds.now) depth tokens.now) }
{
    if depth == 0 {
        return Ok(Known::Nothing);
    }
    match term_at(alloc, tokens)? {
        Some(term) => whole_known(alloc, kinds, depth - 1, &term),
        None => Ok(Known::Nothing),
    }
}

/// What is known of an operand.
pub fn known_of(alloc: Global, kinds: &KnownKinds, tokens: &[Token]) -> Result<Known, AllocError>
    ensures { IfOk result (λ known. known ≡ spec.known_of (kinds_seen kinds.now) tokens.now) }
{
    known_within(alloc, kinds, MOST_DEEP, tokens)
}
