//! A query without memberships.

ghost use Rattle.std.specs.Prelude.{◌≡◌, map};
ghost use Rattle.wd_distinct_on.specs.Respelled.{Gives, MayWrite};
ghost use Rattle.wd_membership.specs.Named as named;
ghost use Rattle.wd_membership.specs.Respelled as spec;
ghost use Rattle.wd_using.specs.Named.{pieces};

use crate::conjunct::{Conjunct, conjuncts};
use crate::kind::{has_all, has_ours};
use crate::membership::{has_membership, members};
use crate::query::select_at;
use crate::write::write_select;
use std::alloc::Global;
use wd_clauses::{RespellError, Stop, split};
use wd_distinct_on::{Selects, respell_backwards, split_at_place, starts_with_select};
use wd_lex::Token;
use wd_using::Select;

// The most selects that are looked at.
const MOST_SELECTS: usize = 128;

/// What replaces a select after these tokens, if one of its conjuncts is a membership.
fn if_any(
    alloc: Global,
    front: &[Token],
    select: &Select,
    conjuncts: &[Conjunct],
) -> Result<Option<Vec<Token>>, RespellError>
    ensures { MayWrite (λ x. x.items) result (spec.if_any front.now (pieces select.now) (map named.conjunct conjuncts.now)) }
{
    let members = members(alloc, conjuncts)?;
    if has_membership(&members) {
        let tokens = write_select(alloc, front, select, &members)?;
        Ok(Some(tokens))
    } else {
        Ok(None)
    }
}

/// What replaces a select after these tokens.
fn respelled_select(
    alloc: Global,
    front: &[Token],
    select: &Select,
) -> Result<Option<Vec<Token>>, RespellError>
    ensures { MayWrite (λ x. x.items) result (spec.respelled_select front.now (pieces select.now)) }
{
    if has_all(&select.select.kind, select.items) {
        return Ok(None);
    }
    let (conditions, _later) = split(Stop::Later, select.clauses);
    match conjuncts(alloc, conditions)? {
        Some(conjuncts) => if_any(alloc, front, select, &conjuncts),
        None => Ok(None),
    }
}

/// The query in which the select that begins at a place is respelled.
#[tactic(auto, unfolding(crate::specs::Respelled::respell_at))]
fn respell_at(
    alloc: Global,
    place: usize,
    tokens: &[Token],
) -> Result<Option<Vec<Token>>, RespellError>
    ensures { MayWrite (λ x. x.items) result (spec.respell_at place tokens.now) }
{
    let (front, rest) = split_at_place(place, tokens);
    match select_at(rest) {
        Some(select) => respelled_select(alloc, front, &select),
        None => Ok(None),
    }
}

/// The most selects of a query that are looked at.
fn selects_of(tokens: &[Token]) -> usize
    ensures { result ≡ spec.selects_of tokens.now }
{
    if has_ours(tokens) { 0 } else { MOST_SELECTS }
}

/// The respelling of selects with memberships in their WHERE clauses.
#[derive(Clone, Copy)]
struct Memberships;

impl Selects for Memberships {
    ghost use Rattle.wd_distinct_on.specs.Kinds.{begins, is_select};
    ghost use Rattle.wd_membership.specs.Respelled as spec;

    ghost starts = { λ _. begins is_select };

    ghost respelled = { λ _. spec.respell_at };

    fn begins(&self, tokens: &[Token]) -> bool {
        starts_with_select(tokens)
    }

    fn respell_at(
        &self,
        alloc: Global,
        place: usize,
        tokens: &[Token],
    ) -> Result<Option<Vec<Token>>, RespellError> {
        respell_at(alloc, place, tokens)
    }
}

/// The query without memberships among the conjuncts of its WHERE clauses, as far as they are read.
pub fn without_membership(alloc: Global, tokens: &[Token]) -> Result<Vec<Token>, RespellError>
    ensures { Gives (λ x. x.items) result (spec.respelled tokens.now) }
{
    respell_backwards(alloc, &Memberships, selects_of(tokens), tokens)
}
