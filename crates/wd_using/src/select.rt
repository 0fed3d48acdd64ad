//! The pieces of a select.

ghost use Rattle.std.specs.Prelude.{◌≡◌};
ghost use Rattle.wd_clauses.specs.Given.{Finds};
ghost use Rattle.wd_using.specs.Named.{pieces};
ghost use Rattle.wd_using.specs.Pieces as spec;

use crate::kind::{begins_distinct, begins_from, begins_on, has_select, is_select};
use crate::level::{Extent, split_at};
use wd_clauses::{Stop, split};
use wd_distinct_on::split_at_place;
use wd_lex::Token;

/// `SELECT [DISTINCT] items FROM tables clauses`, and the tokens after it.
#[derive(Drop)]
pub struct Select<'t> {
    pub select: &'t Token,
    pub distinct: &'t [Token],
    pub items: &'t [Token],
    pub tables: &'t [Token],
    pub clauses: &'t [Token],
    pub after: &'t [Token],
}

/// The select with these tokens after SELECT at its level.
fn with_body<'t>(select: &'t Token, body: &'t [Token], after: &'t [Token]) -> Option<Select<'t>>
    ensures { Finds pieces result (spec.with_body select.now body.now after.now) }
{
    let (distinct, list) = split_at_place(if begins_distinct(body) { 1 } else { 0 }, body);
    if begins_on(list) {
        return None;
    }
    let (items, following) = split(Stop::From, list);
    let (tables, clauses) = split(Stop::Clause, following);
    if !begins_from(following) {
        return None;
    }
    Some(Select {
        select,
        distinct,
        items,
        tables,
        clauses,
        after,
    })
}

/// The select that begins with the tokens. `None` where it has DISTINCT ON, or no FROM clause.
#[tactic(auto, unfolding(crate::specs::Pieces::pieces_at))]
pub fn pieces_at(tokens: &[Token]) -> Option<Select<'_>>
    ensures { Finds pieces result (spec.pieces_at tokens.now) }
{
    let [select, rest @ ..] = tokens else {
        return None;
    };
    if !is_select(&select.kind) {
        return None;
    }
    let (body, after) = split_at(Extent::Level, rest);
    with_body(select, body, after)
}

/// The select that begins with the tokens, if other selects are only in its FROM clause.
pub fn select_at(tokens: &[Token]) -> Option<Select<'_>>
    ensures { Finds pieces result (spec.select_at tokens.now) }
{
    match pieces_at(tokens) {
        Some(select) => {
            if has_select(select.items) || has_select(select.clauses) {
                None
            } else {
                Some(select)
            }
        }
        None => None,
    }
}
