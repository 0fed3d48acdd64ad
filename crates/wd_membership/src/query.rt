//! Selects with a FROM clause, and queries in brackets.

ghost use Rattle.std.specs.Prelude.{◌≡◌};
ghost use Rattle.wd_clauses.specs.Given.{Finds};
ghost use Rattle.wd_clauses.specs.Reach as reach;
ghost use Rattle.wd_membership.specs.Queries as spec;
ghost use Rattle.wd_using.specs.Named.{pieces};

use crate::conjunct::stands;
use crate::kind::is_end;
use wd_clauses::closing;
use wd_lex::Token;
use wd_using::{Extent, Select, opens, pieces_at};

/// The select that begins with the tokens, if no other is at its level.
pub fn select_at(tokens: &[Token]) -> Option<Select<'_>>
    ensures { Finds pieces result (spec.select_at tokens.now) }
{
    match pieces_at(tokens) {
        Some(select) => {
            if stands(Extent::Select, select.items)
                || stands(Extent::Select, select.tables)
                || stands(Extent::Select, select.clauses)
            {
                None
            } else {
                Some(select)
            }
        }
        None => None,
    }
}

/// The tokens up to the closing bracket, if nothing follows it.
fn inside(tokens: &[Token]) -> Option<&[Token]>
    ensures { Finds (λ x. x.now) result (spec.inside tokens.now (reach.closing tokens.now)) }
{
    match closing(tokens) {
        Some(place) => {
            if is_end(&tokens[place + 1..]) {
                Some(&tokens[..place])
            } else {
                None
            }
        }
        None => None,
    }
}

/// `( tokens )`, and nothing else.
fn in_brackets(tokens: &[Token]) -> Option<&[Token]>
    ensures { Finds (λ x. x.now) result (spec.bracketed tokens.now) }
{
    match tokens {
        [bracket, rest @ ..] if opens(&bracket.kind) => inside(rest),
        _ => None,
    }
}

/// The select, if nothing follows it.
fn whole(tokens: &[Token]) -> Option<Select<'_>>
    ensures { Finds pieces result (spec.whole tokens.now) }
{
    match select_at(tokens) {
        Some(select) => {
            if is_end(select.after) {
                Some(select)
            } else {
                None
            }
        }
        None => None,
    }
}

/// `( select )`, and nothing else.
#[tactic(auto, unfolding(crate::specs::Queries::query_in))]
pub fn query_in(tokens: &[Token]) -> Option<Select<'_>>
    ensures { Finds pieces result (spec.query_in tokens.now) }
{
    match in_brackets(tokens) {
        Some(query) => whole(query),
        None => None,
    }
}
