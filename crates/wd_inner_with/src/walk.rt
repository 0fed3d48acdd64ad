//! A query without WITH clauses within brackets.

ghost use Rattle.std.specs.Prelude.{◌≡◌, ◌++◌, IfOk};
ghost use Rattle.wd_inner_with.specs.Inner as spec;
ghost use Rattle.wd_with.specs.Expanded as members;
ghost use Rattle.std.specs.Prelude.{drop};

use crate::opened::{begins_inner, open_at};
use std::alloc::{AllocError, Global};
use wd_clauses::{RespellError, copy_token, copy_tokens};
use wd_distinct_on::split_at_place;
use wd_lex::Token;
use wd_with::Expanded;

// The most tokens of a query.
const MOST_TOKENS: usize = 65_536;

// The most WITH clauses within brackets that are looked at.
const MOST_INNER: usize = 128;

/// How many clauses are left to be looked at, if one may begin at a place.
fn fewer(left: usize, place: usize, tokens: &[Token]) -> usize
    ensures { result ≡ spec.fewer left (drop place tokens.now) }
{
    let (_, rest) = split_at_place(place, tokens);
    if begins_inner(rest) {
        return left.saturating_sub(1);
    }
    left
}

/// Appends names.
fn add_names(names: &mut Vec<Token>, mut more: &[Token]) -> Result<(), AllocError>
    ensures { IfOk result (λ _. names.new.items ≡ names.old.items ++ more.entry.now) }
{
    while let [name, rest @ ..] = more {
        names.push(copy_token(name)?)?;
        more = rest;
    }
    Ok(())
}

/// The query without WITH clauses within brackets, and the names of the members of these that are read more than once. An error if the
/// query, or what is written, is longer than 65,536 tokens, or if memory runs out.
#[tactic(auto, unfolding(crate::specs::Inner::opened_below))]
pub fn without_inner_with(alloc: Global, tokens: &[Token]) -> Result<Expanded, RespellError>
    ensures { spec.GivesSaid members.said result (spec.without_inner tokens.now) }
{
    if tokens.len() > MOST_TOKENS {
        return Err(RespellError::TooLong);
    }
    let mut query = copy_tokens(alloc, tokens)?;
    let mut names = Vec::new(alloc);
    let mut left = MOST_INNER;
    let mut place = tokens.len();
    while place > 0 {
        if left == 0 {
            return Ok(Expanded {
                tokens: query,
                read_twice: names,
            });
        }
        place -= 1;
        left = fewer(left, place, &query);
        match open_at(alloc, place, &query)? {
            Some(next) => {
                if next.tokens.len() > MOST_TOKENS {
                    return Err(RespellError::TooLong);
                }
                add_names(&mut names, &next.read_twice)?;
                query = next.tokens;
            }
            None => {}
        }
    }
    Ok(Expanded {
        tokens: query,
        read_twice: names,
    })
}
