//! A query without its WITH clause.

ghost use Rattle.std.specs.Prelude.{◌≡◌, map, IfOk};
ghost use Rattle.wd_with.specs.Expanded as spec;
ghost use Rattle.wd_clauses.specs.Given.{Makes};
ghost use Rattle.wd_with.specs.Named.{named_query};

use crate::derived::replace_uses;
use crate::member::{Member, are_distinct, is_with, members_at};
use std::alloc::Global;
use wd_clauses::{RespellError, copy_token, copy_tokens};
use wd_lex::Token;

/// A query without its WITH clause.
#[derive(Drop)]
pub struct Expanded {
    pub tokens: Vec<Token>,
    /// The names of the members that are read more than once, the last first.
    pub read_twice: Vec<Token>,
}

/// A query as it is.
fn copy_query(alloc: Global, tokens: &[Token]) -> Result<Expanded, RespellError>
    ensures { Makes spec.said (λ s. s.tokens) result (spec.unchanged tokens.now) }
{
    Ok(Expanded {
        tokens: copy_tokens(alloc, tokens)?,
        read_twice: Vec::new(alloc),
    })
}

/// A query without one member.
fn without_member(alloc: Global, member: &Member, query: Expanded) -> Result<Expanded, RespellError>
    ensures { Makes spec.said (λ s. s.tokens) result (spec.taken_out (named_query member.now) (spec.said query)) }
{
    let Expanded {
        tokens,
        mut read_twice,
    } = query;
    let found = replace_uses(alloc, member, &tokens)?;
    if found.uses >= 2 {
        read_twice.push(copy_token(member.name)?)?;
    }
    Ok(Expanded {
        tokens: found.tokens,
        read_twice,
    })
}

/// A query without the members that come before it.
fn without(
    alloc: Global,
    mut members: Vec<Member>,
    query: &[Token],
) -> Result<Expanded, RespellError>
    ensures { Makes spec.said (λ s. s.tokens) result (spec.without (map named_query members.entry.items) (spec.unchanged query.now)) }
{
    let mut expanded = copy_query(alloc, query)?;
    while let Some(member) = members.pop() {
        expanded = without_member(alloc, &member, expanded)?;
    }
    Ok(expanded)
}

/// A query without its WITH clause, if it begins with one that is read; another query stays as it is.
pub fn without_with(alloc: Global, tokens: &[Token]) -> Result<Expanded, RespellError>
    ensures { Makes spec.said (λ s. s.tokens) result (spec.expanded tokens.now) }
{
    let [first, rest @ ..] = tokens else {
        return copy_query(alloc, tokens);
    };
    if !is_with(&first.kind) {
        return copy_query(alloc, tokens);
    }
    match members_at(alloc, rest)? {
        Some((members, query)) if are_distinct(&members) => without(alloc, members, query),
        _ => copy_query(alloc, tokens),
    }
}
