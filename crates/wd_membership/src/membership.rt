//! Tests of whether a row is among others: IN and EXISTS, each with a query.

ghost use Rattle.std.specs.Prelude.{◌≡◌, false, map, IfOk};
ghost use Rattle.wd_clauses.specs.Given.{Finds};
ghost use Rattle.wd_membership.specs.Memberships as spec;
ghost use Rattle.wd_membership.specs.Named as named;
ghost use Rattle.wd_using.specs.Named.{pieces};

use crate::conjunct::{Conjunct, stands};
use crate::exists::exists_at;
use crate::kind::{begins_star, is_end, is_in};
use crate::query::query_in;
use std::alloc::{AllocError, Global};
use wd_clauses::{Stop, split};
use wd_distinct_on::split_at_place;
use wd_lex::Token;
use wd_operands::operand_length;
use wd_using::{Extent, Select, after_as};

/// A test of whether a row is among others.
#[derive(Clone, Copy)]
pub enum Test {
    In,
    Exists,
}

/// A value of the select, and the value of the query that it is to equal.
#[derive(Clone, Copy)]
pub struct Pair<'t> {
    pub outer: &'t [Token],
    pub inner: &'t [Token],
}

/// IN or EXISTS: the word, what is compared, and the parts of the query: SELECT, FROM with its tables, its conjuncts, and other clauses.
#[derive(Drop)]
pub struct Membership<'t> {
    pub test: Test,
    pub word: &'t Token,
    pub pairs: Vec<Pair<'t>>,
    pub select: &'t Token,
    pub tables: &'t [Token],
    pub conjuncts: Vec<Conjunct<'t>>,
    pub clauses: &'t [Token],
}

/// A conjunct, and the membership that it is, if any.
#[derive(Drop)]
pub struct Member<'t> {
    pub conjunct: Conjunct<'t>,
    pub membership: Option<Membership<'t>>,
}

/// The value of an item, without AS and a name.
fn value_of(item: &[Token]) -> &[Token]
    ensures { result.now ≡ spec.value_of item.now }
{
    let count = item.len().saturating_sub(2);
    match after_as(&item[count..]) {
        Some(_) => &item[..count],
        None => item,
    }
}

/// Whether the query has one item, which does not end with a star.
fn is_value(items: &[Token]) -> bool
    ensures { result ≡ spec.is_value items.now }
{
    let (_item, following) = split(Stop::Comma, items);
    is_end(following) && !begins_star(&items[items.len().saturating_sub(1)..])
}

/// `x IN ( select )`, if the query has one item, and its rows do not depend on their order.
fn in_query<'t>(
    alloc: Global,
    operand: &'t [Token],
    word: &'t Token,
    select: &Select<'t>,
) -> Result<Option<Membership<'t>>, AllocError>
    ensures { IfOk result (λ found. Finds named.membership found (spec.in_query operand.now word.now (pieces select.now))) }
{
    if !is_value(select.items) || stands(Extent::Limit, select.clauses) {
        return Ok(None);
    }
    let pair = Pair {
        outer: operand,
        inner: value_of(select.items),
    };
    let pairs = Vec::from_slice(alloc, &[pair])?;
    Ok(Some(Membership {
        test: Test::In,
        word,
        pairs,
        select: select.select,
        tables: select.tables,
        conjuncts: Vec::new(alloc),
        clauses: select.clauses,
    }))
}

/// `IN ( query )` after an operand.
fn after_operand<'t>(
    alloc: Global,
    operand: &'t [Token],
    tokens: &'t [Token],
) -> Result<Option<Membership<'t>>, AllocError>
    ensures { IfOk result (λ found. Finds named.membership found (spec.after_operand operand.now tokens.now)) }
{
    let [word, rest @ ..] = tokens else {
        return Ok(None);
    };
    if is_end(operand) || !is_in(&word.kind) {
        return Ok(None);
    }
    match query_in(rest) {
        Some(select) => in_query(alloc, operand, word, &select),
        None => Ok(None),
    }
}

/// `x IN ( query )`, and nothing else.
fn in_at(alloc: Global, tokens: &[Token]) -> Result<Option<Membership<'_>>, AllocError>
    ensures { IfOk result (λ found. Finds named.membership found (spec.in_at tokens.now)) }
{
    let (operand, following) = split_at_place(operand_length(tokens), tokens);
    after_operand(alloc, operand, following)
}

/// The membership that the tokens are.
#[tactic(auto, unfolding(crate::specs::Memberships::membership_at))]
fn membership_at(alloc: Global, tokens: &[Token]) -> Result<Option<Membership<'_>>, AllocError>
    ensures { IfOk result (λ found. Finds named.membership found (spec.membership_at tokens.now)) }
{
    match exists_at(alloc, tokens)? {
        Some(membership) => Ok(Some(membership)),
        None => in_at(alloc, tokens),
    }
}

/// A conjunct as it is read.
fn member_of<'t>(
    alloc: Global,
    is_after: bool,
    conjunct: Conjunct<'t>,
) -> Result<Member<'t>, AllocError>
    ensures { IfOk result (λ x. named.member x ≡ spec.member_of is_after (named.conjunct conjunct.entry)) }
{
    if is_after {
        return Ok(Member {
            conjunct,
            membership: None,
        });
    }
    let membership = membership_at(alloc, conjunct.test)?;
    Ok(Member {
        conjunct,
        membership,
    })
}

/// The conjuncts as they are read.
pub fn members<'t>(alloc: Global, conjuncts: &[Conjunct<'t>]) -> Result<Vec<Member<'t>>, AllocError>
    ensures { IfOk result (λ x. map named.member x.items ≡ spec.members false (map named.conjunct conjuncts.now)) }
{
    let mut members = Vec::new(alloc);
    let mut is_after = false;
    let mut rest = conjuncts;
    while let [conjunct, after @ ..] = rest {
        members.push(member_of(alloc, is_after, *conjunct)?)?;
        is_after = stands(Extent::Between, conjunct.test);
        rest = after;
    }
    Ok(members)
}

/// Whether one of the conjuncts is a membership.
pub fn has_membership(mut members: &[Member]) -> bool
    ensures { result ≡ spec.has_membership (map named.member members.entry.now) }
{
    while let [member, rest @ ..] = members {
        if member.membership.is_some() {
            return true;
        }
        members = rest;
    }
    false
}
