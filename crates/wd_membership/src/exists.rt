//! EXISTS of a query of one table, some of whose columns equal columns of the select.

ghost use Rattle.std.specs.Prelude.{◌≡◌, false, map, IfOk};
ghost use Rattle.wd_clauses.specs.Given.{Finds};
ghost use Rattle.wd_membership.specs.Memberships as spec;
ghost use Rattle.wd_membership.specs.Named as named;
ghost use Rattle.wd_using.specs.Named.{pieces};

use crate::conjunct::{Conjunct, conjuncts, stands};
use crate::kind::{begins_dot, has_bracket, is_end, is_equals, is_exists};
use crate::membership::{Membership, Pair, Test};
use crate::query::query_in;
use std::alloc::{AllocError, Global};
use wd_clauses::{Stop, is_name, is_same_name, split};
use wd_distinct_on::{is_dot, split_at_place};
use wd_lex::Token;
use wd_using::{Extent, Select, alias_at};

/// `FROM u [[AS] a]`, and nothing else: the name before the columns of u.
fn name_of_table(tokens: &[Token]) -> Option<&Token>
    ensures { Finds (λ name. name.now) result (spec.name_of_table tokens.now) }
{
    let [_from, table, rest @ ..] = tokens else {
        return None;
    };
    let alias = alias_at(table, rest);
    let (_table, following) = split_at_place(alias.count, &tokens[1..]);
    if is_name(&table.kind) && is_end(following) {
        Some(alias.name)
    } else {
        None
    }
}

/// `a.k`, and nothing else: the name before the dot.
fn table_of_column(tokens: &[Token]) -> Option<&Token>
    ensures { Finds (λ name. name.now) result (spec.table_of_column tokens.now) }
{
    match tokens {
        [table, dot, column]
            if is_name(&table.kind) && is_dot(&dot.kind) && is_name(&column.kind) => Some(table),
        _ => None,
    }
}

/// A column of the query's own table, and one of another.
fn pair_of<'t>(
    alias: &Token,
    left: &'t [Token],
    right: &'t [Token],
    table: &Token,
    other: &Token,
) -> Option<Pair<'t>>
    ensures { Finds named.pair result (spec.paired alias.now left.now right.now table.now other.now) }
{
    let is_left = is_same_name(&alias.kind, &table.kind);
    let is_right = is_same_name(&alias.kind, &other.kind);
    if is_left && !is_right {
        return Some(Pair {
            outer: right,
            inner: left,
        });
    }
    if is_right && !is_left {
        return Some(Pair {
            outer: left,
            inner: right,
        });
    }
    None
}

/// A pair of columns.
fn if_columns<'t>(alias: &Token, left: &'t [Token], right: &'t [Token]) -> Option<Pair<'t>>
    ensures { Finds named.pair result (spec.if_columns alias.now left.now right.now) }
{
    let Some(table) = table_of_column(left) else {
        return None;
    };
    match table_of_column(right) {
        Some(other) => pair_of(alias, left, right, table, other),
        None => None,
    }
}

/// `= t.j` after a column.
fn after_column<'t>(alias: &Token, left: &'t [Token], tokens: &'t [Token]) -> Option<Pair<'t>>
    ensures { Finds named.pair result (spec.after_column alias.now left.now tokens.now) }
{
    match tokens {
        [word, right @ ..] if is_equals(&word.kind) => if_columns(alias, left, right),
        _ => None,
    }
}

/// `a.k = t.j` or `t.j = a.k`, unless it comes after the AND of BETWEEN.
fn pair_in<'t>(alias: &Token, is_after: bool, tokens: &'t [Token]) -> Option<Pair<'t>>
    ensures { Finds named.pair result (spec.pair_in alias.now is_after tokens.now) }
{
    if is_after {
        return None;
    }
    let (left, following) = split_at_place(3, tokens);
    after_column(alias, left, following)
}

/// The pairs among conjuncts.
fn pairs_in<'t>(
    alloc: Global,
    alias: &Token,
    conjuncts: &[Conjunct<'t>],
) -> Result<Vec<Pair<'t>>, AllocError>
    ensures { IfOk result (λ x. map named.pair x.items ≡ spec.pairs_in alias.now false (map named.conjunct conjuncts.now)) }
{
    let mut pairs = Vec::new(alloc);
    let mut is_after = false;
    let mut rest = conjuncts;
    while let [conjunct, after @ ..] = rest {
        if let Some(pair) = pair_in(alias, is_after, conjunct.test) {
            pairs.push(pair)?;
        }
        is_after = stands(Extent::Between, conjunct.test);
        rest = after;
    }
    Ok(pairs)
}

/// The other conjuncts.
fn others_in<'t>(
    alloc: Global,
    alias: &Token,
    conjuncts: &[Conjunct<'t>],
) -> Result<Vec<Conjunct<'t>>, AllocError>
    ensures { IfOk result (λ x. map named.conjunct x.items ≡ spec.others_in alias.now false (map named.conjunct conjuncts.now)) }
{
    let mut others = Vec::new(alloc);
    let mut is_after = false;
    let mut rest = conjuncts;
    while let [conjunct, after @ ..] = rest {
        if pair_in(alias, is_after, conjunct.test).is_none() {
            others.push(*conjunct)?;
        }
        is_after = stands(Extent::Between, conjunct.test);
        rest = after;
    }
    Ok(others)
}

/// Whether the tokens have no column of another table.
fn is_own(alias: &Token, mut tokens: &[Token]) -> bool
    ensures { result ≡ spec.is_own alias.now tokens.entry.now }
{
    while let [name, rest @ ..] = tokens {
        if begins_dot(rest) && !is_same_name(&alias.kind, &name.kind) {
            return false;
        }
        tokens = rest;
    }
    true
}

/// Whether the conjuncts have no column of another table.
fn are_own(alias: &Token, mut conjuncts: &[Conjunct]) -> bool
    ensures { result ≡ spec.are_own alias.now (map named.conjunct conjuncts.entry.now) }
{
    while let [conjunct, rest @ ..] = conjuncts {
        if !is_own(alias, conjunct.test) {
            return false;
        }
        conjuncts = rest;
    }
    true
}

/// The membership of a pair or more, if nothing else is compared with another table's column.
fn membership_of_pairs<'t>(
    word: &'t Token,
    select: &Select<'t>,
    pairs: Vec<Pair<'t>>,
    others: Vec<Conjunct<'t>>,
    alias: &Token,
) -> Option<Membership<'t>>
    ensures { Finds named.membership result (spec.parted word.now (pieces select.now) (map named.pair pairs.entry.items) (map named.conjunct others.entry.items) alias.now) }
{
    if pairs.is_empty() || !are_own(alias, &others) {
        None
    } else {
        Some(Membership {
            test: Test::Exists,
            word,
            pairs,
            select: select.select,
            tables: select.tables,
            conjuncts: others,
            clauses: &select.clauses[select.clauses.len()..],
        })
    }
}

/// The membership of these conjuncts.
fn with_conjuncts<'t>(
    alloc: Global,
    word: &'t Token,
    select: &Select<'t>,
    alias: &Token,
    conjuncts: &[Conjunct<'t>],
) -> Result<Option<Membership<'t>>, AllocError>
    ensures { IfOk result (λ found. Finds named.membership found (spec.with_conjuncts word.now (pieces select.now) alias.now (map named.conjunct conjuncts.now))) }
{
    let pairs = pairs_in(alloc, alias, conjuncts)?;
    let others = others_in(alloc, alias, conjuncts)?;
    Ok(membership_of_pairs(word, select, pairs, others, alias))
}

/// The membership of these conditions.
fn with_conditions<'t>(
    alloc: Global,
    word: &'t Token,
    select: &Select<'t>,
    alias: &Token,
    conditions: &'t [Token],
) -> Result<Option<Membership<'t>>, AllocError>
    ensures { IfOk result (λ found. Finds named.membership found (spec.with_conditions word.now (pieces select.now) conditions.now alias.now)) }
{
    match conjuncts(alloc, conditions)? {
        Some(conjuncts) => with_conjuncts(alloc, word, select, alias, &conjuncts),
        None => Ok(None),
    }
}

/// The membership, if the query has one table, no clause after WHERE, and no call among its items.
fn exists_query<'t>(
    alloc: Global,
    word: &'t Token,
    select: &Select<'t>,
) -> Result<Option<Membership<'t>>, AllocError>
    ensures { IfOk result (λ found. Finds named.membership found (spec.exists_query word.now (pieces select.now))) }
{
    let (conditions, later) = split(Stop::Later, select.clauses);
    if has_bracket(select.items) || !is_end(later) {
        return Ok(None);
    }
    match name_of_table(select.tables) {
        Some(alias) => with_conditions(alloc, word, select, alias, conditions),
        None => Ok(None),
    }
}

/// `EXISTS ( query )`, and nothing else.
pub fn exists_at(alloc: Global, tokens: &[Token]) -> Result<Option<Membership<'_>>, AllocError>
    ensures { IfOk result (λ found. Finds named.membership found (spec.exists_at tokens.now)) }
{
    let [word, rest @ ..] = tokens else {
        return Ok(None);
    };
    if !is_exists(&word.kind) {
        return Ok(None);
    }
    match query_in(rest) {
        Some(select) => exists_query(alloc, word, &select),
        None => Ok(None),
    }
}
