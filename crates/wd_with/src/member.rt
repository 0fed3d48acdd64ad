//! The members of a WITH clause.

ghost use Rattle.std.specs.Prelude.{◌≡◌, map, IfOk};
ghost use Rattle.wd_clauses.specs.Reach as reach;
ghost use Rattle.wd_clauses.specs.Given.{Finds};
ghost use Rattle.wd_with.specs.Members as spec;
ghost use Rattle.wd_with.specs.Named.{named_query};

use std::alloc::{AllocError, Global};
use wd_clauses::{closing, is_name, is_same_name};
use wd_lex::{Terminal, Token, TokenKind};

/// A query and its name.
#[derive(Drop)]
pub struct Member<'t> {
    pub name: &'t Token,
    pub query: &'t [Token],
}

pub fn is_as(kind: &TokenKind) -> bool
    ensures { result ≡ spec.is_as kind.now }
{
    matches!(kind, TokenKind::Terminal(Terminal::As))
}

pub fn is_with(kind: &TokenKind) -> bool
    ensures { result ≡ spec.is_with kind.now }
{
    matches!(kind, TokenKind::Terminal(Terminal::With))
}

fn is_comma(kind: &TokenKind) -> bool
    ensures { result ≡ reach.is_comma kind.now }
{
    matches!(kind, TokenKind::Terminal(Terminal::Comma))
}

fn opens(kind: &TokenKind) -> bool
    ensures { result ≡ reach.opens kind.now }
{
    matches!(kind, TokenKind::Terminal(Terminal::LeftBracket))
}

/// Whether the first token is SELECT or WITH.
fn begins_query(tokens: &[Token]) -> bool
    ensures { result ≡ spec.begins spec.is_query tokens.now }
{
    match tokens {
        [first, ..] => matches!(
            first.kind,
            TokenKind::Terminal(Terminal::Select | Terminal::With)
        ),
        [] => false,
    }
}

/// `name AS ( query )`, and the tokens after it.
#[tactic(auto, unfolding(crate::specs::Members::member_at))]
fn member_at(tokens: &[Token]) -> Option<(Member<'_>, &[Token])>
    ensures { Finds (λ x. (named_query x.0, x.1.now)) result (spec.member_at tokens.now) }
{
    let [name, word, bracket, rest @ ..] = tokens else {
        return None;
    };
    if !(is_name(&name.kind) && is_as(&word.kind) && opens(&bracket.kind) && begins_query(rest)) {
        return None;
    }
    match closing(rest) {
        Some(place) => Some((
            Member {
                name,
                query: &rest[..place],
            },
            &rest[place + 1..],
        )),
        None => None,
    }
}

// The most members of a WITH clause.
const MOST_MEMBERS: usize = 64;

/// The tokens after a comma, if they begin with one.
fn past_comma(tokens: &[Token]) -> Option<&[Token]>
    ensures { Finds (λ r. r.now) result (spec.past_comma tokens.now) }
{
    match tokens {
        [first, rest @ ..] => {
            if is_comma(&first.kind) {
                Some(rest)
            } else {
                None
            }
        }
        [] => None,
    }
}

/// `member {, member}`, at most 64, and the tokens after them.
pub fn members_at(
    alloc: Global,
    tokens: &[Token],
) -> Result<Option<(Vec<Member<'_>>, &[Token])>, AllocError>
    ensures { IfOk result (λ found. Finds (λ x. (map named_query x.0.items, x.1.now)) found (spec.members_at spec.most_members tokens.now)) }
{
    let mut members = Vec::new(alloc);
    let mut rest = tokens;
    for _ in 0..MOST_MEMBERS {
        let Some((member, after)) = member_at(rest) else {
            return Ok(None);
        };
        members.push(member)?;
        match past_comma(after) {
            Some(next) => rest = next,
            None => return Ok(Some((members, after))),
        }
    }
    Ok(None)
}

/// Whether a member has that name.
fn has_name(name: &TokenKind, mut members: &[Member]) -> bool
    ensures { result ≡ spec.has_name name.now (map named_query members.entry.now) }
{
    while let [member, rest @ ..] = members {
        if is_same_name(name, &member.name.kind) {
            return true;
        }
        members = rest;
    }
    false
}

/// Whether no two members have one name.
pub fn are_distinct(mut members: &[Member]) -> bool
    ensures { result ≡ spec.are_distinct (map named_query members.entry.now) }
{
    while let [member, rest @ ..] = members {
        if has_name(&member.name.kind, rest) {
            return false;
        }
        members = rest;
    }
    true
}
