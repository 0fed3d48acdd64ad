//! The pieces of a select with DISTINCT ON.

ghost use Rattle.std.specs.Prelude.{◌≡◌, ◌+◌, Some, drop};
ghost use Rattle.wd_clauses.specs.Given.{Finds};
ghost use Rattle.wd_clauses.specs.Reach.{closing, ends_level, opens};
ghost use Rattle.wd_distinct_on.specs.Kinds.{begins, is_from};
ghost use Rattle.wd_distinct_on.specs.Named.{order_pieces, pieces};
ghost use Rattle.wd_distinct_on.specs.Pieces as spec;

use crate::kind::{is_by, is_distinct, is_from, is_on, is_order, is_select};
use wd_clauses::{Stop, closing, split};
use wd_lex::{Terminal, Token, TokenKind};

/// ORDER BY and its keys, or nothing, and what follows.
#[derive(Clone, Copy)]
pub struct Order<'t> {
    pub words: &'t [Token],
    pub keys: &'t [Token],
    pub after: &'t [Token],
}

/// `SELECT DISTINCT ON ( keys ) items FROM .. [ORDER BY keys]`, and what follows it.
#[derive(Clone, Copy)]
pub struct Select<'t> {
    pub select: &'t Token,
    pub distinct: &'t Token,
    pub keys: &'t [Token],
    pub items: &'t [Token],
    pub from: &'t [Token],
    pub order: Order<'t>,
}

/// `[ORDER BY keys]`
fn order_at(tokens: &[Token]) -> Order<'_>
    ensures { order_pieces result ≡ spec.order_at tokens.now }
{
    match tokens {
        [order, by, rest @ ..] if is_order(&order.kind) && is_by(&by.kind) => {
            let (keys, after) = split(Stop::Later, rest);
            Order {
                words: &tokens[..2],
                keys,
                after,
            }
        }
        _ => Order {
            words: &tokens[..0],
            keys: &tokens[..0],
            after: tokens,
        },
    }
}

/// Whether the tokens are at the end of their level.
fn ends(tokens: &[Token]) -> bool
    ensures { result ≡ spec.ends tokens.now }
{
    match tokens {
        [first, ..] => matches!(
            first.kind,
            TokenKind::Terminal(Terminal::RightBracket | Terminal::Semicolon)
        ),
        [] => true,
    }
}

/// Whether the tokens begin with FROM.
fn begins_from(tokens: &[Token]) -> bool
    ensures { result ≡ begins is_from tokens.now }
{
    match tokens {
        [first, ..] => is_from(&first.kind),
        [] => false,
    }
}

/// A select, by what follows its items.
fn after_items<'t>(
    select: &'t Token,
    distinct: &'t Token,
    keys: &'t [Token],
    items: &'t [Token],
    tokens: &'t [Token],
) -> Option<Select<'t>>
    ensures { Finds pieces result (spec.after_items select.now distinct.now keys.now items.now tokens.now) }
{
    let (from, following) = split(Stop::Later, tokens);
    let order = order_at(following);
    if begins_from(tokens) && ends(order.after) {
        return Some(Select {
            select,
            distinct,
            keys,
            items,
            from,
            order,
        });
    }
    None
}

/// A select, by what follows the bracket that opens before its keys.
fn after_keys<'t>(select: &'t Token, distinct: &'t Token, tokens: &'t [Token]) -> Option<Select<'t>>
    ensures { Finds pieces result (spec.after_keys select.now distinct.now tokens.now (closing tokens.now)) }
{
    match closing(tokens) {
        Some(place) => {
            let (items, rest) = split(Stop::From, &tokens[place + 1..]);
            after_items(select, distinct, &tokens[..place], items, rest)
        }
        None => None,
    }
}

fn opens(kind: &TokenKind) -> bool
    ensures { result ≡ opens kind.now }
{
    matches!(kind, TokenKind::Terminal(Terminal::LeftBracket))
}

/// Whether the tokens begin with `SELECT DISTINCT ON (`.
pub fn begins_select(tokens: &[Token]) -> bool
    ensures { result ≡ spec.begins_select tokens.now }
{
    match tokens {
        [select, distinct, on, bracket, ..] => {
            is_select(&select.kind)
                && is_distinct(&distinct.kind)
                && is_on(&on.kind)
                && opens(&bracket.kind)
        }
        _ => false,
    }
}

/// The select with DISTINCT ON that begins here.
#[tactic(auto, unfolding(crate::specs::Pieces::select_at))]
pub fn select_at(tokens: &[Token]) -> Option<Select<'_>>
    ensures { Finds pieces result (spec.select_at tokens.now) }
{
    match tokens {
        [select, distinct, on, bracket, rest @ ..] => {
            if is_select(&select.kind)
                && is_distinct(&distinct.kind)
                && is_on(&on.kind)
                && opens(&bracket.kind)
            {
                return after_keys(select, distinct, rest);
            }
            None
        }
        _ => None,
    }
}
