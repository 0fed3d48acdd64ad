//! The one table of a FROM clause.

ghost use Rattle.std.specs.Prelude.{◌≡◌};
ghost use Rattle.wd_clauses.specs.Given.{Finds};
ghost use Rattle.wd_clauses.specs.Reach.{closing};
ghost use Rattle.wd_grouping.specs.Named as named;
ghost use Rattle.wd_grouping.specs.Pieces as spec;
ghost use Rattle.wd_using.specs.Named.{table_alias};

use wd_clauses::{closing, is_name};
use wd_lex::Token;
use wd_using::{Alias, alias_at, opens};

/// FROM, the name under which the columns of its one table are known, and that name again where the table replaces several tables.
#[derive(Clone, Copy)]
pub struct OneTable<'t> {
    pub from: &'t Token,
    pub alias: &'t Token,
    pub qualifier: Option<&'t Token>,
}

/// A table with this name, which replaces the several tables after FROM.
pub fn tables_called<'t>(from: &'t Token, alias: &'t Token) -> OneTable<'t>
    ensures { named.one_table result ≡ spec.tables_called from.now alias.now }
{
    OneTable {
        from,
        alias,
        qualifier: Some(alias),
    }
}

/// A table, if it and its alias are all that the clause has.
fn if_all<'t>(from: &'t Token, count: usize, alias: Alias<'t>) -> Option<OneTable<'t>>
    ensures { Finds named.one_table result (spec.if_all from.now count (table_alias alias.entry)) }
{
    if alias.count == count {
        return Some(OneTable {
            from,
            alias: alias.name,
            qualifier: None,
        });
    }
    None
}

/// `[AS] alias` after a query in brackets
fn after_query<'t>(from: &'t Token, bracket: &'t Token, tokens: &'t [Token]) -> Option<OneTable<'t>>
    ensures { Finds named.one_table result (spec.after_query from.now bracket.now tokens.now) }
{
    match tokens {
        [_word, ..] => if_all(from, tokens.len() + 1, alias_at(bracket, tokens)),
        [] => None,
    }
}

/// A query in brackets with its alias.
fn derived_table<'t>(
    from: &'t Token,
    bracket: &'t Token,
    tokens: &'t [Token],
) -> Option<OneTable<'t>>
    ensures { Finds named.one_table result (spec.derived_table from.now bracket.now tokens.now (closing tokens.now)) }
{
    match closing(tokens) {
        Some(place) => after_query(from, bracket, &tokens[place + 1..]),
        None => None,
    }
}

/// FROM with a table or a query in brackets, its alias, and nothing else.
pub fn one_table(tokens: &[Token]) -> Option<OneTable<'_>>
    ensures { Finds named.one_table result (spec.one_table tokens.now) }
{
    let [from, first, rest @ ..] = tokens else {
        return None;
    };
    if opens(&first.kind) {
        return derived_table(from, first, rest);
    }
    if is_name(&first.kind) {
        return if_all(from, rest.len() + 1, alias_at(first, rest));
    }
    None
}
