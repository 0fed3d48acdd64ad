//! Queries in which the name of each table is the last of the names joined by dots.

ghost use Rattle.std.specs.Prelude.{◌≡◌, ◌∷◌, [], reverse, IfOk};
ghost use Rattle.wd_clauses.specs.Given.{Makes, Writes};
ghost use Rattle.wd_qualified.specs.Unqualified as spec;
ghost use Rattle.wd_with.specs.declared.place.Place.TheVariants.{Elsewhere};

use std::alloc::Global;
use wd_clauses::{RespellError, add, copy_token, is_name};
use wd_lex::{Terminal, Token, TokenKind};
use wd_with::{Place, is_table, pass};

fn is_dot(kind: &TokenKind) -> bool
    ensures { result ≡ spec.is_dot kind.now }
{
    matches!(kind, TokenKind::Terminal(Terminal::Dot))
}

fn begins_name(tokens: &[Token]) -> bool
    ensures { result ≡ spec.begins_name tokens.now }
{
    match tokens {
        [first, ..] => is_name(&first.kind),
        [] => false,
    }
}

/// Whether the tokens begin with a dot and a name.
fn goes_on(tokens: &[Token]) -> bool
    ensures { result ≡ spec.goes_on tokens.now }
{
    match tokens {
        [dot, rest @ ..] => is_dot(&dot.kind) && begins_name(rest),
        [] => false,
    }
}

/// Whether the token is a name before a dot, or such a dot, where a table is named.
fn is_left_out(levels: &[Place], token: &Token, after: &[Token]) -> bool
    ensures { result ≡ spec.is_left_out (reverse levels.now) token.now after.now }
{
    is_table(levels)
        && (is_name(&token.kind) && goes_on(after) || is_dot(&token.kind) && begins_name(after))
}

/// Adds the token unless it is left out, and passes it.
fn add_kept(
    written: &mut Vec<Token>,
    levels: &mut Vec<Place>,
    left_out: bool,
    token: &Token,
) -> Result<(), RespellError>
    ensures written { Writes written.old.items written.new.items result (spec.kept left_out token.now) }
    ensures levels { IfOk result (λ _. reverse levels.new.items ≡ spec.levels_past left_out (reverse levels.old.items) token.now) }
{
    if left_out {
        return Ok(());
    }
    add(written, copy_token(token)?)?;
    pass(levels, &token.kind)?;
    Ok(())
}

/// The query, with only the last name of each table.
#[tactic(auto, unfolding(crate::specs::Unqualified::unqualified))]
pub fn unqualified_query(alloc: Global, tokens: &[Token]) -> Result<Vec<Token>, RespellError>
    ensures { Makes (λ x. x.items) (λ x. x) result (spec.unqualified (Elsewhere ∷ []) tokens.now) }
{
    let mut written = Vec::new(alloc);
    let mut levels = Vec::new(alloc);
    levels.push(Place::Elsewhere)?;
    let mut rest = tokens;
    while let [first, after @ ..] = rest {
        let left_out = is_left_out(levels.as_slice(), first, after);
        add_kept(&mut written, &mut levels, left_out, first)?;
        rest = after;
    }
    Ok(written)
}
