//! The tables of a query by their places.

ghost use Rattle.std.specs.Prelude.{◌≡◌, IfOk, reverse};
ghost use Rattle.wd_with.specs.Places as spec;

use std::alloc::AllocError;
use wd_lex::{Terminal, TokenKind};

/// The place of a token, as far as tables are concerned.
#[derive(Clone, Copy)]
pub enum Place {
    /// Before SELECT, and after the FROM clause.
    Elsewhere,
    /// Among the items of SELECT.
    Items,
    /// Among the items of SELECT, right after DISTINCT.
    Distinct,
    /// Where a table is expected: after FROM, JOIN or a comma of a FROM clause.
    Table,
    /// Elsewhere in a FROM clause.
    Joined,
}

/// The place after a token that is in no FROM clause and among no items.
fn after_elsewhere(kind: &TokenKind) -> Place
    ensures { result ≡ spec.after_elsewhere kind.now }
{
    match kind {
        TokenKind::Terminal(Terminal::Select) => Place::Items,
        _ => Place::Elsewhere,
    }
}

/// The place after a token among the items of SELECT.
fn after_item(kind: &TokenKind) -> Place
    ensures { result ≡ spec.after_item kind.now }
{
    match kind {
        TokenKind::Terminal(Terminal::Distinct) => Place::Distinct,
        TokenKind::Terminal(Terminal::From) => Place::Table,
        _ => Place::Items,
    }
}

/// The place after a token of a FROM clause.
fn after_table(kind: &TokenKind) -> Place
    ensures { result ≡ spec.after_table kind.now }
{
    match kind {
        TokenKind::Terminal(Terminal::Join | Terminal::Comma) => Place::Table,
        TokenKind::Terminal(
            Terminal::Where
            | Terminal::Group
            | Terminal::Having
            | Terminal::Window
            | Terminal::Order
            | Terminal::Limit
            | Terminal::Offset
            | Terminal::Fetch,
        ) => Place::Elsewhere,
        TokenKind::Terminal(Terminal::Select) => Place::Items,
        _ => Place::Joined,
    }
}

/// The place after a token.
fn place_after(place: Place, kind: &TokenKind) -> Place
    ensures { result ≡ spec.place_after place kind.now }
{
    match place {
        Place::Elsewhere => after_elsewhere(kind),
        Place::Items => after_item(kind),
        Place::Distinct => Place::Items,
        Place::Table | Place::Joined => after_table(kind),
    }
}

/// The place after a bracket opens.
fn inside(place: Place) -> Place
    ensures { result ≡ spec.inside place }
{
    match place {
        Place::Table => Place::Table,
        Place::Elsewhere | Place::Items | Place::Distinct | Place::Joined => Place::Elsewhere,
    }
}

/// Passes a token; the innermost level is the last.
pub fn pass(levels: &mut Vec<Place>, kind: &TokenKind) -> Result<(), AllocError>
    ensures { IfOk result (λ _. reverse levels.new.items ≡ spec.levels_after (reverse levels.old.items) kind.now) }
{
    let Some(place) = levels.pop() else {
        return Ok(());
    };
    match kind {
        TokenKind::Terminal(Terminal::LeftBracket) => {
            levels.push(place_after(place, kind))?;
            levels.push(inside(place))?;
            Ok(())
        }
        TokenKind::Terminal(Terminal::RightBracket) => Ok(()),
        _ => {
            levels.push(place_after(place, kind))?;
            Ok(())
        }
    }
}

/// Whether a table is expected at this place.
pub fn is_table(levels: &[Place]) -> bool
    ensures { result ≡ spec.is_table (reverse levels.now) }
{
    match levels {
        [.., Place::Table] => true,
        _ => false,
    }
}
