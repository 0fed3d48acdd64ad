//! Which columns a try fills equally, and which differ in each row.

ghost use Rattle.std.specs.Prelude.{◌≡◌, map};
ghost use Rattle.std.specs.List.{list_any};
ghost use Rattle.wd_schema.specs.Tables.{key_of};
ghost use Rattle.wd_varied.specs.Places as spec;
ghost use Rattle.wd_varied.specs.Suggested.{hints_of};

use crate::conditions::{Compared, Equated};
use crate::patterns::is_telling;
use crate::pools::Suggested;
use wd_candidates::TableColumn;
use wd_schema::Key;

/// A column of a table, both by number.
#[derive(Clone, Copy)]
pub(crate) struct Place {
    pub table: usize,
    pub column: usize,
}

fn is_at(column: TableColumn, place: Place) -> bool
    ensures { result ≡ spec.is_at column place }
{
    usize::from(column.table) == place.table && usize::from(column.column) == place.column
}

/// Whether an equation names a column.
fn names(equation: &Equated, place: Place) -> bool
    ensures { result ≡ spec.names place equation.now }
{
    is_at(equation.left, place) || is_at(equation.right, place)
}

/// Whether some equation names a column.
fn is_equated(equated: &[Equated], place: Place) -> bool
    ensures { result ≡ spec.is_equated equated.now place }
{
    for equation in equated {
        if names(equation, place) {
            return true;
        }
    }
    false
}

/// The left side of an equation whose right side is this column; otherwise the column.
fn back(equation: &Equated, place: Place) -> Place
    ensures { result ≡ spec.back equation.now place }
{
    if is_at(equation.right, place) {
        Place {
            table: usize::from(equation.left.table),
            column: usize::from(equation.left.column),
        }
    } else {
        place
    }
}

/// The column to which equations lead back from a column, the last equation first.
fn lead(equated: &[Equated], place: Place) -> Place
    ensures { result ≡ spec.lead equated.now place }
{
    match equated {
        [] => place,
        [first, rest @ ..] => back(first, lead(rest, place)),
    }
}

/// Whether the try with this number should meet the plan's conditions: the first two of four should.
fn is_to_meet(number: u32) -> bool
    ensures { result ≡ spec.is_to_meet number }
{
    number % 4 < 2
}

/// The columns that are compared with literals, with the values that they have in the try with this number.
pub(crate) fn suggestions(suggested: &Suggested, number: u32) -> &[Compared]
    ensures { result.now ≡ spec.suggestions (hints_of suggested.now) number }
{
    if is_to_meet(number) {
        &suggested.exact
    } else {
        &suggested.near
    }
}

/// The column like which a column is filled in the try with this number.
pub(crate) fn source(suggested: &Suggested, number: u32, place: Place) -> Place
    ensures { result ≡ spec.source (hints_of suggested.now) number place }
{
    if is_to_meet(number) {
        lead(&suggested.equated, place)
    } else {
        place
    }
}

/// Whether a column differs in each row in the try with this number.
pub(crate) fn differs(suggested: &Suggested, keys: &[Key], number: u32, place: Place) -> bool
    ensures { result ≡ spec.differs (hints_of suggested.now) (map key_of keys.now) number place }
{
    is_telling(keys, place.column, number)
        || is_to_meet(number) && is_equated(&suggested.equated, place)
}
