//! Rows as an expression reads them.

ghost use Rattle.std.specs.Prelude.{◌≡◌, ◌++◌};
ghost use Rattle.wd_scalar.specs.Views.{row_held};
ghost use Rattle.wd_value.specs.Rows.{column_of, row_at};

use std::marker::Model;
use wd_columns::RowSource;
use wd_value::Value;

/// Where the values of a row are.
#[derive(Drop)]
enum Held<'a> {
    /// In the row at a position.
    At(&'a RowSource<'a>, u64),
    /// In the row at a position, and after them in the row at a position of other rows.
    Pair(&'a RowSource<'a>, u64, &'a RowSource<'a>, u64),
}

/// The values of a row, without a copy. Contracts see the row.
#[derive(Drop)]
pub(crate) struct RowView<'a> {
    held: Held<'a>,
}

impl<'a> Model for RowView<'a> {
    ghost use Rattle.wd_value.specs.Rows.{Row};

    ghost Value = { Row };

    ghost use Rattle.wd_scalar.specs.Views.{row_held};

    ghost view = { λ r. row_held r.held };
}

impl<'a> RowView<'a> {
    /// The row at a position.
    pub fn at(rows: &'a RowSource<'a>, position: u64) -> RowView<'a>
        ensures { result ≡ row_at rows.now position }
    {
        RowView {
            held: Held::At(rows, position),
        }
    }

    /// The values of the row at a position, and after them those of the row at a position of other rows.
    pub fn of_pair(
        left: &'a RowSource<'a>,
        first: u64,
        right: &'a RowSource<'a>,
        second: u64,
    ) -> RowView<'a>
        ensures { result ≡ row_at left.now first ++ row_at right.now second }
    {
        RowView {
            held: Held::Pair(left, first, right, second),
        }
    }

    /// The value in a column, and NULL past the last column.
    pub fn value(&self, column: usize) -> &Value
        ensures { result.now ≡ column_of self.now column }
    {
        held_value(&self.held, column)
    }
}

fn held_value<'a>(held: &'a Held, column: usize) -> &'a Value
    ensures { result.now ≡ column_of (row_held held.now) column }
{
    match held {
        Held::At(rows, position) => rows.value(*position, column),
        Held::Pair(left, first, right, second) => {
            value_in_pair(left, *first, right, *second, column)
        }
    }
}

/// The value in a column of a left and a right row concatenated, each at its position, and NULL past the last column.
pub fn value_in_pair<'a>(
    left: &'a RowSource,
    first: u64,
    right: &'a RowSource,
    second: u64,
    column: usize,
) -> &'a Value
    ensures { result.now ≡ column_of (row_at left.now first ++ row_at right.now second) column }
{
    let width = left.width(first);
    if column < width {
        left.value(first, column)
    } else {
        right.value(second, column - width)
    }
}
