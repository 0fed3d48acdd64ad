//! Numbers for the values of a column: different values have different numbers.

ghost use Rattle.std.specs.Prelude.{◌≡◌, [], ◌∷◌, IfOk, IfSome, length};
ghost use Rattle.wd_sort.specs.Known.{AreKnown};
ghost use Rattle.wd_sort.specs.Numbers.{AreNumbersBy};
ghost use Rattle.wd_value.specs.Bags.{positions as all_of};

use crate::coding::Coding;
use crate::known::Known;
use crate::numbering::numbers_of;
use crate::seeded::Seeded;
use crate::whole::{whole_codes, whole_range};
use std::alloc::Global;
use wd_columns::{RowSource, all_positions};
use wd_value::{OutOfMemory, SortColumn, SortKey, Value};

/// A number for each row, by its position. Two numbers are equal exactly where the rows' values in the column are the same; they don't
/// compare as the values do. The bound is at most three more than the number of rows. Takes time linear in the number of rows: no two
/// texts are compared in order.
pub fn value_numbers(alloc: Global, rows: &RowSource, column: u16) -> Result<Coding, OutOfMemory>
    ensures { IfOk result (λ c. AreNumbersBy (column ∷ []) rows.now c.bound c.codes.items) }
{
    let all = all_positions(alloc, rows.len())?;
    match narrow_numbers(alloc, rows, column, &all)? {
        Some(coding) => Ok(coding),
        None => {
            let no = Value::Bool(false);
            let yes = Value::Bool(true);
            let seeded = Seeded::by_column(rows, column, &all);
            let known = Known::new(alloc, seeded, rows, &no, &yes)?;
            known_numbers(alloc, rows, column, &all, known)
        }
    }
}

/// The numbers of a column whose values are whole numbers in a range that is no wider than the number of rows; otherwise `None`.
fn narrow_numbers(
    alloc: Global,
    rows: &RowSource,
    column: u16,
    all: &[u64],
) -> Result<Option<Coding>, OutOfMemory>
    requires { all.now ≡ all_of (length rows.now) }
    ensures { IfOk result (λ o. IfSome o (λ c. AreNumbersBy (column ∷ []) rows.now c.bound c.codes.items)) }
{
    let key = SortKey {
        desc: false,
        nulls_first: false,
    };
    match whole_range(rows, column, all) {
        Some(range) if range.width() <= rows.len() as u64 => {
            whole_codes(alloc, rows, SortColumn { column, key }, all, range)
        }
        _ => Ok(None),
    }
}

/// The numbers of a column as the places of its values among the distinct ones, beginning with the values already known.
fn known_numbers<'a>(
    alloc: Global,
    rows: &'a RowSource<'_>,
    column: u16,
    all: &[u64],
    known: Known<'a>,
) -> Result<Coding, OutOfMemory>
    requires all { all.now ≡ all_of (length rows.now) }
    requires known { AreKnown known }
    ensures { IfOk result (λ c. AreNumbersBy (column ∷ []) rows.now c.bound c.codes.items) }
{
    let mut known = known;
    let codes = numbers_of(alloc, rows, column, all, &mut known)?;
    let bound = known.values.len() as u64;
    Ok(Coding { codes, bound })
}
