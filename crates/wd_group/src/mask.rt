//! GROUPING's mask.

ghost use Rattle.std.specs.Prelude.{◌≡◌, ◌≤◌, length};
ghost use Rattle.wd_plan.specs.Outcomes as spec;

use wd_plan::has_column;

/// A bit for each of the columns, 0 where the set has the column; the last column's bit is the lowest.
pub(crate) fn mask(set: &[u16], columns: &[u16]) -> u32
    requires { length columns.now ≤ 31 }
    ensures { result ≡ spec.mask set.now columns.now }
{
    let mut mask = 0;
    for column in columns {
        let bit = if has_column(set, *column) { 0 } else { 1 };
        mask = 2 * mask + bit;
    }
    mask
}
