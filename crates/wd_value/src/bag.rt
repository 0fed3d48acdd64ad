ghost use Rattle.std.specs.Prelude.{◌≡◌, ◌↔◌, IsTrue, All};
ghost use Rattle.wd_value.specs.Bags.{SameBag, times};
ghost use Rattle.wd_value.specs.Rows.{rows_of};
ghost use Rattle.wd_value.specs.Rows as spec;

use crate::value::{Row, Value, same};

/// Whether each row appears equally often in both lists. Takes no memory; the time is linear in the product of the lengths.
pub fn same_bag(first: &[Row], second: &[Row]) -> bool
    ensures { IsTrue result ↔ SameBag spec.same_row (rows_of first.now) (rows_of second.now) }
{
    count_equally(first, first, second) && count_equally(second, first, second)
}

// Whether each of the rows appears equally often in both lists.
fn count_equally(rows: &[Row], first: &[Row], second: &[Row]) -> bool
    ensures { IsTrue result ↔ All (λ r. times spec.same_row r.items (rows_of first.now) ≡ times spec.same_row r.items (rows_of second.now)) rows.now }
{
    for row in rows {
        if count(row, first) != count(row, second) {
            return false;
        }
    }
    true
}

// How often a row appears in a list.
fn count(row: &[Value], rows: &[Row]) -> usize
    ensures { result ≡ times spec.same_row row.now (rows_of rows.now) }
{
    rows.iter().filter(|other| same_row(row, other)).count()
}

fn same_row(a: &[Value], b: &[Value]) -> bool
    ensures { result ≡ spec.same_row a.now b.now }
{
    is_equal(a, b)
}

fn is_equal(a: &[Value], b: &[Value]) -> bool
    ensures { IsTrue result ↔ (a.now ≡ b.now) }
{
    if a.len() != b.len() {
        return false;
    }
    for i in 0..a.len() {
        if !same(&a[i], &b[i]) {
            return false;
        }
    }
    true
}
