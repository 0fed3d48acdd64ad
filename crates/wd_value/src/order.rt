ghost use Rattle.std.specs.Prelude.{◌≡◌};
ghost use Rattle.wd_value.specs.Keys as spec;
ghost use Rattle.wd_value.specs.Order as order;
ghost use Rattle.wd_value.specs.Rows.{column_of};

use crate::value::Value;
use std::cmp::Ordering;

/// The direction of a sort, and whether NULL comes before or after all other values.
#[derive(Clone, Copy, PartialEq, Eq, Debug)]
pub struct SortKey {
    pub desc: bool,
    pub nulls_first: bool,
}

/// A sort key of rows: a column by its number, from 0, and how its values are sorted. A column past a row's last one counts as NULL.
#[derive(Clone, Copy, PartialEq, Eq, Debug)]
pub struct SortColumn {
    pub column: u16,
    pub key: SortKey,
}

/// The order of two values under a sort key. Whole numbers come before texts and texts before truth values; no plan that fits its schema
/// compares values of two of these kinds (this project's choice).
pub fn compare(a: &Value, b: &Value, key: SortKey) -> Ordering
    ensures { result ≡ order.compare key a.now b.now }
{
    match (a, b) {
        (Value::Null, Value::Null) => Ordering::Equal,
        (Value::Null, _) => if key.nulls_first {
            Ordering::Less
        } else {
            Ordering::Greater
        },
        (_, Value::Null) => if key.nulls_first {
            Ordering::Greater
        } else {
            Ordering::Less
        },
        _ => if key.desc {
            compare_ascending(b, a)
        } else {
            compare_ascending(a, b)
        },
    }
}

/// The order of two rows under sort keys: the first key on which they differ decides.
pub fn compare_keys(keys: &[SortColumn], a: &[Value], b: &[Value]) -> Ordering
    ensures { result ≡ spec.compare_keys keys.now a.now b.now }
{
    for key in keys {
        match compare_at(*key, a, b) {
            Ordering::Equal => {}
            found => return found,
        }
    }
    Ordering::Equal
}

fn compare_at(key: SortColumn, a: &[Value], b: &[Value]) -> Ordering
    ensures { result ≡ order.compare key.key (column_of a.now key.column) (column_of b.now key.column) }
{
    let null = Value::Null;
    let column = key.column as usize;
    compare(
        a.get(column).unwrap_or(&null),
        b.get(column).unwrap_or(&null),
        key.key,
    )
}

fn compare_ascending(a: &Value, b: &Value) -> Ordering
    ensures { result ≡ order.compare_ascending a.now b.now }
{
    match (a, b) {
        (Value::Int(m), Value::Int(n)) => m.cmp(n),
        (Value::Text(s), Value::Text(t)) => s.as_bytes().cmp(&t.as_bytes()),
        (Value::Bool(p), Value::Bool(q)) => p.cmp(q),
        _ => type_rank(a).cmp(&type_rank(b)),
    }
}

fn type_rank(a: &Value) -> u8
    ensures { result ≡ order.type_rank_of a.now }
{
    match a {
        Value::Int(_) => 0,
        Value::Text(_) => 1,
        Value::Bool(_) => 2,
        Value::Null => 3,
    }
}
