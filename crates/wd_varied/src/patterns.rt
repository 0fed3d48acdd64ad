//! How the values of a column vary from row to row.

ghost use Rattle.std.specs.Prelude.{◌≡◌, ◌++◌, map, IfOk};
ghost use Rattle.std.specs.String.{string_bytes};
ghost use Rattle.wd_schema.specs.Tables.{key_of};
ghost use Rattle.wd_varied.specs.Patterns.{filling_of};
ghost use Rattle.wd_varied.specs.Patterns as spec;
ghost use Rattle.wd_varied.specs.Values as values;

use crate::pools::Suggested;
use std::alloc::Global;
use wd_schema::{Column, Key};
use wd_value::{ColumnType, OutOfMemory, Text, Value};

/// How the values of a column vary from row to row.
#[derive(Clone, Copy)]
pub(crate) enum Pattern {
    /// One value of the pool in all rows.
    Same(u64),
    /// The values of the pool in turn, from this one on.
    InTurn(u64),
    /// A different value in each row.
    Apart,
    /// A different value in each row, from this value of the pool on.
    ApartFrom(u64),
    /// A different value in each row, except that the last two rows share one.
    LastTwoAlike,
    /// One value in all rows but the last, which has another one.
    LastApart,
    /// One value in all rows but the first, which has another one.
    FirstApart,
    /// NULL in all rows.
    Null,
}

/// How a column is filled: by a pattern, with the values of its type and of its pool.
#[derive(Drop)]
pub(crate) struct Filling {
    pub pattern: Pattern,
    pub kind: ColumnType,
    /// The values that comparisons with the column suggest; without any, the pool has the values of the column's type among all values.
    pub own: Vec<Value>,
}

/// Whether some key of a table distinguishes rows by a column, in the try with a number.
pub(crate) fn is_telling(keys: &[Key], column: usize, number: u32) -> bool
    ensures { result ≡ spec.is_telling number column (map key_of keys.now) }
{
    for key in keys {
        if tells(key, column, number) {
            return true;
        }
    }
    false
}

/// Whether a key distinguishes rows by a column: by each of its columns in turn, by the number.
fn tells(key: &Key, column: usize, number: u32) -> bool
    ensures { result ≡ spec.tells number column (key_of key.now) }
{
    if key.columns.is_empty() {
        return false;
    }
    match key.columns.get(number as usize % key.columns.len()) {
        Some(own) => usize::from(*own) == column,
        None => false,
    }
}

/// A pseudo-random number for a column of a table of `rows` rows, in the try with a number.
pub(crate) fn draw(rows: u32, number: u32, table: usize, column: usize) -> u64
    ensures { result ≡ spec.drawn rows number table column }
{
    let place = column as u128 + 64 * (table as u128);
    let seed = ((u128::from(number) + 1000 * place + 100_003 * u128::from(rows)) % 999_983) as u64;
    seed * seed * seed % 999_983
}

/// How a column varies, by its pseudo-random number, and by whether a key distinguishes rows by it.
pub(crate) fn pattern_of(drawn: u64, column: &Column, telling: bool) -> Pattern
    ensures { result ≡ spec.pattern_by telling column.now drawn }
{
    let from = drawn / 16;
    let side = drawn % 16;
    if telling {
        if side < 8 {
            Pattern::Apart
        } else {
            Pattern::ApartFrom(from)
        }
    } else if side < 6 {
        Pattern::Same(from)
    } else if side < 10 {
        Pattern::InTurn(from)
    } else if side < 12 {
        Pattern::Apart
    } else if side < 13 {
        Pattern::LastTwoAlike
    } else if side < 14 {
        Pattern::LastApart
    } else if side < 15 {
        Pattern::FirstApart
    } else if column.not_null {
        Pattern::InTurn(from)
    } else {
        Pattern::Null
    }
}

/// The value of a filling in the row with a number, of the given number of rows.
pub(crate) fn fill(
    alloc: Global,
    suggested: &Suggested,
    filling: &Filling,
    rows: u32,
    row: u32,
) -> Result<Value, OutOfMemory>
    ensures { IfOk result (λ v. v ≡ spec.filled (filling_of suggested.now.all.items filling.now) rows row) }
{
    match filling.pattern {
        Pattern::Same(from) => value_at(alloc, suggested.pool(filling), u128::from(from)),
        Pattern::InTurn(from) => {
            value_at(
                alloc,
                suggested.pool(filling),
                u128::from(from) + u128::from(row),
            )
        }
        Pattern::Apart => apart(alloc, filling.kind, row),
        Pattern::ApartFrom(from) => {
            let first = value_at(alloc, suggested.pool(filling), u128::from(from))?;
            apart_from(alloc, first, filling.kind, row)
        }
        Pattern::LastTwoAlike => apart(alloc, filling.kind, row.min(rows.saturating_sub(2))),
        Pattern::LastApart => apart(
            alloc,
            filling.kind,
            row.saturating_sub(rows.saturating_sub(2)),
        ),
        Pattern::FirstApart => apart(alloc, filling.kind, row.min(1)),
        Pattern::Null => Ok(Value::Null),
    }
}

/// The value of a pool with this number, which wraps around; NULL where the pool is empty.
fn value_at(alloc: Global, pool: &[Value], number: u128) -> Result<Value, OutOfMemory>
    ensures { IfOk result (λ v. v ≡ spec.value_at pool.now number) }
{
    if pool.is_empty() {
        return Ok(Value::Null);
    }
    pool[(number % pool.len() as u128) as usize].copy(alloc)
}

/// The value of a type with this number; different numbers have different values, except for truth values.
fn apart(alloc: Global, kind: ColumnType, number: u32) -> Result<Value, OutOfMemory>
    ensures { IfOk result (λ v. v ≡ values.apart kind number) }
{
    match kind {
        ColumnType::SmallInt | ColumnType::Integer | ColumnType::BigInt => {
            Ok(Value::Int(i64::from(number) + 1))
        }
        ColumnType::Text => word(alloc, number),
        ColumnType::Boolean => Ok(Value::Bool(number % 2 == 1)),
    }
}

/// The value with this number of those that begin with a value: a whole number and the next ones, or a text and longer ones; different
/// numbers have different values.
fn apart_from(
    alloc: Global,
    first: Value,
    kind: ColumnType,
    number: u32,
) -> Result<Value, OutOfMemory>
    ensures { IfOk result (λ v. v ≡ values.apart_from first kind number) }
{
    match first {
        Value::Int(first) => match i64::try_from(i128::from(first) + i128::from(number)) {
            Ok(value) => Ok(Value::Int(value)),
            Err(_) => apart(alloc, kind, number),
        },
        Value::Text(text) if number == 0 => Ok(Value::Text(text)),
        Value::Text(text) => with_word(alloc, &text, number - 1),
        Value::Null | Value::Bool(_) => apart(alloc, kind, number),
    }
}

/// A text followed by the word of this number.
fn with_word(alloc: Global, text: &Text, number: u32) -> Result<Value, OutOfMemory>
    ensures { IfOk result (λ v. v ≡ spec.text (text.now ++ values.word number)) }
{
    let mut longer = String::from_str(alloc, text.as_str())?;
    push_word(number, &mut longer)?;
    Ok(Value::Text(Text::new(alloc, longer)?))
}

/// The word with this number.
fn word(alloc: Global, number: u32) -> Result<Value, OutOfMemory>
    ensures { IfOk result (λ v. v ≡ spec.text (values.word number)) }
{
    let mut word = String::new(alloc);
    push_word(number, &mut word)?;
    Ok(Value::Text(Text::new(alloc, word)?))
}

/// Appends the word with this number: of one letter, then of two.
fn push_word(number: u32, text: &mut String) -> Result<(), OutOfMemory>
    ensures { IfOk result (λ _. string_bytes text.new ≡ string_bytes text.old ++ values.word number) }
{
    if number >= 8 {
        text.push_str(letter(number / 8 - 1))?;
    }
    text.push_str(letter(number))?;
    Ok(())
}

/// Eight letters in turn.
fn letter(number: u32) -> &'static str
    ensures { result.now ≡ values.letter number }
{
    match number % 8 {
        0 => "a",
        1 => "b",
        2 => "c",
        3 => "d",
        4 => "e",
        5 => "f",
        6 => "g",
        _ => "h",
    }
}
