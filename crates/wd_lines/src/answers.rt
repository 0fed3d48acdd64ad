//! The rows in which two answers differ.

ghost use Rattle.std.specs.Prelude.{◌≡◌, length, take, string_bytes, OnErr, OnOk};

use crate::values::{add_plain, add_value};
use crate::words::fault_words;
use std::alloc::Global;
use std::fmt::Write;
use wd_plan::Outcome;
use wd_value::{OutOfMemory, Row, Text, Value, same};

/// The most rows of an answer that are compared.
const MOST_COMPARED: usize = 500;

/// The most rows that are shown.
const MOST_SHOWN: usize = 4;

/// Adds lines for the rows in which two answers differ, by the names of the answer's columns.
pub fn add_answers(
    alloc: Global,
    out: &mut String,
    names: &[Text],
    first: &Outcome,
    second: &Outcome,
) -> Result<(), OutOfMemory>
    ensures appended { OnOk result (take (length (string_bytes out.old)) (string_bytes out.new) ≡ string_bytes out.old) }
    ensures kept { OnErr result (string_bytes out.new ≡ string_bytes out.old) }
{
    let lines = answers_lines(alloc, names, first, second)?;
    Ok(out.push_str(lines.as_str())?)
}

/// Lines for the rows in which two answers differ.
fn answers_lines(
    alloc: Global,
    names: &[Text],
    first: &Outcome,
    second: &Outcome,
) -> Result<String, OutOfMemory> {
    let mut lines = String::new(alloc);
    match (first, second) {
        (Outcome::Rows(first), Outcome::Rows(second)) => {
            add_differing(alloc, &mut lines, names, first, second)?;
        }
        (first, second) => {
            lines.push_str("      = answer: ")?;
            add_outcome(&mut lines, first)?;
            lines.push_str("   or   ")?;
            add_outcome(&mut lines, second)?;
            lines.push('\n')?;
        }
    }
    Ok(lines)
}

/// Adds lines for the rows in which two answers of rows differ.
fn add_differing(
    alloc: Global,
    out: &mut String,
    names: &[Text],
    first: &[Row],
    second: &[Row],
) -> Result<(), OutOfMemory> {
    if first.len() > MOST_COMPARED || second.len() > MOST_COMPARED {
        return add_sizes(out, first.len() as u64, second.len() as u64);
    }
    let left = lacking(alloc, first, second)?;
    let right = lacking(alloc, second, first)?;
    add_pairs(out, names, &left, &right)
}

/// Adds a line for two answers of too many rows to compare.
fn add_sizes(out: &mut String, first: u64, second: u64) -> Result<(), OutOfMemory> {
    Ok(writeln!(out, "      = answer: {first} rows   or   {second} others")?)
}

/// Adds an answer in short.
fn add_outcome(out: &mut String, outcome: &Outcome) -> Result<(), OutOfMemory> {
    match outcome {
        Outcome::Rows(rows) => {
            let count = rows.len();
            Ok(write!(out, "{count} rows")?)
        }
        Outcome::Fault(fault) => Ok(out.push_str(fault_words(*fault))?),
    }
}

/// The rows that appear more often in one list than in another.
fn lacking<'a>(
    alloc: Global,
    rows: &'a [Row],
    others: &[Row],
) -> Result<Vec<&'a Row>, OutOfMemory> {
    let mut found = Vec::new(alloc);
    for (number, row) in rows.iter().enumerate() {
        let so_far = rows
            .iter()
            .take(number)
            .filter(|other| is_same(other, row))
            .count();
        let there = others.iter().filter(|other| is_same(other, row)).count();
        if so_far >= there {
            found.push(row)?;
        }
    }
    Ok(found)
}

/// Whether two rows are the same.
fn is_same(a: &[Value], b: &[Value]) -> bool {
    a.len() == b.len() && a.iter().zip(b).all(|(x, y)| same(x, y))
}

/// Adds a line for each of the rows that only one of two answers has.
fn add_pairs(
    out: &mut String,
    names: &[Text],
    left: &[&Row],
    right: &[&Row],
) -> Result<(), OutOfMemory> {
    let count = left.len().max(right.len());
    for number in 0..count.min(MOST_SHOWN) {
        out.push_str("      = answer: ")?;
        add_side(out, names, left.get(number))?;
        out.push_str("   or   ")?;
        add_side(out, names, right.get(number))?;
        out.push('\n')?;
    }
    if count > MOST_SHOWN {
        let more = count - MOST_SHOWN;
        writeln!(out, "      = and {more} more rows differ")?;
    }
    Ok(())
}

/// Adds a row of an answer, or that there is none.
fn add_side(out: &mut String, names: &[Text], row: Option<&&Row>) -> Result<(), OutOfMemory> {
    match row {
        Some(row) => add_row(out, names, row),
        None => Ok(out.push_str("no row")?),
    }
}

/// Adds the values of a row, each after its column's name.
fn add_row(out: &mut String, names: &[Text], row: &[Value]) -> Result<(), OutOfMemory> {
    let mut names = names.iter();
    for (number, value) in row.iter().enumerate() {
        if number > 0 {
            out.push_str(", ")?;
        }
        if let Some(name) = names.next() {
            add_plain(out, name.as_str())?;
            out.push(' ')?;
        }
        add_value(out, value)?;
    }
    Ok(())
}
