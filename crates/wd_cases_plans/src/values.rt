//! Values, rows, texts and lists of rows.

use crate::shown::{push, push_between, push_comparison, push_row, push_truth, push_value};
use std::alloc::Global;
use wd_cases::{Failure, row_of, rows_of};
use wd_cases_notation::Line;
use wd_value::{SortKey, Text, Value, compare, copy_row, same, same_bag};

pub fn answer(alloc: Global, line: Line, out: &mut String) -> Result<(), Failure> {
    match line.word.name {
        "copies" => copies(alloc, line, out),
        "compare" => comparisons(alloc, line, out),
        "same_bag" => bags(alloc, line, out),
        "copy_row" => row(alloc, line, out),
        "text" => text(alloc, line, out),
        _ => Err(Failure::NoCase),
    }
}

/// `copies ROW`: the copy of each value, and the places of the values that are the same as it.
fn copies(alloc: Global, line: Line, out: &mut String) -> Result<(), Failure> {
    let values = row_of(alloc, line.words, ',')?;
    push_copies(alloc, out, &values)
}

fn push_copies(alloc: Global, out: &mut String, values: &[Value]) -> Result<(), Failure> {
    for (i, value) in values.iter().enumerate() {
        push_between(out, i, "; ")?;
        push_copy(alloc, out, value, values)?;
    }
    Ok(())
}

fn push_copy(
    alloc: Global,
    out: &mut String,
    value: &Value,
    values: &[Value],
) -> Result<(), Failure> {
    let copied = value.copy(alloc)?;
    push_value(out, &copied)?;
    push_same(out, &copied, values)
}

fn push_same(out: &mut String, value: &Value, values: &[Value]) -> Result<(), Failure> {
    for (i, other) in values.iter().enumerate() {
        if same(value, other) {
            write!(out, " {i}")?;
        }
    }
    Ok(())
}

/// `compare(KEY) ROW`: how each value stands beside each.
fn comparisons(alloc: Global, line: Line, out: &mut String) -> Result<(), Failure> {
    let key = line.word.key().ok_or(Failure::NoCase)?;
    let values = row_of(alloc, line.words, ',')?;
    push_comparisons(out, &values, key)
}

fn push_comparisons(out: &mut String, values: &[Value], key: SortKey) -> Result<(), Failure> {
    for (i, value) in values.iter().enumerate() {
        push_between(out, i, " ")?;
        for other in values {
            push_comparison(out, compare(value, other, key))?;
        }
    }
    Ok(())
}

/// `same_bag ROWS : ROWS`
fn bags(alloc: Global, line: Line, out: &mut String) -> Result<(), Failure> {
    let first = rows_of(alloc, line.words, ',')?;
    let second = rows_of(alloc, line.lists, ',')?;
    push_truth(out, same_bag(&first, &second))
}

/// `copy_row ROW`
fn row(alloc: Global, line: Line, out: &mut String) -> Result<(), Failure> {
    let row = row_of(alloc, line.words, ',')?;
    let copied = copy_row(alloc, &row)?;
    push_row(out, &copied)
}

/// `text TEXT`: the copy of the text, its bytes, and the string that it gives back, first with the copy
/// beside it and then without.
fn text(alloc: Global, line: Line, out: &mut String) -> Result<(), Failure> {
    let text = Text::new(alloc, String::from_str(alloc, line.words)?)?;
    let copied = text.copy()?;
    push(out, copied.as_str())?;
    write!(out, " {:?} ", text.as_bytes())?;
    let held = match text.into_string() {
        Ok(_) => return Err(Failure::NoCase),
        Err(held) => held,
    };
    push(out, "shared ")?;
    drop(copied);
    match held.into_string() {
        Ok(string) => push(out, string.as_str()),
        Err(_) => Err(Failure::NoCase),
    }
}
