//! The two answers that a witness shows.

ghost use Rattle.std.specs.Prelude.{◌≡◌, length, take, OnErr, OnOk};

use crate::tables::{add_cell, begin_table, class_of, end_table};
use crate::words::fault_words;
use std::alloc::Global;
use wd_markup::{Class, Page, Tag};
use wd_plan::Outcome;
use wd_value::{OutOfMemory, Row, Text, Value, same};

/// The most rows of an answer that are compared.
const MOST_COMPARED: usize = 500;

/// The most rows of an answer that are shown in full. Of longer answers only the rows are shown in which they differ.
const MOST_SHOWN: usize = 24;

/// A row of an answer compared with the other answer.
#[derive(Clone, Copy)]
enum Standing {
    /// The other answer has the row, too.
    Shared,
    /// Only this answer has the row.
    Alone,
    /// Only this answer has the row, and in its place the other one has the row with this number.
    Beside(usize),
}

/// Adds two answers side by side, with marks where they differ.
pub fn add_answers(
    alloc: Global,
    page: &mut Page,
    names: &[Text],
    first: &Outcome,
    second: &Outcome,
) -> Result<(), OutOfMemory>
    ensures appended { OnOk result (take (length page.old) page.new ≡ page.old) }
    ensures kept { OnErr result (page.new ≡ page.old) }
{
    let part = answers_part(alloc, names, first, second)?;
    Ok(page.append(&part)?)
}

/// Two answers side by side.
fn answers_part(
    alloc: Global,
    names: &[Text],
    first: &Outcome,
    second: &Outcome,
) -> Result<Page, OutOfMemory> {
    let mut page = Page::new(alloc);
    page.open(Tag::Division, Class::Side)?;
    add_answer(alloc, &mut page, "One answer", names, first, second)?;
    add_answer(alloc, &mut page, "Another answer", names, second, first)?;
    page.close(Tag::Division)?;
    Ok(page)
}

/// Adds an answer beside another one.
fn add_answer(
    alloc: Global,
    page: &mut Page,
    caption: &str,
    names: &[Text],
    answer: &Outcome,
    other: &Outcome,
) -> Result<(), OutOfMemory> {
    begin_table(page, caption)?;
    add_names(page, names)?;
    match (answer, other) {
        (Outcome::Rows(rows), Outcome::Rows(others)) => add_rows(alloc, page, rows, others)?,
        (Outcome::Rows(rows), Outcome::Fault(_)) => add_rows(alloc, page, rows, &[])?,
        (Outcome::Fault(fault), _) => add_remark(page, fault_words(*fault))?,
    }
    end_table(page)
}

/// Adds the names of an answer's columns.
fn add_names(page: &mut Page, names: &[Text]) -> Result<(), OutOfMemory> {
    page.open(Tag::Row, Class::Plain)?;
    for name in names {
        page.element(Tag::HeadCell, Class::Plain, name.as_bytes())?;
    }
    Ok(page.close(Tag::Row)?)
}

/// Adds a row with a remark in place of values.
fn add_remark(page: &mut Page, remark: &str) -> Result<(), OutOfMemory> {
    page.open(Tag::Row, Class::Plain)?;
    page.element(Tag::DataCell, Class::Soft, remark.as_bytes())?;
    Ok(page.close(Tag::Row)?)
}

/// Adds the rows of an answer, with marks where the other one differs.
fn add_rows(
    alloc: Global,
    page: &mut Page,
    rows: &[Row],
    others: &[Row],
) -> Result<(), OutOfMemory> {
    if rows.is_empty() {
        return add_remark(page, "no row");
    }
    if rows.len() > MOST_COMPARED || others.len() > MOST_COMPARED {
        return add_remark(page, "too many rows to show");
    }
    let alone = lacking(alloc, rows, others)?;
    let there = lacking(alloc, others, rows)?;
    for (number, row) in rows.iter().enumerate() {
        let standing = standing_of(&alone, &there, number);
        if rows.len() <= MOST_SHOWN || !matches!(standing, Standing::Shared) {
            add_row(alloc, page, row, standing, others)?;
        }
    }
    if rows.len() > MOST_SHOWN && alone.len() < rows.len() {
        add_remark(page, "and the rows that both answers have")?;
    }
    Ok(())
}

/// The numbers of the rows that appear more often in one list than in the other.
fn lacking(alloc: Global, rows: &[Row], others: &[Row]) -> Result<Vec<usize>, OutOfMemory> {
    let mut found = Vec::new(alloc);
    for (number, row) in rows.iter().enumerate() {
        let so_far = rows
            .iter()
            .take(number)
            .filter(|other| is_same(other, row))
            .count();
        let there = others.iter().filter(|other| is_same(other, row)).count();
        if so_far >= there {
            found.push(number)?;
        }
    }
    Ok(found)
}

/// Whether two rows are the same.
fn is_same(a: &[Value], b: &[Value]) -> bool {
    a.len() == b.len() && a.iter().zip(b).all(|(x, y)| same(x, y))
}

/// How the row with a number compares, by the numbers of the rows that only this answer has, and of those that only the other one has.
fn standing_of(alone: &[usize], there: &[usize], number: usize) -> Standing {
    match alone.iter().position(|other| *other == number) {
        None => Standing::Shared,
        Some(place) => match there.get(place) {
            Some(other) => Standing::Beside(*other),
            None => Standing::Alone,
        },
    }
}

/// Adds a row.
fn add_row(
    alloc: Global,
    page: &mut Page,
    row: &[Value],
    standing: Standing,
    others: &[Row],
) -> Result<(), OutOfMemory> {
    page.open(Tag::Row, Class::Plain)?;
    for (number, value) in row.iter().enumerate() {
        let class = if differs(value, number, standing, others) {
            differing_class(value)
        } else {
            class_of(value)
        };
        add_cell(alloc, page, value, class)?;
    }
    Ok(page.close(Tag::Row)?)
}

/// The class of a cell whose value only one answer has.
fn differing_class(value: &Value) -> Class {
    match value {
        Value::Int(_) => Class::NumberDiffers,
        _ => Class::Differs,
    }
}

/// Whether the value in a column of a row differs from that of the row in its place.
fn differs(value: &Value, column: usize, standing: Standing, others: &[Row]) -> bool {
    match standing {
        Standing::Shared => false,
        Standing::Alone => true,
        Standing::Beside(number) => match others.get(number) {
            Some(row) => match row.get(column) {
                Some(other) => !same(value, other),
                None => true,
            },
            None => true,
        },
    }
}
