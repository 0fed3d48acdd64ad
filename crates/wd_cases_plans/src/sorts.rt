//! Sorts of the rows, and orderings under classes.

use crate::shown::{push, push_comparison, push_numbers, push_row, push_truth};
use std::alloc::{AllocError, Global};
use wd_cases::Failure;
use wd_cases_notation::{Line, State, Word};
use wd_columns::RowSource;
use wd_partition::{Member, Partitions, Turn, is_ordering, partitions, sorted_ordering};
use wd_plan::Class;
use wd_sort::{compare_rows_at, is_sorted, sort_positions, sorted_positions, value_numbers};
use wd_value::{Row, SortColumn};

/// `sorted_positions COLUMNS`, `sort_positions COLUMNS : POSITIONS`, `is_sorted COLUMNS : POSITIONS`,
/// `value_numbers COLUMN`, for each row the first one with its number, and
/// `compare_rows_at COLUMNS : 0 3`, how the first of these rows stands beside the last.
pub fn answer(alloc: Global, state: &State, name: &str, out: &mut String) -> Result<(), Failure> {
    let columns = columns_of(alloc, &state.stacks.items)?;
    let (rows, given) = (state.rows(), state.ordering());
    match name {
        "sorted_positions" => push_numbers(out, &sorted_positions(alloc, rows, &columns)?),
        "sort_positions" => push_numbers(out, &sort_positions(alloc, rows, &columns, given)?),
        "is_sorted" => push_truth(out, is_sorted(rows, &columns, given)),
        "value_numbers" => push_value_numbers(alloc, rows, &columns, out),
        _ => push_compared(rows, &columns, given, out),
    }
}

fn columns_of(alloc: Global, items: &[SortColumn]) -> Result<Vec<SortColumn>, AllocError> {
    let mut columns = Vec::new(alloc);
    for SortColumn { column, key } in items {
        columns.push(SortColumn {
            column: *column,
            key: *key,
        })?;
    }
    Ok(columns)
}

fn push_compared(
    rows: &[Row],
    columns: &[SortColumn],
    given: &[u64],
    out: &mut String,
) -> Result<(), Failure> {
    let first = given.first().copied().unwrap_or(0);
    let last = given.last().copied().unwrap_or(0);
    push_comparison(out, compare_rows_at(rows, columns, first, last))
}

fn push_value_numbers(
    alloc: Global,
    rows: &[Row],
    columns: &[SortColumn],
    out: &mut String,
) -> Result<(), Failure> {
    let asked = columns.first().ok_or(Failure::NoCase)?;
    let numbers = value_numbers(alloc, &RowSource::of_rows(rows), asked.column)?;
    push_numbers(out, &firsts_of(alloc, &numbers.codes)?)
}

/// For each number the place where it stands first.
fn firsts_of(alloc: Global, numbers: &[u64]) -> Result<Vec<u64>, AllocError> {
    let mut firsts = Vec::new(alloc);
    for number in numbers {
        firsts.push(first_of(numbers, *number))?;
    }
    Ok(firsts)
}

fn first_of(numbers: &[u64], number: u64) -> u64 {
    for place in 0..numbers.len() {
        if numbers[place] == number {
            return place as u64;
        }
    }
    numbers.len() as u64
}

/// What is asked of the class of the line.
pub fn class_answer(
    alloc: Global,
    state: &State,
    line: Line,
    out: &mut String,
) -> Result<(), Failure> {
    let class = state.stacks.window.classes.first().ok_or(Failure::NoCase)?;
    match line.word.name {
        "sorted_ordering" => push_ordering(alloc, state.rows(), class, line.word.arguments, out),
        "is_ordering" => push_is_ordering(alloc, state, class, out),
        _ => push_partition(alloc, state, class, line.word, out),
    }
}

/// `sorted_ordering CLASS`, or with a turn: `sorted_ordering(reversed) CLASS`, `sorted_ordering(rotated) CLASS`
/// or `sorted_ordering(exchanged) CLASS`
fn push_ordering(
    alloc: Global,
    rows: &[Row],
    class: &Class,
    arguments: &str,
    out: &mut String,
) -> Result<(), Failure> {
    let turn = match arguments {
        "reversed" => Turn::Reversed,
        "rotated" => Turn::Rotated,
        "exchanged" => Turn::Exchanged,
        _ => Turn::AsGiven,
    };
    let source = RowSource::of_rows(rows);
    let ordering = sorted_ordering(alloc, &source, &class.partition, &class.order, turn)?;
    push_numbers(out, &ordering)
}

/// `is_ordering CLASS : ORDERING`
fn push_is_ordering(
    alloc: Global,
    state: &State,
    class: &Class,
    out: &mut String,
) -> Result<(), Failure> {
    let source = RowSource::of_rows(state.rows());
    let given = state.ordering();
    push_truth(
        out,
        is_ordering(alloc, &source, &class.partition, &class.order, given)?,
    )
}

/// `partitions(POSITION) CLASS : ORDERING`, or `partitions(POSITION,numbers)`: the partition of the
/// row at that position.
fn push_partition(
    alloc: Global,
    state: &State,
    class: &Class,
    word: Word,
    out: &mut String,
) -> Result<(), Failure> {
    let position = word.number(0).ok_or(Failure::NoCase)? as usize;
    let asked = word.argument(1) == Some("numbers");
    match partitions_of(alloc, state.rows(), class, state.ordering(), asked)? {
        Some(found) => push_member(out, found.member(position)),
        None => push(out, "no ordering"),
    }
}

fn partitions_of(
    alloc: Global,
    rows: &[Row],
    class: &Class,
    ordering: &[u64],
    asked: bool,
) -> Result<Option<Partitions>, Failure> {
    let source = RowSource::of_rows(rows);
    if source.len() > u32::MAX as usize {
        return Err(Failure::NoCase);
    }
    Ok(partitions(
        alloc,
        &source,
        &class.partition,
        &class.order,
        ordering,
        asked,
    )?)
}

/// The positions, the groups, the numbers, and the place of the row itself.
fn push_member(out: &mut String, member: Option<Member>) -> Result<(), Failure> {
    match member {
        None => push(out, "no row"),
        Some(member) => {
            let (positions, groups, place) = (member.positions, member.groups, member.place);
            write!(out, "{place} of {positions:?} {groups:?}")?;
            push(out, if member.numbers.is_empty() { "" } else { " " })?;
            push_row(out, member.numbers)
        }
    }
}
