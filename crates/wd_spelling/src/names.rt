//! The names of columns.
//!
//! A table's column has its own name, with the table's before it where a plan reads several tables; a table that is read several times
//! has a number: `orders#2.id`. A call has its words; a column that a select list computes has its expression in brackets if that is
//! short, or else the column's number.

use crate::function::call_text;
use crate::spell::spell_expression;
use std::alloc::Global;
use std::fmt::Write;
use wd_plan::{Expr, FrameFunction, Function, Group, GroupCall, Plan, Window};
use wd_schema::Schema;
use wd_value::{OutOfMemory, Text};

/// The most bytes of an expression that is used as a name.
const SHORT: usize = 80;

/// The name of each table that a plan reads, from left to right.
pub fn table_names(alloc: Global, schema: &Schema, plan: &Plan) -> Result<Vec<Text>, OutOfMemory> {
    let mut scans = Vec::new(alloc);
    add_scans(&mut scans, plan)?;
    let mut totals = zeros(alloc, schema.tables.len())?;
    for table in &scans {
        let _ = count_table(&mut totals, *table);
    }
    let mut so_far = zeros(alloc, schema.tables.len())?;
    let mut names = Vec::new(alloc);
    for table in &scans {
        let number = count_table(&mut so_far, *table);
        let is_alone = matches!(totals.get(usize::from(*table)), Some(1));
        names.push(table_name(alloc, schema, *table, is_alone, number)?)?;
    }
    Ok(names)
}

/// Adds the tables that a plan reads.
fn add_scans(scans: &mut Vec<u16>, plan: &Plan) -> Result<(), OutOfMemory> {
    match plan {
        Plan::Scan { table, .. } => Ok(scans.push(*table)?),
        Plan::Join { left, right, .. } => {
            add_scans(scans, left)?;
            add_scans(scans, right)
        }
        Plan::Filter { input, .. }
        | Plan::Map { input, .. }
        | Plan::Group { input, .. }
        | Plan::Window { input, .. }
        | Plan::Distinct { input }
        | Plan::Limit { input, .. } => add_scans(scans, input),
    }
}

/// The given number of zeros.
fn zeros(alloc: Global, count: usize) -> Result<Vec<u64>, OutOfMemory> {
    let mut counts = Vec::new(alloc);
    for _ in 0..count {
        counts.push(0)?;
    }
    Ok(counts)
}

/// Counts a table once more; the result is its count.
fn count_table(counts: &mut Vec<u64>, table: u16) -> u64 {
    match counts.get_mut(usize::from(table)) {
        Some(count) => {
            *count = count.saturating_add(1);
            *count
        }
        None => 0,
    }
}

/// The name of a table, with its number if it is read more than once.
fn table_name(
    alloc: Global,
    schema: &Schema,
    table: u16,
    is_alone: bool,
    number: u64,
) -> Result<Text, OutOfMemory> {
    let mut name = match schema.tables.get_index(usize::from(table)) {
        Some((_, table)) => identifier(alloc, table.name.as_str())?,
        None => String::new(alloc),
    };
    if !is_alone {
        write!(name, "#{number}")?;
    }
    Ok(Text::new(alloc, name)?)
}

/// A name as it is written in SQL: between quotes, unless it is a word of small letters, digits and `_`.
fn identifier(alloc: Global, name: &str) -> Result<String, OutOfMemory> {
    if is_word(name.as_bytes()) {
        return Ok(String::from_str(alloc, name)?);
    }
    let mut quoted = String::from_str(alloc, "\"")?;
    for c in name.chars() {
        if c == '"' {
            quoted.push(c)?;
        }
        quoted.push(c)?;
    }
    quoted.push('"')?;
    Ok(quoted)
}

/// Whether a name needs no quotes.
fn is_word(name: &[u8]) -> bool {
    match name.first() {
        Some(first) => {
            !first.is_ascii_digit()
                && name.iter().all(|b| b.is_ascii_lowercase() || b.is_ascii_digit() || *b == b'_')
        }
        None => false,
    }
}

/// The names of a table's columns, after the table's name where several tables are read.
pub fn scan_names(
    alloc: Global,
    schema: &Schema,
    table: u16,
    called: Option<&str>,
) -> Result<Vec<Text>, OutOfMemory> {
    let mut names = Vec::new(alloc);
    if let Some((_, table)) = schema.tables.get_index(usize::from(table)) {
        for column in &table.columns {
            let own = identifier(alloc, column.name.as_str())?;
            names.push(qualify(alloc, called, own)?)?;
        }
    }
    Ok(names)
}

/// A column's name, after its table's if that is given.
fn qualify(alloc: Global, called: Option<&str>, own: String) -> Result<Text, OutOfMemory> {
    match called {
        None => Ok(Text::new(alloc, own)?),
        Some(table) => {
            let name = format!(in alloc; "{table}.{own}")?;
            Ok(Text::new(alloc, name)?)
        }
    }
}

/// The names of the outputs of a select list over columns of these names.
pub fn output_names(
    alloc: Global,
    names: &[Text],
    outputs: &[Expr],
) -> Result<Vec<Text>, OutOfMemory> {
    let mut given = Vec::new(alloc);
    for (number, output) in outputs.iter().enumerate() {
        given.push(output_name(alloc, names, number, output)?)?;
    }
    Ok(given)
}

/// The name of an output with this number, from 0.
fn output_name(
    alloc: Global,
    names: &[Text],
    number: usize,
    output: &Expr,
) -> Result<Text, OutOfMemory> {
    if let Expr::Column(column) = output {
        if let Some(name) = names.get(usize::from(*column)) {
            return Ok(name.copy()?);
        }
    }
    let words = spell_expression(alloc, names, output)?;
    let name = if words.len() <= SHORT {
        format!(in alloc; "({words})")?
    } else {
        let place = (number as u64).saturating_add(1);
        format!(in alloc; "column {place}")?
    };
    Ok(Text::new(alloc, name)?)
}

/// The names of a Group's columns, over those of its input.
pub fn group_names(alloc: Global, names: &[Text], group: &Group) -> Result<Vec<Text>, OutOfMemory> {
    let mut given = Vec::new(alloc);
    for name in names.iter().take(usize::from(group.columns)) {
        given.push(name.copy()?)?;
    }
    for call in &group.calls {
        let name = group_call_text(alloc, names, call)?;
        given.push(Text::new(alloc, name)?)?;
    }
    Ok(given)
}

/// A call of a Group.
fn group_call_text(alloc: Global, names: &[Text], call: &GroupCall) -> Result<String, OutOfMemory> {
    match call {
        GroupCall::OfRows(aggregate) => {
            let function = Function::OfFrame(FrameFunction::Aggregate(*aggregate));
            call_text(alloc, names, &function)
        }
        GroupCall::Grouping(columns) => grouping_text(alloc, names, columns),
    }
}

/// A call of GROUPING.
fn grouping_text(alloc: Global, names: &[Text], columns: &[u16]) -> Result<String, OutOfMemory> {
    let mut text = String::from_str(alloc, "GROUPING(")?;
    for (number, column) in columns.iter().enumerate() {
        if number > 0 {
            text.push_str(", ")?;
        }
        if let Some(name) = names.get(usize::from(*column)) {
            text.push_str(name.as_str())?;
        }
    }
    text.push(')')?;
    Ok(text)
}

/// The names of a Window's columns: those of its input, followed by those of its calls.
pub fn window_names(
    alloc: Global,
    names: &[Text],
    window: &Window,
) -> Result<Vec<Text>, OutOfMemory> {
    let mut given = Vec::new(alloc);
    for name in names {
        given.push(name.copy()?)?;
    }
    for call in &window.calls {
        let words = call_text(alloc, names, &call.function)?;
        let name = format!(in alloc; "{words} OVER (..)")?;
        given.push(Text::new(alloc, name)?)?;
    }
    Ok(given)
}
