//! Tables that vary by a number.

ghost use Rattle.std.specs.Prelude.{◌≡◌, ◌<◌, length, map, None, option_map, slice_index_or, IfOk};
ghost use Rattle.wd_candidates.specs.Candidates.{cell as cell_of};
ghost use Rattle.wd_candidates.specs.Outlines.{fixed_in, scanned_in};
ghost use Rattle.wd_facts.specs.Given.{table_rule};
ghost use Rattle.wd_schema.specs.Schemas.{schema_of};
ghost use Rattle.wd_schema.specs.Tables.{key_of, table_of};
ghost use Rattle.wd_value.specs.Bags.{positions};
ghost use Rattle.wd_value.specs.Rows.{instance_of, rows_of};
ghost use Rattle.wd_varied.specs.Patterns.{filled as filled_by, filling_of};
ghost use Rattle.wd_varied.specs.Suggested.{hints_of};
ghost use Rattle.wd_varied.specs.Varied.{IsVaried};
ghost use Rattle.wd_varied.specs.Varied as spec;

use crate::patterns::{Filling, draw, fill, pattern_of};
use crate::place::{Place, differs, source, suggestions};
use crate::pools::Suggested;
use crate::suggested::values_for;
use std::alloc::Global;
use wd_candidates::{Outline, fixed_columns, is_marked, value_if_fixed};
use wd_schema::{Column, Key, Schema, Table};
use wd_value::{Instance, OutOfMemory, Row, Value};

/// The instance in which each table that the plan scans has the given number of rows, its columns filled by the number of the try, and
/// the other tables are empty. It need not meet the schema.
pub fn vary(
    alloc: Global,
    schema: &Schema,
    outline: &Outline,
    suggested: &Suggested,
    rows: u32,
    number: u32,
) -> Result<Instance, OutOfMemory>
    ensures { IfOk result (λ instance. IsVaried (schema_of schema.now) outline.now suggested.now rows number (instance_of instance.items)) }
{
    let mut instance = Vec::with_capacity(alloc, schema.tables.len())?;
    for table in 0..schema.tables.len() {
        let made = rows_of_table(alloc, schema, table, outline, suggested, rows, number)?;
        instance.push(made)?;
    }
    Ok(instance)
}

/// The rows of the table with this number.
fn rows_of_table(
    alloc: Global,
    schema: &Schema,
    at: usize,
    outline: &Outline,
    suggested: &Suggested,
    rows: u32,
    number: u32,
) -> Result<Vec<Row>, OutOfMemory>
    requires { at < length schema.now.tables.entries }
    ensures { IfOk result (λ v. rows_of v.items ≡ spec.rows_in (scanned_in outline.now at) (fixed_in outline.now at) (spec.fillings (hints_of suggested.now) (table_rule (schema_of schema.now) at) at rows number) rows) }
{
    match schema.tables.get_index(at) {
        Some((_, table)) if is_marked(&outline.scanned, at) => {
            let fillings = fillings(alloc, table, at, suggested, rows, number)?;
            filled_rows(
                alloc,
                suggested,
                fixed_columns(outline, at),
                &fillings,
                rows,
            )
        }
        _ => Ok(Vec::new(alloc)),
    }
}

/// How the columns of a table are filled.
fn fillings(
    alloc: Global,
    table: &Table,
    at: usize,
    suggested: &Suggested,
    rows: u32,
    number: u32,
) -> Result<Vec<Filling>, OutOfMemory>
    ensures { IfOk result (λ v. map (filling_of suggested.now.all.items) v.items ≡ spec.fillings (hints_of suggested.now) (table_of table.now) at rows number) }
{
    let mut fillings = Vec::with_capacity(alloc, table.columns.len())?;
    for c in 0..table.columns.len() {
        let place = Place {
            table: at,
            column: c,
        };
        let column = &table.columns[c];
        let filling = filling(alloc, suggested, &table.keys, rows, number, column, place)?;
        fillings.push(filling)?;
    }
    Ok(fillings)
}

/// How a column is filled.
fn filling(
    alloc: Global,
    suggested: &Suggested,
    keys: &[Key],
    rows: u32,
    number: u32,
    column: &Column,
    place: Place,
) -> Result<Filling, OutOfMemory>
    ensures { IfOk result (λ f. filling_of suggested.now.all.items f ≡ spec.filling (hints_of suggested.now) (map key_of keys.now) rows number column.now place) }
{
    let differs = differs(suggested, keys, number, place);
    let source = source(suggested, number, place);
    let drawn = draw(rows, number, source.table, source.column);
    let suggestions = suggestions(suggested, number);
    let own = values_for(alloc, suggestions, source.table, source.column, column.kind)?;
    Ok(Filling {
        pattern: pattern_of(drawn, column, differs),
        kind: column.kind,
        own,
    })
}

/// The given number of rows, filled.
fn filled_rows(
    alloc: Global,
    suggested: &Suggested,
    fixed: &[Option<Value>],
    fillings: &[Filling],
    rows: u32,
) -> Result<Vec<Row>, OutOfMemory>
    ensures { IfOk result (λ v. rows_of v.items ≡ map (spec.filled_row (λ c. slice_index_or fixed.now c None) (map (filling_of suggested.now.all.items) fillings.now) rows) (positions rows)) }
{
    let mut made = Vec::new(alloc);
    for row in 0..rows {
        made.push(filled_row(alloc, suggested, fixed, fillings, rows, row)?)?;
    }
    Ok(made)
}

/// The row with a number, of the given number of rows.
fn filled_row(
    alloc: Global,
    suggested: &Suggested,
    fixed: &[Option<Value>],
    fillings: &[Filling],
    rows: u32,
    row: u32,
) -> Result<Row, OutOfMemory>
    ensures { IfOk result (λ v. v.items ≡ spec.filled_row (λ c. slice_index_or fixed.now c None) (map (filling_of suggested.now.all.items) fillings.now) rows row) }
{
    let mut made = Vec::with_capacity(alloc, fillings.len())?;
    for c in 0..fillings.len() {
        let value = cell(
            alloc,
            suggested,
            value_if_fixed(fixed, c),
            &fillings[c],
            rows,
            row,
        )?;
        made.push(value)?;
    }
    Ok(made)
}

/// The value of a column in a row: its fixed value, or else that of its filling.
fn cell(
    alloc: Global,
    suggested: &Suggested,
    fixed: Option<&Value>,
    filling: &Filling,
    rows: u32,
    row: u32,
) -> Result<Value, OutOfMemory>
    ensures { IfOk result (λ v. v ≡ cell_of (option_map (λ f. f.now) fixed.entry) (filled_by (filling_of suggested.now.all.items filling.now) rows row)) }
{
    match fixed {
        Some(value) => value.copy(alloc),
        None => fill(alloc, suggested, filling, rows, row),
    }
}
