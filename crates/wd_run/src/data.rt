//! The rows of a schema's tables, from the data given.

ghost use Rattle.std.specs.Prelude.{◌≡◌, ◌<◌, [], ◌∷◌, ◌++◌, ℕ, length, All, IfOk, IfErr, IfSome, IfNone, OnOk};
ghost use Rattle.std.specs.List.{list_any};
ghost use Rattle.std.specs.Str.{bytes_eq};
ghost use Rattle.wd_plan.specs.Plans.{plan_of};
ghost use Rattle.wd_schema.specs.Meets.{MeetsTable};
ghost use Rattle.wd_schema.specs.Schemas.{schema_of};
ghost use Rattle.wd_schema.specs.Tables.{table_of};
ghost use Rattle.wd_tables.specs.Data.{HoldsRows};
ghost use Rattle.wd_run.specs.Causes.{LacksData};
ghost use Rattle.wd_run.specs.Loads.{FindsTable, RefusesData, RefusesName, RefusesPlan, RefusesRows, RefusesText};
ghost use Rattle.wd_run.specs.Runs.{HasData, HasDataAt, HoldsData, IsNamed, NamesDiffer, data_of};

use crate::error::RunError;
use std::alloc::Global;
use wd_columns::Columns;
use wd_plan::Plan;
use wd_schema::{Schema, Table};
use wd_tables::load_columns;
use wd_value::{OutOfMemory, Text};

/// The rows of each table, from pairs of a table's name and its CSV text. A table without a text has no rows. Refused by 707 at the first
/// name that no table has or that was given before, and by 701 to 706 as `load` refuses a text.
pub fn load_data(
    alloc: Global,
    schema: &Schema,
    given: &[(&str, &[u8])],
) -> Result<Vec<Columns>, RunError>
    requires { NamesDiffer (schema_of schema.now) }
    ensures held { IfOk result (λ v. HoldsData (schema_of schema.now) (data_of given.now) v.items) }
    ensures refused { IfErr result (λ e. RefusesData (schema_of schema.now) (data_of given.now) e) }
{
    let mut instance = empty_tables(alloc, schema.tables.len())?;
    for (i, pair) in given.iter().enumerate() {
        add_data(alloc, schema, &given[..i], pair, &mut instance)?;
    }
    Ok(instance)
}

/// Adds the rows of one text to its table.
fn add_data(
    alloc: Global,
    schema: &Schema,
    earlier: &[(&str, &[u8])],
    pair: &(&str, &[u8]),
    instance: &mut Vec<Columns>,
) -> Result<(), RunError>
    requires differ { NamesDiffer (schema_of schema.now) }
    requires held { HoldsData (schema_of schema.now) (data_of earlier.now) instance.old.items }
    ensures holds { OnOk result (HoldsData (schema_of schema.now) (data_of earlier.now ++ (pair.now.0.now, pair.now.1.now) ∷ []) instance.new.items) }
    ensures refused { IfErr result (λ e. RefusesText (schema_of schema.now) (data_of earlier.now) pair.now.0.now pair.now.1.now e) }
{
    let (name, text) = *pair;
    if is_given(name, earlier) {
        return Err(unexpected_data(alloc, name));
    }
    let Some((number, table)) = find_table(schema, name) else {
        return Err(unexpected_data(alloc, name));
    };
    let rows = load_table(alloc, table, text)?;
    instance[number] = rows;
    Ok(())
}

/// Empty lists of rows, one for each table.
fn empty_tables(alloc: Global, count: usize) -> Result<Vec<Columns>, OutOfMemory>
    ensures len { IfOk result (λ v. length v.items ≡ count) }
    ensures empty { IfOk result (λ v. All (λ rows. rows ≡ []) v.items) }
{
    let mut instance = Vec::with_capacity(alloc, count)?;
    for _ in 0..count {
        instance.push(Columns::empty(alloc))?;
    }
    Ok(instance)
}

/// The table of that number, if it has the name.
fn table_if_named<'a>(schema: &'a Schema, number: usize, name: &str) -> Option<&'a Table>
    ensures found { IfSome result (λ table. FindsTable (schema_of schema.now) name.now number (table_of table.now)) }
    ensures none { IfNone result (IsNamed (schema_of schema.now) name.now number → ⊥) }
{
    let (_, table) = schema.tables.get_index(number)?;
    if table.name.as_bytes() == name.as_bytes() {
        Some(table)
    } else {
        None
    }
}

/// The number of the table with a name, and the table.
fn find_table<'a>(schema: &'a Schema, name: &str) -> Option<(usize, &'a Table)>
    ensures found { IfSome result (λ f. FindsTable (schema_of schema.now) name.now f.0 (table_of f.1.now)) }
    ensures none { IfNone result ((n : ℕ) → IsNamed (schema_of schema.now) name.now n → ⊥) }
{
    for number in 0..schema.tables.len() {
        if let Some(table) = table_if_named(schema, number, name) {
            return Some((number, table));
        }
    }
    None
}

fn load_table(alloc: Global, table: &Table, text: &[u8]) -> Result<Columns, RunError>
    ensures held { IfOk result (λ v. HoldsRows (table_of table.now) text.now v) }
    ensures meets { IfOk result (λ v. MeetsTable (table_of table.now) v) }
    ensures refused { IfErr result (λ e. RefusesRows (table_of table.now) text.now e) }
{
    match load_columns(alloc, table, text) {
        Ok(rows) => Ok(rows),
        Err(error) => match table.name.copy() {
            Ok(name) => Err(RunError::Data { name, error }),
            Err(_) => Err(RunError::OutOfMemory),
        },
    }
}

/// 707, or out of memory where the name cannot be kept.
fn unexpected_data(alloc: Global, name: &str) -> RunError
    ensures { RefusesName name.now (Unit {0}) result }
{
    match Text::from_str(alloc, name) {
        Ok(name) => RunError::Given { name },
        Err(_) => RunError::OutOfMemory,
    }
}

/// The name of the table of that number, if a plan scans it and it has no data.
fn lacking<'a>(
    schema: &'a Schema,
    plan: &Plan,
    given: &[(&str, &[u8])],
    number: usize,
) -> Option<&'a str>
    ensures lacking { IfSome result (λ name. LacksData (schema_of schema.now) (data_of given.now) (plan_of plan.now) name.now) }
    ensures none { IfNone result (HasDataAt (schema_of schema.now) (data_of given.now) (plan_of plan.now) number) }
{
    let (_, table) = schema.tables.get_index(number)?;
    if !plan.scans(number) {
        return None;
    }
    let name = table.name.as_str();
    if is_given(name, given) {
        return None;
    }
    Some(name)
}

/// Checks that each table that a plan scans has data; refused by 707 at the first table of the schema that has none.
pub fn check_given(
    alloc: Global,
    schema: &Schema,
    plan: &Plan,
    given: &[(&str, &[u8])],
) -> Result<(), RunError>
    ensures has_data { OnOk result (HasData (schema_of schema.now) (data_of given.now) (plan_of plan.now)) }
    ensures refused { IfErr result (λ e. RefusesPlan (schema_of schema.now) (data_of given.now) (plan_of plan.now) e) }
{
    for number in 0..schema.tables.len() {
        if let Some(name) = lacking(schema, plan, given, number) {
            return Err(unexpected_data(alloc, name));
        }
    }
    Ok(())
}

fn is_given(name: &str, given: &[(&str, &[u8])]) -> bool
    ensures { result ≡ list_any (λ g. bytes_eq g.0.now name.now) given.now }
{
    given
        .iter()
        .any(|(other, _)| other.as_bytes() == name.as_bytes())
}
