//! A witness over a candidate.

ghost use Rattle.std.specs.Prelude.{◌≡◌, ◌<◌, false, length, map, IfNone, IfOk, IfSome};
ghost use Rattle.wd_candidates.specs.Outlines.{scanned_in};
ghost use Rattle.wd_schema.specs.Schemas.{schema_of};
ghost use Rattle.wd_seek.specs.Witnesses.{HasScannedRows, IsScannedName, NamesDiffer};
ghost use Rattle.wd_value.specs.Rows.{instance_of};
ghost use Rattle.wd_witness_text.specs.Witnesses.{positions_of, table_rows, witness_of};

use crate::probed::Pair;
use std::alloc::Global;
use std::collections::BTreeMap;
use wd_candidates::Outline;
use wd_schema::Schema;
use wd_value::{Instance, OutOfMemory, Row};
use wd_witness_text::Witness;

/// The witness with the tables of an instance that a plan scans, and a pair of choices over it.
pub(crate) fn witness_over(
    alloc: Global,
    schema: &Schema,
    outline: &Outline,
    instance: Instance,
    pair: Pair,
) -> Result<Witness, OutOfMemory>
    requires { length instance.items ≡ length (schema_of schema.now) }
    ensures tables { IfOk result (λ w. HasScannedRows (schema_of schema.now) outline.now (instance_of instance.items) (witness_of w).tables) }
    ensures first { IfOk result (λ w. (witness_of w).first ≡ positions_of pair.first.orderings.items) }
    ensures second { IfOk result (λ w. (witness_of w).second ≡ positions_of pair.second.orderings.items) }
{
    let tables = scanned_tables(alloc, schema, outline, instance)?;
    let Pair { first, second } = pair;
    Ok(Witness {
        tables,
        first,
        second,
    })
}

/// The rows of the tables that a plan scans, by the tables' names.
fn scanned_tables(
    alloc: Global,
    schema: &Schema,
    outline: &Outline,
    instance: Instance,
) -> Result<BTreeMap<String, Vec<Row>>, OutOfMemory>
    requires { length instance.items ≡ length (schema_of schema.now) }
    ensures { IfOk result (λ tables. HasScannedRows (schema_of schema.now) outline.now (instance_of instance.items) (map table_rows tables.entries)) }
{
    names_differ(schema);
    let mut tables = BTreeMap::new(alloc);
    let mut left = instance;
    while let Some(rows) = left.pop() {
        if let Some(name) = scanned_name(schema, outline, left.len()) {
            let name = String::from_str(alloc, name)?;
            drop(tables.insert(name, rows)?);
        }
    }
    Ok(tables)
}

/// The name of the table with a number, if the plan scans it.
fn scanned_name<'a>(schema: &'a Schema, outline: &Outline, number: usize) -> Option<&'a str>
    ensures scanned { IfSome result (λ name. IsScannedName (schema_of schema.now) outline.now number name.now) }
    ensures other { IfNone result (number < length (schema_of schema.now) → scanned_in outline.now number ≡ false) }
{
    let (_, table) = schema.tables.get_index(number)?;
    match outline.scanned.get(number) {
        Some(true) => Some(table.name.as_str()),
        _ => None,
    }
}

/// The names of a schema's tables differ, since they are the keys of a map.
pub(crate) fn names_differ(schema: &Schema)
    ensures { NamesDiffer (schema_of schema.now) }
{
    let _ = schema.tables.len();
}
