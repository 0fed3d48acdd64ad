use std::alloc::{AllocError, Global};
use wd_cases::{Failure, SchemaText, rows_of, text_of, unescape};
use wd_schema::{Column, Key, Schema, Table, meets, read_schema};
use wd_value::Instance;

fn push_column(out: &mut String, column: &Column) -> Result<(), AllocError> {
    let name = column.name.as_str();
    let kind = column.kind;
    let mark = if column.not_null { "!" } else { "" };
    write!(out, ", {name} {kind:?}{mark}")
}

fn push_key(out: &mut String, key: &Key) -> Result<(), AllocError> {
    out.push_str(match (key.primary, key.nulls_distinct) {
        (true, _) => " primary",
        (false, true) => " unique",
        (false, false) => " not-distinct",
    })?;
    for column in &key.columns {
        write!(out, " {column}")?;
    }
    Ok(())
}

fn push_table(out: &mut String, name: &str, table: &Table) -> Result<(), AllocError> {
    out.push_str(name)?;
    for column in &table.columns {
        push_column(out, column)?;
    }
    for key in &table.keys {
        push_key(out, key)?;
    }
    out.push(';')
}

fn push_schema(out: &mut String, schema: &Schema) -> Result<(), AllocError> {
    for (place, (name, table)) in schema.tables.iter().enumerate() {
        out.push_str(if place > 0 { " " } else { "" })?;
        push_table(out, name.as_str(), table)?;
    }
    Ok(())
}

fn schema_shown(alloc: Global, schema: &Schema) -> Result<String, Failure> {
    let mut out = String::new(alloc);
    push_schema(&mut out, schema)?;
    Ok(out)
}

fn schema_of(alloc: Global, text: &str) -> Result<Schema, Failure> {
    let text = unescape(alloc, text)?;
    Ok(read_schema(alloc, &text)?)
}

/// `tables TEXT`: the tables of a schema with their columns (`!` is NOT NULL) and keys.
pub fn tables(alloc: Global, text: &str) -> Result<String, Failure> {
    let schema = schema_of(alloc, text)?;
    schema_shown(alloc, &schema)
}

/// `table NAME`: how many columns and keys the schema's table of that name has.
pub fn table(alloc: Global, schema: &SchemaText, name: &str) -> Result<String, Failure> {
    let schema = schema.tables(alloc)?;
    counts_shown(alloc, schema.table(name))
}

fn counts_shown(alloc: Global, table: Option<&Table>) -> Result<String, Failure> {
    let Some(table) = table else {
        return Ok(String::from_str(alloc, "none")?);
    };
    let (columns, keys) = (table.columns.len(), table.keys.len());
    Ok(format!(in alloc; "columns: {columns}, keys: {keys}")?)
}

/// Tables, each with a `|` after its rows.
fn instance_of(alloc: Global, text: &str) -> Result<Instance, Failure> {
    let mut instance = Vec::new(alloc);
    for table in text.split_terminator('|') {
        instance.push(rows_of(alloc, table, ' ')?)?;
    }
    Ok(instance)
}

fn instance_in(alloc: Global, text: &str) -> Result<Instance, Failure> {
    let text = text_of(alloc, text)?;
    instance_of(alloc, text.as_str())
}

/// `meets TABLES`: whether tables with these rows meet the schema.
pub fn meets_case(alloc: Global, schema: &SchemaText, text: &str) -> Result<String, Failure> {
    let instance = instance_in(alloc, text)?;
    met_by(alloc, schema, &instance)
}

fn met_by(alloc: Global, schema: &SchemaText, instance: &Instance) -> Result<String, Failure> {
    let schema = schema.tables(alloc)?;
    let met = meets(&schema, instance).is_ok();
    Ok(met.to_string(alloc)?)
}
