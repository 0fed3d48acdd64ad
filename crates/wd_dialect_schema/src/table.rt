//! The tables of a schema.

ghost use Rattle.std.specs.Prelude.{◌≡◌, ◌++◌, map, IfOk, OnOk};
ghost use Rattle.std.specs.List.{flat_map};
ghost use Rattle.wd_declaration.specs.Spelled as spelled;
ghost use Rattle.wd_declaration.specs.Spelled.{element_of};
ghost use Rattle.wd_dialect_read.specs.Said.{identifier_text, item_said, statement_said};
ghost use Rattle.wd_dialect_schema.specs.Meaning.{added_by, elements_of, table_of, tables_by, tables_of};

use crate::element::add_items;
use std::alloc::{AllocError, Global};
use wd_declaration::{Declaration, DeclaredElement, Identifier};
use wd_dialect_read::{Item, Statement};

/// Adds what a statement adds to the table with that name.
fn add_added(
    alloc: Global,
    elements: &mut Vec<DeclaredElement>,
    name: &Identifier,
    statement: &Statement,
) -> Result<(), AllocError>
    ensures { OnOk result (map element_of elements.new.items ≡ map element_of elements.old.items ++ added_by (identifier_text name.now) (statement_said statement.now)) }
{
    match statement {
        Statement::Changed(table) if table.name.text.as_str() == name.text.as_str() => {
            add_items(alloc, elements, &table.items)
        }
        _ => Ok(()),
    }
}

/// The columns and keys of the table with that name, with those that statements add.
fn table_elements(
    alloc: Global,
    statements: &[Statement],
    name: &Identifier,
    items: &[Item],
) -> Result<Vec<DeclaredElement>, AllocError>
    ensures { IfOk result (λ elements. map element_of elements.items ≡ flat_map elements_of (map item_said items.now) ++ flat_map (added_by (identifier_text name.now)) (map statement_said statements.now)) }
{
    let mut elements = Vec::new(alloc);
    add_items(alloc, &mut elements, items)?;
    for statement in statements {
        add_added(alloc, &mut elements, name, statement)?;
    }
    Ok(elements)
}

/// Adds a table, if it has a column or a key.
fn add_table(
    tables: &mut Vec<Declaration>,
    name: &Identifier,
    elements: Vec<DeclaredElement>,
) -> Result<(), AllocError>
    ensures { OnOk result (spelled.tables_of tables.new.items ≡ spelled.tables_of tables.old.items ++ table_of (identifier_text name.now) (map element_of elements.items)) }
{
    if elements.is_empty() {
        return Ok(());
    }
    let name = name.copy()?;
    tables.push(Declaration { name, elements })?;
    Ok(())
}

/// Adds the table that a statement declares.
fn add_declared(
    alloc: Global,
    tables: &mut Vec<Declaration>,
    statements: &[Statement],
    statement: &Statement,
) -> Result<(), AllocError>
    ensures { OnOk result (spelled.tables_of tables.new.items ≡ spelled.tables_of tables.old.items ++ tables_by (map statement_said statements.now) (statement_said statement.now)) }
{
    if let Statement::Table(table) = statement {
        let elements = table_elements(alloc, statements, &table.name, &table.items)?;
        add_table(tables, &table.name, elements)?;
    }
    Ok(())
}

/// The tables that statements declare.
pub fn declared_tables(
    alloc: Global,
    statements: &[Statement],
) -> Result<Vec<Declaration>, AllocError>
    ensures { IfOk result (λ tables. spelled.tables_of tables.items ≡ tables_of (map statement_said statements.now)) }
{
    let mut tables = Vec::new(alloc);
    for statement in statements {
        add_declared(alloc, &mut tables, statements, statement)?;
    }
    Ok(tables)
}
