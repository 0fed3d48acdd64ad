//! The columns and keys of a table.

ghost use Rattle.std.specs.Prelude.{◌≡◌, ◌∷◌, ◌++◌, [], List, map, IfOk, OnOk};
ghost use Rattle.std.specs.List.{flat_map};
ghost use Rattle.wd_read_statements.specs.Written.{ElementTree};
ghost use Rattle.wd_declaration.specs.Spelled.{element_of};
ghost use Rattle.wd_dialect_read.specs.Said.{column_said, identifier_text, item_said};
ghost use Rattle.wd_dialect_schema.specs.Meaning.{column_of, elements_of, key_before, key_of, keys_of, lasting};

use crate::marks::{key_said, says_deferrable, says_not_null, type_of};
use std::alloc::{AllocError, Global};
use wd_declaration::{DeclaredColumn, DeclaredElement, DeclaredKey, Identifier};
use wd_dialect_read::{Item, SaidColumn, SaidKey};
use wd_read_statements::KeyWords;

/// Equal names.
fn copied_names(alloc: Global, names: &[Identifier]) -> Result<Vec<Identifier>, AllocError>
    ensures { IfOk result (λ copies. map identifier_text copies.items ≡ map identifier_text names.now) }
{
    let mut copies = Vec::with_capacity(alloc, names.len())?;
    for name in names {
        copies.push(name.copy()?)?;
    }
    Ok(copies)
}

/// A key of a table.
fn declared_key(alloc: Global, key: &SaidKey) -> Result<DeclaredElement, AllocError>
    ensures { IfOk result (λ element. element_of element ≡ key_of key.now.words (map identifier_text key.now.columns.items)) }
{
    let columns = copied_names(alloc, &key.columns)?;
    Ok(DeclaredElement::Key(DeclaredKey {
        words: key.words,
        columns,
    }))
}

/// A key of one column.
fn column_key(
    alloc: Global,
    words: KeyWords,
    name: &Identifier,
) -> Result<DeclaredElement, AllocError>
    ensures { IfOk result (λ element. element_of element ≡ key_of words (identifier_text name.now ∷ [])) }
{
    let mut columns = Vec::new(alloc);
    columns.push(name.copy()?)?;
    Ok(DeclaredElement::Key(DeclaredKey { words, columns }))
}

/// A column without its keys.
fn declared_column(column: &SaidColumn) -> Result<DeclaredElement, AllocError>
    ensures { IfOk result (λ element. element_of element ≡ column_of (column_said column.now)) }
{
    let name = column.name.copy()?;
    Ok(DeclaredElement::Column(DeclaredColumn {
        name,
        kind: type_of(column.kind),
        not_null: says_not_null(&column.marks),
    }))
}

/// Adds the key of a column, where there is one.
fn add_key(
    alloc: Global,
    elements: &mut Vec<DeclaredElement>,
    words: Option<KeyWords>,
    name: &Identifier,
) -> Result<(), AllocError>
    ensures { OnOk result ((others : List ElementTree) → map element_of elements.new.items ++ others ≡ map element_of elements.old.items ++ key_before (identifier_text name.now) words others) }
{
    if let Some(words) = words {
        elements.push(column_key(alloc, words, name)?)?;
    }
    Ok(())
}

/// Adds the keys of a column, if they hold at all times.
fn add_lasting_keys(
    alloc: Global,
    elements: &mut Vec<DeclaredElement>,
    column: &SaidColumn,
) -> Result<(), AllocError>
    ensures { OnOk result (map element_of elements.new.items ≡ map element_of elements.old.items ++ lasting column.now.marks.items (keys_of (identifier_text column.now.name) column.now.marks.items)) }
{
    if says_deferrable(&column.marks) {
        return Ok(());
    }
    add_keys(alloc, elements, column)
}

/// Adds a key of a table, if it holds at all times.
fn add_lasting_key(
    alloc: Global,
    elements: &mut Vec<DeclaredElement>,
    key: &SaidKey,
) -> Result<(), AllocError>
    ensures { OnOk result (map element_of elements.new.items ≡ map element_of elements.old.items ++ lasting key.now.marks.items (key_of key.now.words (map identifier_text key.now.columns.items) ∷ [])) }
{
    if !says_deferrable(&key.marks) {
        elements.push(declared_key(alloc, key)?)?;
    }
    Ok(())
}

/// Adds the keys of a column.
fn add_keys(
    alloc: Global,
    elements: &mut Vec<DeclaredElement>,
    column: &SaidColumn,
) -> Result<(), AllocError>
    ensures { OnOk result (map element_of elements.new.items ≡ map element_of elements.old.items ++ keys_of (identifier_text column.now.name) column.now.marks.items) }
{
    let mut rest = column.marks.as_slice();
    while let [mark, after @ ..] = rest {
        add_key(alloc, elements, key_said(*mark, after), &column.name)?;
        rest = after;
    }
    Ok(())
}

/// Adds the column or the key of one entry.
fn add_item(
    alloc: Global,
    elements: &mut Vec<DeclaredElement>,
    item: &Item,
) -> Result<(), AllocError>
    ensures { OnOk result (map element_of elements.new.items ≡ map element_of elements.old.items ++ elements_of (item_said item.now)) }
{
    match item {
        Item::Column(column) => {
            elements.push(declared_column(column)?)?;
            add_lasting_keys(alloc, elements, column)
        }
        Item::Key(key) => add_lasting_key(alloc, elements, key),
        Item::Passed(_) => Ok(()),
    }
}

/// Adds the columns and keys of entries.
pub fn add_items(
    alloc: Global,
    elements: &mut Vec<DeclaredElement>,
    items: &[Item],
) -> Result<(), AllocError>
    ensures { OnOk result (map element_of elements.new.items ≡ map element_of elements.old.items ++ flat_map elements_of (map item_said items.now)) }
{
    for item in items {
        add_item(alloc, elements, item)?;
    }
    Ok(())
}
