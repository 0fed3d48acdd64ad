//! Uses of names, as columns of a schema and in a query, each with what the values of the name are there.

ghost use Rattle.std.specs.Prelude.{◌≡◌, ◌++◌, map, IfOk, Option};
ghost use Rattle.wd_dialect_read.specs.declared.kind.ColumnKind.{ColumnKind};
ghost use Rattle.wd_amounts.specs.Seen.{use_seen};
ghost use Rattle.wd_amounts.specs.Uses.{column_uses, items_uses};

use std::alloc::Global;
use wd_dialect_read::{ColumnKind, Item, Statement};
use wd_value::OutOfMemory;

/// What may be known of the values of a name.
pub trait NameValue: Copy + Drop {
    ghost of_column: { ColumnKind → Option Self };

    ghost either: { Option Self → Option Self → Option Self };

    /// What the values of a column are.
    fn of_column(kind: ColumnKind) -> Option<Self>
        ensures { result ≡ of_column kind };

    /// What values are that are the one or the other.
    fn either(first: Option<Self>, second: Option<Self>) -> Option<Self>
        ensures { result ≡ either first second };
}

/// A use of a name, and what its values are there, where that is known.
#[derive(Clone, Copy)]
pub struct NameUse<'t, V> {
    pub name: &'t str,
    pub value: Option<V>,
}

/// Adds the columns of a table.
#[tactic(auto, unfolding(crate::specs::Uses::items_uses))]
fn push_columns<'t, V: NameValue>(
    uses: &mut Vec<NameUse<'t, V>>,
    items: &'t [Item],
) -> Result<(), OutOfMemory>
    ensures { IfOk result (λ _. map use_seen uses.new.items ≡ map use_seen uses.old.items ++ items_uses V.of_column items.now) }
{
    let mut rest = items;
    while let [item, after @ ..] = rest {
        if let Item::Column(column) = item {
            uses.push(NameUse {
                name: column.name.text.as_str(),
                value: V::of_column(column.kind),
            })?;
        }
        rest = after;
    }
    Ok(())
}

/// Adds the columns of all tables.
#[tactic(auto, unfolding(crate::specs::Uses::column_uses))]
fn push_all_columns<'t, V: NameValue>(
    uses: &mut Vec<NameUse<'t, V>>,
    statements: &'t [Statement],
) -> Result<(), OutOfMemory>
    ensures { IfOk result (λ _. map use_seen uses.new.items ≡ map use_seen uses.old.items ++ column_uses V.of_column statements.now) }
{
    let mut rest = statements;
    while let [statement, after @ ..] = rest {
        if let Statement::Table(table) | Statement::Changed(table) = statement {
            push_columns(uses, &table.items)?;
        }
        rest = after;
    }
    Ok(())
}

/// The columns of all tables, as uses of their names.
pub fn columns<V: NameValue>(
    alloc: Global,
    statements: &[Statement],
) -> Result<Vec<NameUse<'_, V>>, OutOfMemory>
    ensures { IfOk result (λ found. map use_seen found.items ≡ column_uses V.of_column statements.now) }
{
    let mut found = Vec::new(alloc);
    push_all_columns(&mut found, statements)?;
    Ok(found)
}
