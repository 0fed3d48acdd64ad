//! The select list: its outputs and their names.

ghost use Rattle.std.specs.Prelude.{◌≡◌, [], ◌∷◌, ◌++◌, IfOk, Ok, filter, map, option_map};
ghost use Rattle.std.specs.List.{cons_option};
ghost use Rattle.wd_syntax.specs.View.{view, view_item};
ghost use Rattle.wd_syntax.specs.Tree.{shown};
ghost use Rattle.wd_resolve_operand.specs.Causes.{Gives};
ghost use Rattle.wd_resolve_scope.specs.Resolving.{context_of};
ghost use Rattle.wd_resolve_list.specs.Outputs.{output_of};
ghost use Rattle.wd_resolve_list.specs.Outputs as spec;

use crate::output::Output;
use std::alloc::Global;
use wd_resolve_operand::{BoundExpression, Cause, ResolveError};
use wd_resolve_scope::{Context, RowReference, ScopeColumn, SelectReference, resolve_expression};
use wd_syntax as written;
use wd_syntax::{Alias, Item, Sign};
use wd_value::{OutOfMemory, Text};

/// The name of an output that has no alias and shows neither a column nor a call.
const UNNAMED: &str = "?column?";

/// The name of an output without an alias: that of its column or of its function; brackets and plus signs don't count.
fn name_of(tree: &written::Expr) -> &str
    ensures { result.now ≡ spec.name_of (view tree.now) }
{
    match tree {
        written::Expr::Column(name) => name.text.as_str(),
        written::Expr::Qualified(_, name) => name.text.as_str(),
        written::Expr::CallAll(function, _) => function.text.as_str(),
        written::Expr::Call(function, _, _) => function.text.as_str(),
        written::Expr::Bracket(inner) => name_of(inner),
        written::Expr::Signed(Sign::Plus, inner) => name_of(inner),
        _ => UNNAMED,
    }
}

fn output_name<'a>(tree: &'a written::Expr, alias: &'a Option<Alias>) -> &'a str
    ensures { result.now ≡ spec.name_shown (view tree.now) alias.now }
{
    match alias {
        Some(alias) => alias.name.text.as_str(),
        None => name_of(tree),
    }
}

/// Whether a column is of the table of that name; any column where no table is named.
fn is_of(table: Option<&Text>, column: &ScopeColumn) -> bool
    ensures { result ≡ spec.is_of (option_map (λ t. t.now) table.entry) column.now }
{
    match table {
        Some(table) => column.table.as_str() == table.as_str(),
        None => true,
    }
}

/// A column of FROM as an output.
fn column_output(alloc: Global, number: u16, column: &ScopeColumn) -> Result<Output, ResolveError>
    ensures { Gives output_of result (Ok (spec.column_output (number, column.now))) }
{
    Ok(Output {
        name: column.name.copy()?,
        expression: BoundExpression::Reference(SelectReference::Row(RowReference::Column(number))),
        kind: column.kind,
    })
}

/// A column of FROM as an output; 417 where a grouped select is not grouped by it.
fn column_of(
    alloc: Global,
    context: &Context<'_>,
    table: Option<&Text>,
    number: u16,
    column: &ScopeColumn,
) -> Result<Option<Output>, ResolveError>
    ensures { Gives (λ o. cons_option (option_map output_of o) []) result (spec.columns_shown (context_of context.now).groups (filter (λ x. spec.is_of (option_map (λ t. t.now) table.entry) x.1) ((number, column.now) ∷ []))) }
{
    if !is_of(table, column) {
        return Ok(None);
    }
    context.allow_column(number)?;
    Ok(Some(column_output(alloc, number, column)?))
}

/// Adds the output, if there is one.
fn add_shown(outputs: &mut Vec<Output>, shown: Option<Output>) -> Result<(), OutOfMemory>
    ensures { IfOk result (λ u. map output_of outputs.new.items ≡ map output_of outputs.old.items ++ cons_option (option_map output_of shown) []) }
{
    if let Some(output) = shown {
        outputs.push(output)?;
    }
    Ok(())
}

/// The columns in scope, or those of one table of FROM; 417 where a grouped select is not grouped by one of them.
fn columns_of(
    alloc: Global,
    context: &Context<'_>,
    table: Option<&Text>,
) -> Result<Vec<Output>, ResolveError>
    ensures { Gives (λ v. map output_of v.items) result (spec.columns_of (context_of context.now).groups (context_of context.now).scope (option_map (λ t. t.now) table.entry)) }
{
    let mut outputs = Vec::new(alloc);
    for (number, column) in context.scope.columns.iter().enumerate() {
        let shown = column_of(alloc, context, table, number as u16, column)?;
        add_shown(&mut outputs, shown)?;
    }
    Ok(outputs)
}

/// The columns of one table of FROM; 401 where there is none of that name.
fn outputs_of_table(
    alloc: Global,
    context: &Context<'_>,
    table: &Text,
) -> Result<Vec<Output>, ResolveError>
    ensures { Gives (λ v. map output_of v.items) result (spec.table_shown (context_of context.now).groups (context_of context.now).scope table.now) }
{
    if context.scope.has_table(table) {
        columns_of(alloc, context, Some(table))
    } else {
        Err(ResolveError::Refused(Cause::UnknownTable))
    }
}

/// The output of an expression of the select list.
fn resolve_output(
    alloc: Global,
    context: &Context<'_>,
    tree: &written::Expr,
    alias: &Option<Alias>,
) -> Result<Vec<Output>, ResolveError>
    ensures { Gives (λ v. map output_of v.items) result (spec.item_meant (context_of context.now) (shown (view tree.now) alias.now)) }
{
    let operand = resolve_expression(alloc, context, tree)?;
    let kind = operand.kind();
    let mut outputs = Vec::with_capacity(alloc, 1)?;
    outputs.push(Output {
        name: Text::from_str(alloc, output_name(tree, alias))?,
        expression: operand.settled(),
        kind,
    })?;
    Ok(outputs)
}

/// The outputs of a member of the select list.
pub fn resolve_item(
    alloc: Global,
    context: &Context<'_>,
    item: &Item,
) -> Result<Vec<Output>, ResolveError>
    ensures { Gives (λ v. map output_of v.items) result (spec.item_meant (context_of context.now) (view_item item.now)) }
{
    match item {
        Item::All => columns_of(alloc, context, None),
        Item::AllOf(table) => outputs_of_table(alloc, context, &table.text),
        Item::Expr(tree, alias) => resolve_output(alloc, context, tree, alias),
    }
}
