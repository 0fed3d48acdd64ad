//! The tables of FROM.

ghost use Rattle.std.specs.Prelude.{◌≡◌, ◌+◌, ◌≤◌, ◌++◌, map, length, option_map, vec_len, Some, IfOk};
ghost use Rattle.wd_plan.specs.Expressions.{expression_of};
ghost use Rattle.wd_schema.specs.Schemas.{schema_of};
ghost use Rattle.wd_schema.specs.Tables.{table_of};
ghost use Rattle.std.specs.List.{list_any};
ghost use Rattle.wd_resolve_operand.specs.Causes.{Gives};
ghost use Rattle.wd_resolve_scope.specs.Scopes.{scope_of};
ghost use Rattle.wd_resolve_scope.specs.Scopes as scopes;
ghost use Rattle.wd_resolve.specs.Selected.{joined_of, from_of, lowered_of};
ghost use Rattle.wd_resolve.specs.Selected as spec;
ghost use Rattle.wd_resolve.specs.Lowering as lowering;
ghost use Rattle.wd_resolve.specs.Widths.{tables_before, columns_before};
ghost use Rattle.wd_syntax.specs.View.{view};

use crate::part::{FromSoFar, JoinedTables, LoweredSelect};
use std::alloc::Global;
use wd_plan::{Expr, Plan, kind_of_type};
use wd_resolve_operand::{Cause, ResolveError};
use wd_resolve_scope::{MOST_COLUMNS, Place, Scope, ScopeColumn, condition};
use wd_resolve_select::OutputColumn;
use wd_schema::{Schema, Table};
use wd_value::{OutOfMemory, Text};

/// The most tables of one FROM.
const MOST_TABLES: usize = 8;

/// The number of the schema's table of that name.
fn table_number(schema: &Schema, name: &Text) -> Option<usize>
    ensures { result ≡ spec.table_number (schema_of schema.now) name.now }
{
    for number in 0..schema.tables.len() {
        if is_named(schema, number, name) {
            return Some(number);
        }
    }
    None
}

/// Whether the table of that number has the name.
fn is_named(schema: &Schema, number: usize, name: &Text) -> bool
    ensures { result ≡ spec.is_named (schema_of schema.now) name.now number }
{
    match schema.tables.get_index(number) {
        Some((_, table)) => table.name.as_str() == name.as_str(),
        None => false,
    }
}

/// The columns of a table of the schema, as columns in scope.
fn scope_columns(alloc: Global, table: &Table, name: &Text) -> Result<Vec<ScopeColumn>, OutOfMemory>
    ensures columns { IfOk result (λ v. v.items ≡ map (spec.table_column name.now) (table_of table.now).columns) }
    ensures as_many { IfOk result (λ v. vec_len v ≡ vec_len table.now.columns) }
{
    let mut columns = Vec::with_capacity(alloc, table.columns.len())?;
    for column in &table.columns {
        columns.push(ScopeColumn {
            table: name.copy()?,
            name: column.name.copy()?,
            kind: kind_of_type(column.kind),
        })?;
    }
    Ok(columns)
}

/// A table of the schema as a Scan, under its name in FROM.
fn scan(alloc: Global, number: u16, table: &Table, name: Text) -> Result<JoinedTables, ResolveError>
    requires { vec_len table.now.columns ≤ 256 }
    ensures { Gives joined_of result (spec.scan name number (Some (table_of table.now))) }
{
    let columns = scope_columns(alloc, table, &name)?;
    let mut tables = Vec::new(alloc);
    tables.push(name)?;
    Ok(JoinedTables {
        plan: Plan::Scan {
            table: number,
            columns: columns.len() as u16,
        },
        scope: Scope { tables, columns },
    })
}

/// The schema's table of a name, under another name in FROM; 401 where there is none.
pub fn named_table(
    alloc: Global,
    schema: &Schema,
    table: &Text,
    name: &Text,
) -> Result<JoinedTables, ResolveError>
    ensures { Gives joined_of result (spec.named_table (schema_of schema.now) table.now name.now) }
{
    let Some(number) = table_number(schema, table) else {
        return Err(ResolveError::Refused(Cause::UnknownTable));
    };
    match schema.tables.get_index(number) {
        Some((_, table)) => scan(alloc, number as u16, table, name.copy()?),
        None => Err(ResolveError::Refused(Cause::UnknownTable)),
    }
}

/// The outputs of a derived table, as columns in scope.
fn derived_columns(
    alloc: Global,
    name: &Text,
    outputs: Vec<OutputColumn>,
) -> Result<Vec<ScopeColumn>, OutOfMemory>
    ensures columns { IfOk result (λ v. v.items ≡ map (spec.derived_column name.now) outputs.items) }
    ensures as_many { IfOk result (λ v. vec_len v ≡ vec_len outputs) }
{
    let mut columns = Vec::with_capacity(alloc, outputs.len())?;
    for output in outputs {
        columns.push(ScopeColumn {
            table: name.copy()?,
            name: output.name,
            kind: output.kind,
        })?;
    }
    Ok(columns)
}

/// A derived table: the plan of its select.
pub fn derived_table(
    alloc: Global,
    name: &Text,
    lowered: LoweredSelect,
) -> Result<JoinedTables, OutOfMemory>
    ensures { IfOk result (λ p. joined_of p ≡ spec.derived_table name.now (lowered_of lowered)) }
{
    let LoweredSelect { plan, columns } = lowered;
    let columns = derived_columns(alloc, name, columns)?;
    let mut tables = Vec::new(alloc);
    tables.push(name.copy()?)?;
    Ok(JoinedTables {
        scope: Scope { tables, columns },
        plan,
    })
}

/// Two scopes, the columns of the left one first.
fn concatenate(left: Scope, right: Scope) -> Result<Scope, OutOfMemory>
    requires { vec_len left.columns + vec_len right.columns ≤ 1024 }
    ensures beside { IfOk result (λ s. scope_of s ≡ scopes.beside (scope_of left) (scope_of right)) }
    ensures tables { IfOk result (λ s. vec_len s.tables ≡ vec_len left.tables + vec_len right.tables) }
    ensures columns { IfOk result (λ s. vec_len s.columns ≡ vec_len left.columns + vec_len right.columns) }
{
    let Scope {
        mut tables,
        mut columns,
    } = left;
    let mut more = right;
    tables.append(&mut more.tables)?;
    columns.append(&mut more.columns)?;
    Ok(Scope { tables, columns })
}

/// Two parts, the left one first, with the condition that joins them.
fn join_parts(
    alloc: Global,
    condition: Option<Expr>,
    left: JoinedTables,
    right: JoinedTables,
) -> Result<JoinedTables, OutOfMemory>
    requires { vec_len left.scope.columns + vec_len right.scope.columns ≤ 1024 }
    ensures joined { IfOk result (λ p. joined_of p ≡ spec.joined (option_map expression_of condition) (joined_of left) (joined_of right)) }
    ensures tables { IfOk result (λ p. vec_len p.scope.tables ≡ vec_len left.scope.tables + vec_len right.scope.tables) }
    ensures columns { IfOk result (λ p. vec_len p.scope.columns ≡ vec_len left.scope.columns + vec_len right.scope.columns) }
{
    let scope = concatenate(left.scope, right.scope)?;
    Ok(JoinedTables {
        scope,
        plan: Plan::Join {
            left: Box::new(alloc, left.plan)?,
            right: Box::new(alloc, right.plan)?,
            condition,
        },
    })
}

/// The parts between commas, joined from the left without a condition.
fn together_of(
    alloc: Global,
    before: Option<JoinedTables>,
    current: JoinedTables,
) -> Result<JoinedTables, OutOfMemory>
    requires { columns_before before + vec_len current.scope.columns ≤ 1024 }
    ensures together { IfOk result (λ p. joined_of p ≡ spec.together (option_map joined_of before) (joined_of current)) }
    ensures tables { IfOk result (λ p. vec_len p.scope.tables ≡ tables_before before + vec_len current.scope.tables) }
    ensures columns { IfOk result (λ p. vec_len p.scope.columns ≡ columns_before before + vec_len current.scope.columns) }
{
    match before {
        None => Ok(current),
        Some(before) => join_parts(alloc, None, before, current),
    }
}

/// All tables of FROM, joined.
pub fn together(alloc: Global, from: FromSoFar) -> Result<JoinedTables, OutOfMemory>
    ensures { IfOk result (λ p. joined_of p ≡ spec.together (from_of from).before (from_of from).current) }
{
    together_of(alloc, from.before, from.current)
}

/// Whether a table of FROM so far has the name.
#[tactic(auto, using(crate::proofs::Beside::has_table_beside))]
fn has_table(from: &FromSoFar, name: &Text) -> bool
    ensures { result ≡ scopes.has_table (spec.scope_so_far (from_of from.now)) name.now }
{
    match &from.before {
        None => from.current.scope.has_table(name),
        Some(before) => before.scope.has_table(name) || from.current.scope.has_table(name),
    }
}

/// Whether one of the names is that of a table of FROM so far.
fn shares_name(from: &FromSoFar, names: &[Text]) -> bool
    ensures { result ≡ list_any (scopes.has_table (spec.scope_so_far (from_of from.now))) names.now }
{
    for name in names {
        if has_table(from, name) {
            return true;
        }
    }
    false
}

/// How many tables FROM has so far.
#[tactic(auto, using(crate::proofs::Beside::lengths))]
fn table_count(from: &FromSoFar) -> usize
    ensures count { result ≡ length (spec.scope_so_far (from_of from.now)).tables }
    ensures sum { result ≡ tables_before from.now.before + vec_len from.now.current.scope.tables }
{
    match &from.before {
        None => from.current.scope.tables.len(),
        Some(before) => before.scope.tables.len() + from.current.scope.tables.len(),
    }
}

/// How many columns FROM has so far.
#[tactic(auto, using(crate::proofs::Beside::lengths))]
fn column_count(from: &FromSoFar) -> usize
    ensures count { result ≡ length (spec.scope_so_far (from_of from.now)).columns }
    ensures sum { result ≡ columns_before from.now.before + vec_len from.now.current.scope.columns }
{
    match &from.before {
        None => from.current.scope.columns.len(),
        Some(before) => before.scope.columns.len() + from.current.scope.columns.len(),
    }
}

/// Whether one FROM may not have these numbers of tables and columns.
fn is_too_large(tables: usize, columns: usize) -> bool
    ensures { result ≡ spec.are_too_many tables columns }
{
    tables > MOST_TABLES || columns > MOST_COLUMNS
}

/// The first table; 415 past 8 tables or 1,024 columns.
#[tactic(auto, using(crate::proofs::Beside::none_shared))]
pub fn admit_first(part: JoinedTables) -> Result<FromSoFar, ResolveError>
    ensures { Gives from_of result (spec.first_admitted (joined_of part)) }
{
    if is_too_large(part.scope.tables.len(), part.scope.columns.len()) {
        return Err(ResolveError::Refused(Cause::TooMany));
    }
    Ok(FromSoFar {
        before: None,
        current: part,
    })
}

/// Checks a further part of FROM: 403 where FROM has its name, 415 past 8 tables or 1,024 columns.
fn admit(from: &FromSoFar, part: &JoinedTables) -> Result<(), ResolveError>
    ensures meant { Gives (λ u. joined_of part.now) result (spec.next_admitted (from_of from.now) (joined_of part.now)) }
    ensures few { IfOk result (λ u. tables_before from.now.before + vec_len from.now.current.scope.tables + vec_len part.now.scope.tables ≤ 8) }
    ensures narrow { IfOk result (λ u. columns_before from.now.before + vec_len from.now.current.scope.columns + vec_len part.now.scope.columns ≤ 1024) }
{
    if shares_name(from, &part.scope.tables) {
        return Err(ResolveError::Refused(Cause::Ambiguous));
    }
    let tables = table_count(from) + part.scope.tables.len();
    let columns = column_count(from) + part.scope.columns.len();
    if is_too_large(tables, columns) {
        return Err(ResolveError::Refused(Cause::TooMany));
    }
    Ok(())
}

/// A table after a comma, which begins a new sequence of joins.
pub fn after_comma(
    alloc: Global,
    from: FromSoFar,
    part: JoinedTables,
) -> Result<FromSoFar, ResolveError>
    ensures { Gives from_of result (lowering.after_comma (from_of from) (joined_of part)) }
{
    admit(&from, &part)?;
    let before = together_of(alloc, from.before, from.current)?;
    Ok(FromSoFar {
        before: Some(before),
        current: part,
    })
}

/// A table joined to those since the last comma, with all pairs of rows.
pub fn admit_joined(
    alloc: Global,
    from: FromSoFar,
    part: JoinedTables,
) -> Result<FromSoFar, ResolveError>
    ensures { Gives from_of result (lowering.crossed (from_of from) (joined_of part)) }
{
    admit(&from, &part)?;
    let FromSoFar { before, current } = from;
    let current = join_parts(alloc, None, current, part)?;
    Ok(FromSoFar { before, current })
}

/// A table joined to those since the last comma, on a condition over all of these.
pub fn join_on(
    alloc: Global,
    from: FromSoFar,
    part: JoinedTables,
    on: &wd_syntax::Expr,
) -> Result<FromSoFar, ResolveError>
    ensures { Gives from_of result (lowering.join_on (from_of from) (view on.now) (joined_of part)) }
{
    admit(&from, &part)?;
    let FromSoFar { before, current } = from;
    let scope = concatenate(current.scope, part.scope)?;
    let condition = condition(alloc, &scope, Place::On, on)?;
    let plan = Plan::Join {
        left: Box::new(alloc, current.plan)?,
        right: Box::new(alloc, part.plan)?,
        condition: Some(condition),
    };
    Ok(FromSoFar {
        before,
        current: JoinedTables { scope, plan },
    })
}
