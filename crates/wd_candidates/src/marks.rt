//! Columns that are marked by their numbers.

ghost use Rattle.std.specs.Prelude.{◌≡◌, ◌&&◌, ℕ, false, length, nat_eq, option_to_list, IfOk};
ghost use Rattle.wd_candidates.specs.Marks.{MarkMore, MarksMore, is_marked, marks_of};
ghost use Rattle.wd_facts.specs.Given.{table_rule};
ghost use Rattle.wd_step_facts.specs.Steps.{used};
ghost use Rattle.wd_plan.specs.Expressions.{expression_of};
ghost use Rattle.wd_plan.specs.Plans.{class_of, has};
ghost use Rattle.wd_plan.specs.Sorting.{class_columns};
ghost use Rattle.wd_schema.specs.Schemas.{schema_of};
ghost use Rattle.wd_value.specs.Keys.{key_columns};

use std::alloc::Global;
use wd_plan::{Class, Expr};
use wd_schema::Schema;
use wd_value::{OutOfMemory, SortColumn};

/// Marks for `columns` columns, none of them set.
pub(crate) fn no_marks(alloc: Global, columns: usize) -> Result<Vec<bool>, OutOfMemory>
    ensures long { IfOk result (λ v. length v.items ≡ columns) }
    ensures none { IfOk result (λ v. (c : ℕ) → is_marked v.items c ≡ false) }
{
    let marks = vec![in alloc; false; columns]?;
    Ok(marks)
}

/// Whether a column is marked.
pub fn is_marked(marks: &[bool], column: usize) -> bool
    ensures { result ≡ is_marked marks.now column }
{
    match marks.get(column) {
        Some(mark) => *mark,
        None => false,
    }
}

/// Marks a column, where there is one with the number.
fn mark_column(marks: &mut [bool], column: u16)
    ensures { MarksMore marks.old (λ c. nat_eq c column) marks.new }
{
    let column = usize::from(column);
    if column < marks.len() {
        marks[column] = true;
    }
}

/// Marks these columns.
pub(crate) fn mark_columns(marks: &mut [bool], columns: &[u16])
    ensures { MarksMore marks.old (λ c. has columns.now c) marks.new }
{
    for column in columns {
        mark_column(marks, *column);
    }
}

/// Marks the columns of sort keys.
pub(crate) fn mark_keys(marks: &mut [bool], keys: &[SortColumn])
    ensures { MarksMore marks.old (λ c. has (key_columns keys.now) c) marks.new }
{
    for key in keys {
        mark_column(marks, key.column);
    }
}

/// Marks the columns of a class.
pub(crate) fn mark_class(marks: &mut [bool], class: &Class)
    ensures { MarksMore marks.old (λ c. has (class_columns (class_of class.now)) c) marks.new }
{
    mark_columns(marks, &class.partition);
    mark_keys(marks, &class.order);
}

/// Marks a value argument, where there is one.
pub(crate) fn mark_argument(marks: &mut [bool], argument: Option<u16>)
    ensures { MarksMore marks.old (λ c. has (option_to_list argument) c) marks.new }
{
    if let Some(column) = argument {
        mark_column(marks, column);
    }
}

/// Marks the columns that an expression uses. The left operand comes last: a compiler makes a loop of that call.
pub(crate) fn mark_used(marks: &mut [bool], expression: &Expr)
    ensures { MarksMore marks.old (λ c. has (used (expression_of expression.now)) c) marks.new }
{
    match expression {
        Expr::Column(column) => mark_column(marks, *column),
        Expr::Literal(_, _) => {}
        Expr::Negate(a) => mark_used(marks, a),
        Expr::Arithmetic(_, a, b) => {
            mark_used(marks, b);
            mark_used(marks, a);
        }
        Expr::Compare(_, a, b) => {
            mark_used(marks, b);
            mark_used(marks, a);
        }
        Expr::Not(a) => mark_used(marks, a),
        Expr::And(a, b) => {
            mark_used(marks, b);
            mark_used(marks, a);
        }
        Expr::Or(a, b) => {
            mark_used(marks, b);
            mark_used(marks, a);
        }
        Expr::IsNull(a) => mark_used(marks, a),
        Expr::IsNotNull(a) => mark_used(marks, a),
        Expr::Case(_, a, b, c) => {
            mark_used(marks, a);
            mark_used(marks, b);
            mark_used(marks, c);
        }
    }
}

/// Marks the columns that are marked in another list, too.
pub(crate) fn mark_same(marks: &mut [bool], others: &[bool])
    ensures { MarksMore marks.old (is_marked others.now) marks.new }
{
    for column in 0..marks.len() {
        if is_marked(others, column) {
            marks[column] = true;
        }
    }
}

/// Marks the columns of a table, where there is one with the number.
pub(crate) fn mark_table(tables: &mut [Vec<bool>], table: u16, columns: &[bool])
    ensures { MarkMore tables.old (λ other c. nat_eq table other && is_marked columns.now c) tables.new }
{
    let table = usize::from(table);
    if table < tables.len() {
        mark_same(&mut tables[table], columns);
    }
}

/// The number of columns of the table with this number; none past the last table.
fn width_of(schema: &Schema, number: usize) -> usize
    ensures { result ≡ length (table_rule (schema_of schema.now) number).columns }
{
    match schema.tables.get_index(number) {
        Some((_, table)) => table.columns.len(),
        None => 0,
    }
}

/// For each table of the schema its columns, none of them marked.
pub(crate) fn unmarked_tables(alloc: Global, schema: &Schema) -> Result<Vec<Vec<bool>>, OutOfMemory>
    ensures long { IfOk result (λ v. (table : ℕ) → length (marks_of v.items table) ≡ length (table_rule (schema_of schema.now) table).columns) }
    ensures none { IfOk result (λ v. (table c : ℕ) → is_marked (marks_of v.items table) c ≡ false) }
{
    let mut tables = Vec::with_capacity(alloc, schema.tables.len())?;
    for number in 0..schema.tables.len() {
        let marks = no_marks(alloc, width_of(schema, number))?;
        tables.push(marks)?;
    }
    Ok(tables)
}
