//! Rows of pairs with the columns that outputs read: of the others those that are kept by position need not be there.

ghost use Rattle.std.specs.Prelude.{◌≡◌, true, All, IfOk, get_or, length, map};
ghost use Rattle.wd_joined.specs.Alike.{AreAlikeIn};
ghost use Rattle.wd_joined.specs.Pairs.{rows_paired};
ghost use Rattle.wd_nodes.specs.Marked.{HasMore, Reads};
ghost use Rattle.wd_nodes.specs.Relation.{relation_of, stored_rows_of};
ghost use Rattle.wd_plan.specs.Expressions.{expression_of};
ghost use Rattle.wd_value.specs.Rows.{Instance};

use crate::relation::Relation;
use crate::sides::store_pairs;
use crate::stored::StoredRows;
use crate::tables::Tables;
use std::alloc::Global;
use wd_columns::Pair;
use wd_join::all_pairs;
use wd_plan::Expr;
use wd_value::OutOfMemory;

/// How many columns have marks: as many as a node of a plan has at most.
const MARKS: usize = 1_024;

/// Marks of the columns that the outputs read. Columns past the marks count as marked.
pub(crate) fn columns_read(alloc: Global, outputs: &[Expr]) -> Result<Vec<bool>, OutOfMemory>
    ensures { IfOk result (λ v. All (Reads v.items) (map expression_of outputs.now)) }
{
    let mut marks = vec![in alloc; false; MARKS]?;
    for output in outputs {
        mark_read(&mut marks, output);
    }
    Ok(marks)
}

/// Marks the columns that an expression reads. The left operand comes last, so that the compiler makes a loop of that call.
fn mark_read(marks: &mut [bool], expression: &Expr)
    ensures long { length marks.new ≡ length marks.old }
    ensures more { HasMore marks.old marks.new }
    ensures reads { Reads marks.new (expression_of expression.now) }
{
    match expression {
        Expr::Column(column) => mark(marks, *column as usize),
        Expr::Literal(_, _) => {}
        Expr::Negate(a) | Expr::Not(a) | Expr::IsNull(a) | Expr::IsNotNull(a) => mark_read(
            marks, a,
        ),
        Expr::Arithmetic(_, a, b) | Expr::Compare(_, a, b) | Expr::And(a, b) | Expr::Or(a, b) => {
            mark_read(marks, b);
            mark_read(marks, a)
        }
        Expr::Case(_, a, b, c) => {
            mark_read(marks, c);
            mark_read(marks, b);
            mark_read(marks, a)
        }
    }
}

/// Marks a column.
fn mark(marks: &mut [bool], column: usize)
    ensures long { length marks.new ≡ length marks.old }
    ensures more { HasMore marks.old marks.new }
    ensures marked { get_or marks.new column true ≡ true }
{
    if column < marks.len() {
        marks[column] = true;
    }
}

/// The same rows, without tables in which only columns stand that are not marked.
pub(crate) fn keep_marked(
    alloc: Global,
    stored: StoredRows,
    marks: &[bool],
) -> Result<StoredRows, OutOfMemory>
    ensures { IfOk result (λ s. (instance : Instance) → AreAlikeIn marks.now (stored_rows_of instance s) (stored_rows_of instance stored)) }
{
    match stored {
        StoredRows::Own(rows) => {
            let kept = rows.keep(alloc, marks)?;
            Ok(StoredRows::Own(kept))
        }
        StoredRows::Table(number) => Ok(StoredRows::Table(number)),
    }
}

/// Moves a relation into stored rows, without tables in which only columns stand that are not marked.
pub(crate) fn store_marked(
    alloc: Global,
    tables: &Tables,
    relation: Relation,
    marks: &[bool],
) -> Result<StoredRows, OutOfMemory>
    ensures { IfOk result (λ s. AreAlikeIn marks.now (stored_rows_of tables.now s) (relation_of tables.now relation)) }
{
    match relation {
        Relation::Stored(stored) => keep_marked(alloc, stored, marks),
        Relation::Pairs(left, right) => {
            let left = store_marked(alloc, tables, Box::into_inner(left), marks)?;
            let pairs = all_pairs(alloc, &tables.source(&left), &tables.source(&right))?;
            marked_pairs(alloc, tables, left, right, &pairs, marks)
        }
        Relation::Joined(left, right, pairs) => {
            let left = keep_marked(alloc, left, marks)?;
            marked_pairs(alloc, tables, left, right, &pairs, marks)
        }
    }
}

/// Stores the rows of pairs, without tables in which only columns stand that are not marked.
fn marked_pairs(
    alloc: Global,
    tables: &Tables,
    left: StoredRows,
    right: StoredRows,
    pairs: &[Pair],
    marks: &[bool],
) -> Result<StoredRows, OutOfMemory>
    ensures { IfOk result (λ s. AreAlikeIn marks.now (stored_rows_of tables.now s) (rows_paired (stored_rows_of tables.now left) (stored_rows_of tables.now right) pairs.now)) }
{
    let rows = store_pairs(alloc, tables, left, right, pairs)?;
    keep_marked(alloc, rows, marks)
}
