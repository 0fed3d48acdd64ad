//! What a node gives to the step above it.

ghost use Rattle.std.specs.Prelude.{◌≡◌, IfOk, List, nat_lt, length};
ghost use Rattle.wd_join.specs.Joins.{AreEnough, pairs_or_fault_of};
ghost use Rattle.wd_nodes.specs.Relation.{relation_of, relation_or_fault_of, stored_rows_of};
ghost use Rattle.wd_plan.specs.Expressions.{expression_of};
ghost use Rattle.wd_plan.specs.Outcomes.{outcome_of};
ghost use Rattle.wd_value.specs.Rows.{Instance};

use crate::sides::store_pairs;
use crate::stored::{StoredRows, into_own_rows};
use crate::tables::Tables;
use std::alloc::Global;
use wd_columns::{Columns, OwnRows, Pair};
use wd_join::{all_pairs, narrow_pairs};
use wd_plan::{Expr, Outcome};
use wd_value::{Fault, OutOfMemory};

/// What a node gives to the step above it, where it has no fault: rows, or pairs of a left and a right row, the left one outermost, which
/// are not made yet: all of them, since a condition above may want few of these, or those of a join, since a Map above may want few
/// columns.
#[derive(Drop)]
pub enum Relation {
    Stored(StoredRows),
    /// All pairs. The left rows may be pairs themselves.
    Pairs(Box<Relation>, StoredRows),
    /// Pairs by their positions in both sides.
    Joined(StoredRows, StoredRows, Vec<Pair>),
}

/// Moves a relation into stored rows, for which its pairs are made.
pub fn store(alloc: Global, tables: &Tables, relation: Relation) -> Result<StoredRows, OutOfMemory>
    ensures { IfOk result (λ s. stored_rows_of tables.now s ≡ relation_of tables.now relation) }
{
    match relation {
        Relation::Stored(stored) => Ok(stored),
        Relation::Pairs(left, right) => {
            let left = store(alloc, tables, Box::into_inner(left))?;
            let pairs = all_pairs(alloc, &tables.source(&left), &tables.source(&right))?;
            store_pairs(alloc, tables, left, right, &pairs)
        }
        Relation::Joined(left, right, pairs) => store_pairs(alloc, tables, left, right, &pairs),
    }
}

/// Moves a relation into stored rows. Of pairs only those are made that the condition above can be true for, whatever row follows them:
/// where it joins each right side to what stands left of it by equalities, no product is made.
pub(crate) fn narrow(
    alloc: Global,
    tables: &Tables,
    condition: &Expr,
    relation: Relation,
) -> Result<StoredRows, OutOfMemory>
    ensures { IfOk result (λ s. AreEnough (expression_of condition.now) (relation_of tables.now relation) (stored_rows_of tables.now s)) }
{
    match relation {
        Relation::Pairs(left, right) => {
            let left = narrow(alloc, tables, condition, Box::into_inner(left))?;
            let pairs = narrow_pairs(
                alloc,
                condition,
                &tables.source(&left),
                &tables.source(&right),
            )?;
            store_pairs(alloc, tables, left, right, &pairs)
        }
        other => store(alloc, tables, other),
    }
}

/// Whether there are more rows than `most`; pairs are counted and not made.
pub(crate) fn has_more(tables: &Tables, relation: &Relation, most: u64) -> bool
    ensures { result ≡ nat_lt most (length (relation_of tables.now relation.now)) }
{
    match relation {
        Relation::Stored(stored) => tables.source(stored).len() as u64 > most,
        Relation::Pairs(left, right) => {
            let count = tables.source(right).len() as u64;
            if count == 0 {
                false
            } else {
                has_more(tables, left, most / count)
            }
        }
        Relation::Joined(_, _, pairs) => pairs.len() as u64 > most,
    }
}

/// Pairs that were found in two sides, or the fault.
pub(crate) fn from_pairs(
    left: StoredRows,
    right: StoredRows,
    found: Result<Vec<Pair>, Fault>,
) -> Result<Relation, Fault>
    ensures { (instance : Instance) → relation_or_fault_of instance result ≡ pairs_or_fault_of (stored_rows_of instance left) (stored_rows_of instance right) found }
{
    match found {
        Ok(pairs) => Ok(Relation::Joined(left, right, pairs)),
        Err(fault) => Err(fault),
    }
}

/// Rows that were made column by column, or the fault.
pub(crate) fn from_columns(made: Result<Columns, Fault>) -> Result<Relation, Fault>
    ensures { (instance : Instance) → relation_or_fault_of instance result ≡ made }
{
    match made {
        Ok(columns) => Ok(Relation::Stored(StoredRows::Own(OwnRows::of_columns(columns)))),
        Err(fault) => Err(fault),
    }
}

/// Moves what a node gives into an outcome of its own, for which a table is copied.
pub fn into_outcome(
    alloc: Global,
    tables: &Tables,
    given: Result<Relation, Fault>,
) -> Result<Outcome, OutOfMemory>
    ensures { IfOk result (λ o. outcome_of o ≡ relation_or_fault_of tables.now given) }
{
    match given {
        Ok(relation) => {
            let stored = store(alloc, tables, relation)?;
            let rows = into_own_rows(alloc, tables, stored)?;
            Ok(Outcome::Rows(rows.into_list(alloc)?))
        }
        Err(fault) => Ok(Outcome::Fault(fault)),
    }
}
