//! What a Limit keeps, under an ordering of a choice or under the sorted one. Its input's rows are read where they are, and those that
//! it keeps are picked by their positions: rows that are kept column by column stay so, sorted ones too, and none is made.

ghost use Rattle.std.specs.Prelude.{◌≡◌, IfOk, Ok, length};
ghost use Rattle.wd_eval.specs.Nodes.{IsLimitedOrUnserved};
ghost use Rattle.wd_nodes.specs.Relation.{relation_of, relation_or_fault_of, stored_rows_of};
ghost use Rattle.wd_eval.specs.Ties.{IsStableStep};
ghost use Rattle.wd_eval.specs.Walks.{GivesOrStops, IsWithin};
ghost use Rattle.wd_plan.specs.Outcomes.{limited_rows};
ghost use Rattle.wd_plan.specs.Plans as tree;
ghost use Rattle.wd_plan.specs.Plans.{limit_of};
ghost use Rattle.wd_value.specs.Bags.{EachOnce};
ghost use Rattle.wd_value.specs.Rows.{rows_at};
ghost use Rattle.wd_eval.specs.Windows.{orderings_of};

use crate::error::EvalError;
use crate::orderings::Orderings;
use crate::turned::{Turned, turn_of};
use std::alloc::Global;
use wd_nodes::{Relation, StoredRows, Tables, pick_rows, store};
use wd_partition::{is_ordering, sorted_ordering};
use wd_plan::Limit;
use wd_steps::kept_positions;
use wd_value::{Fault, OutOfMemory};

/// What the limit keeps of its input under the next ordering, which has to be lawful.
pub(crate) fn limit_rows(
    alloc: Global,
    tables: &Tables,
    limit: &Limit,
    input: Relation,
    orderings: &mut Orderings,
) -> Result<Result<Relation, Fault>, EvalError>
    requires { IsWithin orderings.old }
    ensures { GivesOrStops (relation_or_fault_of tables.now) (tree.Limit (limit_of limit.now)) (Ok (relation_of tables.now input)) orderings.old orderings.new result }
{
    let input = store(alloc, tables, input)?;
    match orderings {
        Orderings::Chosen { choice, next, .. } => {
            let kept = chosen_limit(alloc, tables, limit, input, choice, *next)?;
            *next += 1;
            Ok(Ok(Relation::Stored(kept)))
        }
        Orderings::Sorted { turned, made } => {
            let kept = sorted_limit(alloc, tables, limit, input, *turned, made)?;
            Ok(Ok(Relation::Stored(kept)))
        }
        Orderings::Stable => {
            let made = &mut Vec::new(alloc);
            let kept = sorted_limit(alloc, tables, limit, input, None, made)?;
            Ok(Ok(Relation::Stored(kept)))
        }
    }
}

/// What the limit keeps of its input under the choice's ordering with this number, which is checked.
fn chosen_limit(
    alloc: Global,
    tables: &Tables,
    limit: &Limit,
    input: StoredRows,
    choice: &[Vec<u64>],
    number: usize,
) -> Result<StoredRows, EvalError>
    ensures { IsLimitedOrUnserved (λ s. Ok (stored_rows_of tables.now s)) (limit_of limit.now) (Ok (stored_rows_of tables.now input)) (orderings_of choice.now) number result }
{
    let Some(ordering) = choice.get(number) else {
        return Err(EvalError::NotValid(number as u64));
    };
    if !is_ordering(alloc, &tables.source(&input), &[], &limit.keys, ordering)? {
        return Err(EvalError::NotValid(number as u64));
    }
    let kept = limit_stored(alloc, tables, limit, input, ordering)?;
    Ok(kept)
}

/// What the limit keeps of its input under the sorted ordering, which is used as it is.
fn sorted_limit(
    alloc: Global,
    tables: &Tables,
    limit: &Limit,
    input: StoredRows,
    turned: Option<Turned>,
    made: &mut Vec<Vec<u64>>,
) -> Result<StoredRows, OutOfMemory>
    ensures { IfOk result (λ s. IsStableStep (tree.Limit (limit_of limit.now)) (Ok (stored_rows_of tables.now input)) turned (orderings_of made.old.items) (orderings_of made.new.items) (Ok (stored_rows_of tables.now s))) }
{
    let turn = turn_of(turned, made.len());
    let ordering = sorted_ordering(alloc, &tables.source(&input), &[], &limit.keys, turn)?;
    let kept = limit_stored(alloc, tables, limit, input, &ordering)?;
    made.push(ordering)?;
    Ok(kept)
}

/// What the limit keeps of rows under an ordering that has each of their positions once.
fn limit_stored(
    alloc: Global,
    tables: &Tables,
    limit: &Limit,
    input: StoredRows,
    ordering: &[u64],
) -> Result<StoredRows, OutOfMemory>
    requires { EachOnce (length (stored_rows_of tables.now input)) ordering.now }
    ensures { IfOk result (λ s. stored_rows_of tables.now s ≡ limited_rows (limit_of limit.now) (rows_at (stored_rows_of tables.now input) ordering.now)) }
{
    let kept = kept_positions(limit, &tables.source(&input), ordering);
    pick_rows(alloc, tables, input, kept)
}
