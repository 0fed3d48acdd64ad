//! From the texts of a schema and a query to a witness and its text.

ghost use Rattle.std.specs.Prelude.{◌≡◌, true, IfOk, IfSome};
ghost use Rattle.wd_further.specs.Finds.{IsFound, IsSoughtFurther};
ghost use Rattle.wd_plan.specs.Fits.{fits};
ghost use Rattle.wd_plan.specs.Plans.{plan_of};
ghost use Rattle.wd_query.specs.Readings.{IsRead};
ghost use Rattle.wd_schema.specs.Schemas.{schema_of};

use crate::search::search;
use std::alloc::Global;
use wd_query::{PlannedQuery, read_texts};
use wd_value::OutOfMemory;
use wd_witness_text::Witness;

/// A witness, and the text of it that `refute` accepts.
#[derive(Drop)]
pub struct Found {
    pub witness: Witness,
    pub text: Vec<u8>,
}

/// A true witness of the query of a text over the schema of a text: two answers that the query has over tables that meet the schema,
/// under lawful orderings. It is over the first candidate of the search that shows two answers. `None` where a text is refused, or
/// where no candidate shows two; that says nothing of the query.
///
/// For queries that `decide` leaves open, since that call's own search comes before. The candidates are tables of 2, 3 and 4 rows, and
/// of one and two more rows than a count with its offset or than another number in the query, at most 64. Size after size is searched,
/// the smallest first, so the witness is over the smallest of the tables that show two answers. One that does not meet the schema is
/// passed over. For each size rows that tie are put in reverse order in one ordering after another; in a second turn the first of them
/// is moved to the end, and in a third neighbours are exchanged. Each size has an equal share of 1,000 evaluations in the first turn
/// and of 500 in each of the others, and in each turn of 600 tries and of an amount of work that is estimated beforehand.
pub fn seek_further(
    alloc: Global,
    schema: &[u8],
    query: &[u8],
) -> Result<Option<Found>, OutOfMemory>
    ensures found { IfOk result (λ o. IfSome o (IsFound schema.now query.now)) }
    ensures sought { IfOk result (IsSoughtFurther schema.now query.now) }
{
    match read_texts(alloc, schema, query) {
        Ok(planned) => find_in(alloc, schema, query, &planned),
        Err(error) => match error.number() {
            Some(_) => Ok(None),
            None => Err(OutOfMemory),
        },
    }
}

/// What the search finds for a plan, with its text.
fn find_in(
    alloc: Global,
    schema: &[u8],
    query: &[u8],
    planned: &PlannedQuery,
) -> Result<Option<Found>, OutOfMemory>
    requires read { IsRead schema.now query.now planned.now }
    requires fits { fits (schema_of planned.now.schema) (plan_of planned.now.resolved.plan) ≡ true }
    ensures found { IfOk result (λ o. IfSome o (IsFound schema.now query.now)) }
    ensures sought { IfOk result (IsSoughtFurther schema.now query.now) }
{
    match search(alloc, &planned.schema, &planned.resolved.plan)? {
        None => Ok(None),
        Some(witness) => {
            let text = witness.to_json(alloc)?;
            Ok(Some(Found { witness, text }))
        }
    }
}
