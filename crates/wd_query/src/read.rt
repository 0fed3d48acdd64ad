//! From the texts of a schema and a query to the query's plan.

ghost use Rattle.std.specs.Prelude.{◌≡◌, true, IfOk, IfErr, IsSome};
ghost use Rattle.wd_plan.specs.Fits.{fits};
ghost use Rattle.wd_plan.specs.Plans.{plan_of};
ghost use Rattle.wd_query.specs.Causes.{HasQueryCause, HasTextCause, text_number};
ghost use Rattle.wd_query.specs.Laws.{HaveMeaning};
ghost use Rattle.wd_query.specs.Readings.{IsPlanned, IsRead};
ghost use Rattle.wd_resolve.specs.Answers.{resolved_of};
ghost use Rattle.wd_schema.specs.Schemas.{schema_of};
ghost use Rattle.wd_schema.specs.WellFormed.{IsWellFormed};

use crate::error::{QueryError, TextError};
use crate::laws::meaning_or_cause;
use std::alloc::Global;
use wd_lex::lex;
use wd_parse::parse;
use wd_resolve::{Resolved, resolve};
use wd_schema::{Schema, read_schema};

/// A schema, and the plan of a query over its tables with the names of its columns.
#[derive(Drop)]
pub struct PlannedQuery {
    pub schema: Schema,
    pub resolved: Resolved,
}

/// The schema of a text, and the plan of a query's text over its tables. The schema is read first.
///
/// A refusal is returned only where its cause is in the texts: 101 to 107 and 301 to 309 of the schema; 101 to 107, 201, 202 and 401 to
/// 419 of the query.
pub fn read_texts(alloc: Global, schema: &[u8], query: &[u8]) -> Result<PlannedQuery, TextError>
    ensures read { IfOk result (λ p. IsRead schema.now query.now p) }
    ensures well_formed { IfOk result (λ p. IsWellFormed (schema_of p.schema)) }
    ensures fits { IfOk result (λ p. fits (schema_of p.schema) (plan_of p.resolved.plan) ≡ true) }
    ensures refused { IfErr result (λ e. HasTextCause schema.now query.now e) }

    // Texts that have a plan, and whose query's tree keeps the limits, are refused only where memory runs out.
    ensures given { IfErr result (λ e. HaveMeaning schema.now query.now → IsSome (text_number e) → ⊥) }
{
    meaning_or_cause();
    let schema = match read_schema(alloc, schema) {
        Ok(schema) => schema,
        Err(error) => return Err(TextError::Schema(error)),
    };
    match read_query(alloc, &schema, query) {
        Ok(resolved) => Ok(PlannedQuery { schema, resolved }),
        Err(error) => Err(TextError::Query(error)),
    }
}

/// The plan of a query's text over the tables of a schema, and the names of its outputs. The text is split into tokens, these are read as
/// a tree, and the tree is resolved.
pub fn read_query(alloc: Global, schema: &Schema, text: &[u8]) -> Result<Resolved, QueryError>
    ensures planned { IfOk result (λ r. IsPlanned (schema_of schema.now) text.now (resolved_of r)) }
    ensures fits { IfOk result (λ r. fits (schema_of schema.now) (plan_of r.plan) ≡ true) }
    ensures refused { IfErr result (λ e. HasQueryCause (schema_of schema.now) text.now e) }
{
    let tokens = match lex(alloc, text) {
        Ok(tokens) => tokens,
        Err(error) => return Err(QueryError::Tokens(error)),
    };
    let query = match parse(alloc, tokens.as_slice()) {
        Ok(query) => query,
        Err(error) => return Err(QueryError::Tree(error)),
    };
    match resolve(alloc, schema, &query) {
        Ok(resolved) => Ok(resolved),
        Err(error) => Err(QueryError::Meaning(error)),
    }
}
