//! A query without NATURAL JOIN.

ghost use Rattle.std.specs.Prelude.{◌≡◌, map, IfOk};
ghost use Rattle.wd_clauses.specs.Given.{Finds};
ghost use Rattle.wd_distinct_on.specs.Respelled.{Gives, MayWrite};
ghost use Rattle.wd_natural.specs.Named.{natural_table};
ghost use Rattle.wd_natural.specs.Respelled as spec;
ghost use Rattle.wd_schema.specs.Schemas.{schema_of};

use crate::join::{Joined, joined_tables};
use crate::kind::{has_natural, starts_with_from};
use crate::write::write_clause;
use std::alloc::{AllocError, Global};
use wd_clauses::{RespellError, Stop, split};
use wd_distinct_on::{Selects, respell_backwards, split_at_place};
use wd_lex::Token;
use wd_schema::Schema;

// The most FROM clauses that are looked at.
const MOST_CLAUSES: usize = 128;

/// The tables of a FROM clause, if NATURAL is in it.
fn tables_in<'t>(
    alloc: Global,
    schema: &'t Schema,
    clause: &'t [Token],
) -> Result<Option<Vec<Joined<'t>>>, AllocError>
    ensures { IfOk result (λ found. Finds (λ x. map natural_table x.items) found (spec.tables_in (schema_of schema.now) clause.now)) }
{
    if has_natural(clause) {
        return joined_tables(alloc, schema, clause);
    }
    Ok(None)
}

/// What replaces a FROM clause between these tokens.
fn respelled_clause(
    alloc: Global,
    schema: &Schema,
    front: &[Token],
    clause: &[Token],
    after: &[Token],
) -> Result<Option<Vec<Token>>, RespellError>
    ensures { MayWrite (λ x. x.items) result (spec.respelled_clause (schema_of schema.now) front.now clause.now after.now) }
{
    match tables_in(alloc, schema, clause)? {
        Some(tables) => {
            let tokens = write_clause(alloc, front, &tables, after)?;
            Ok(Some(tokens))
        }
        None => Ok(None),
    }
}

/// The query in which the FROM clause that begins at a place is respelled.
#[tactic(auto, unfolding(crate::specs::Respelled::respell_at))]
fn respell_at(
    alloc: Global,
    schema: &Schema,
    place: usize,
    tokens: &[Token],
) -> Result<Option<Vec<Token>>, RespellError>
    ensures { MayWrite (λ x. x.items) result (spec.respell_at (schema_of schema.now) place tokens.now) }
{
    let (front, rest) = split_at_place(place, tokens);
    if starts_with_from(rest) {
        let (clause, after) = split(Stop::Clause, rest);
        return respelled_clause(alloc, schema, front, clause, after);
    }
    Ok(None)
}

/// The respelling of FROM clauses with NATURAL JOIN, over a schema.
#[derive(Clone, Copy)]
struct Naturals<'s> {
    schema: &'s Schema,
}

impl<'s> Selects for Naturals<'s> {
    ghost use Rattle.wd_distinct_on.specs.Kinds.{begins, is_from};
    ghost use Rattle.wd_natural.specs.Respelled as spec;
    ghost use Rattle.wd_schema.specs.Schemas.{schema_of};

    ghost starts = { λ _. begins is_from };

    ghost respelled = { λ naturals. spec.respell_at (schema_of naturals.schema.now) };

    fn begins(&self, tokens: &[Token]) -> bool {
        starts_with_from(tokens)
    }

    fn respell_at(
        &self,
        alloc: Global,
        place: usize,
        tokens: &[Token],
    ) -> Result<Option<Vec<Token>>, RespellError> {
        respell_at(alloc, self.schema, place, tokens)
    }
}

/// The query without NATURAL JOIN, as far as its FROM clauses are read. An error if the query or the result is longer than 65,536 tokens,
/// or if memory runs out.
pub fn without_natural(
    alloc: Global,
    schema: &Schema,
    tokens: &[Token],
) -> Result<Vec<Token>, RespellError>
    ensures { Gives (λ x. x.items) result (spec.respelled (schema_of schema.now) tokens.now) }
{
    respell_backwards(alloc, &Naturals { schema }, MOST_CLAUSES, tokens)
}
