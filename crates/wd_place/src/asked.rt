//! Whether a text is refused by a number.

ghost use Rattle.std.specs.Prelude.{◌≡◌, ◌≢◌, ℕ, true, false, List, Some, None, IfOk};
ghost use Rattle.wd_place.specs.Places.{IsQueryPassed, IsQueryRefused, IsSchemaPassed, IsSchemaRefused};
ghost use Rattle.wd_schema.specs.Schemas.{schema_of};

use std::alloc::Global;
use wd_query::read_query;
use wd_schema::{Schema, read_schema};
use wd_value::OutOfMemory;

/// Decides whether a text is refused by some number.
pub trait Judge: Drop {
    ghost Refused: { Self → List ℕ → Type 0 };

    ghost Passed: { Self → List ℕ → Type 0 };

    /// Whether a text is refused by the number.
    fn refuses(&self, alloc: Global, text: &[u8]) -> Result<bool, OutOfMemory>
        ensures refused { IfOk result (λ found. found ≡ true → Refused self.now text.now) }
        ensures passed { IfOk result (λ found. found ≡ false → Passed self.now text.now) };
}

/// Decides it for queries over a schema.
#[derive(Drop)]
pub struct OfQueries<'a> {
    pub schema: &'a Schema,
    pub number: u32,
}

/// Decides it for schemas.
#[derive(Drop)]
pub struct OfSchemas {
    pub number: u32,
}

impl Judge for OfQueries<'_> {
    ghost Refused = { λ s. IsQueryRefused (schema_of s.schema.now) s.number };

    ghost Passed = { λ s. IsQueryPassed (schema_of s.schema.now) s.number };

    fn refuses(&self, alloc: Global, text: &[u8]) -> Result<bool, OutOfMemory> {
        match read_query(alloc, self.schema, text) {
            Ok(_) => Ok(false),
            Err(error) => is_that(error.number(), self.number),
        }
    }
}

impl Judge for OfSchemas {
    ghost Refused = { λ s. IsSchemaRefused s.number };

    ghost Passed = { λ s. IsSchemaPassed s.number };

    fn refuses(&self, alloc: Global, text: &[u8]) -> Result<bool, OutOfMemory> {
        match read_schema(alloc, text) {
            Ok(_) => Ok(false),
            Err(error) => is_that(error.number(), self.number),
        }
    }
}

/// Whether a refusal's number is this one; an error where memory ran out.
fn is_that(found: Option<u32>, number: u32) -> Result<bool, OutOfMemory>
    ensures same { IfOk result (λ is. is ≡ true → found ≡ Some number) }
    ensures other { IfOk result (λ is. is ≡ false → found ≢ Some number) }
    ensures some { IfOk result (λ is. found ≢ None) }
{
    match found {
        Some(found) => Ok(found == number),
        None => Err(OutOfMemory),
    }
}
