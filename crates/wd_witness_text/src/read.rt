//! A witness from its text.

ghost use Rattle.std.specs.Prelude.{IfOk, IfErr, List};
ghost use Rattle.wd_schema.specs.Schemas.{schema_of};
ghost use Rattle.wd_schema.specs.Tables.{TableRule};
ghost use Rattle.wd_witness_text.specs.Json.{witness_json, Spells};
ghost use Rattle.wd_witness_text.specs.Refusals.{HasCause};
ghost use Rattle.wd_witness_text.specs.Witnesses.{WitnessRecord, AllFit64, IsOf, witness_of};

use crate::error::WitnessTextError;
use crate::fits::fit_tables;
use crate::members::read_members;
use crate::witness::Witness;
use json::Reader;
use std::alloc::Global;
use wd_json_tokens::{FromTokens, Unread, read_text};
use wd_schema::Schema;

/// A witness whose whole numbers have 64 bits, as all those of the code do.
#[derive(Drop)]
struct Fitting {
    witness: Witness,
    ghost fits: { ∥ AllFit64 (witness_of witness) ∥₁ },
}

impl FromTokens for Fitting {
    ghost Said = { (w : WitnessRecord) × ∥ AllFit64 w ∥₁ };

    ghost said = { λ f. (witness_of f.witness, f.fits) };

    ghost json = { λ p. witness_json p.0 };

    fn read(
        alloc: Global,
        reader: &mut Reader<'_>,
        depth: usize,
    ) -> Result<Option<Fitting>, Unread> {
        match read_members(alloc, reader, depth)? {
            Some(witness) => Ok(Some(Fitting { witness })),
            None => Ok(None),
        }
    }
}

fn parse_witness(alloc: Global, bytes: &[u8]) -> Result<Witness, WitnessTextError>
    ensures ok { IfOk result (λ w. Spells (witness_of w) bytes.now) }
    ensures fits { IfOk result (λ w. AllFit64 (witness_of w)) }
    ensures refused { IfErr result (λ e. (schema : List TableRule) → HasCause schema e bytes.now) }
{
    match read_text::<Fitting>(alloc, bytes) {
        Ok(Some(fitting)) => Ok(fitting.witness),
        Ok(None) => Err(WitnessTextError::Shape),
        Err(Unread::NotJson) => Err(WitnessTextError::NotJson),
        Err(Unread::OutOfMemory) => Err(WitnessTextError::OutOfMemory),
    }
}

/// The witness that a text spells, over tables of the schema. Members may appear in any order, with white space between them, and of
/// equal names the last counts, which RFC 8259 leaves open; a number is whole, of 64 bits, and written only in digits. Refused by 601
/// are, in this order, a text that is not JSON, JSON of another shape, and then, by the tables' names, a table that is not in the schema,
/// more than 64 rows, and a row of another length.
pub fn read_witness(
    alloc: Global,
    schema: &Schema,
    bytes: &[u8],
) -> Result<Witness, WitnessTextError>
    ensures ok { IfOk result (λ w. Spells (witness_of w) bytes.now) }
    ensures of_tables { IfOk result (λ w. IsOf (schema_of schema.now) (witness_of w)) }
    ensures fits { IfOk result (λ w. AllFit64 (witness_of w)) }
    ensures refused { IfErr result (λ e. HasCause (schema_of schema.now) e bytes.now) }
{
    let witness = parse_witness(alloc, bytes)?;
    fit_tables(schema, &witness.tables)?;
    Ok(witness)
}
