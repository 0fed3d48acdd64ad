//! Laws over the definitions, and what follows from writing and then reading a witness.

ghost use Rattle.std.specs.Prelude.{◌≡◌, IfOk, IfErr};
ghost use Rattle.wd_schema.specs.Schemas.{schema_of};
ghost use Rattle.wd_witness_text.specs.Examples.{HasExampleText};
ghost use Rattle.wd_witness_text.specs.Laws.{SpellsOne, IsReadBack};
ghost use Rattle.wd_witness_text.specs.Witnesses.{IsOf, witness_of};
ghost use Rattle.wd_witness_text.specs.declared.error.WitnessTextError.TheVariants as error;

use crate::error::WitnessTextError;
use crate::read::read_witness;
use crate::witness::Witness;
use std::alloc::Global;
use wd_schema::Schema;

/// Bytes spell at most one witness.
pub fn spells_one()
    ensures { SpellsOne }
{}

/// Bytes that spell a witness of a schema are refused only where memory runs out.
pub fn is_read_back()
    ensures { IsReadBack }
{}

/// The text of a witness of two tables, byte for byte.
pub fn example_text()
    ensures { HasExampleText }
{}

/// A witness that is written and read again is unchanged; if it is one of the schema, reading fails only where memory runs out.
pub fn read_back(
    alloc: Global,
    schema: &Schema,
    witness: &Witness,
) -> Result<Witness, WitnessTextError>
    ensures same { IfOk result (λ w. witness_of w ≡ witness_of witness.now) }
    ensures memory { IsOf (schema_of schema.now) (witness_of witness.now) → IfErr result (λ e. e ≡ error.OutOfMemory) }
{
    let bytes = witness.to_json(alloc)?;
    read_witness(alloc, schema, &bytes)
}
