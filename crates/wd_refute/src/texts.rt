//! From the texts of a schema, a query and a witness to whether the witness is true.

ghost use Rattle.std.specs.Prelude.{IfOk, IfErr};
ghost use Rattle.wd_query.specs.Laws.{HaveMeaning};
ghost use Rattle.wd_refute.specs.Refutation.{HasCause, HaveNoCertificate, IsRefuted, IsTaken};

use crate::error::WitnessError;
use crate::judge::refute_plan;
use crate::laws::{refuted_has_no_certificate, refuted_is_taken};
use std::alloc::Global;
use wd_query::read_texts;

/// The result of `refute` for a true witness.
#[derive(Clone, Copy)]
pub struct Refuted;

/// Whether a witness's text spells a true witness of the plan of a schema's text and a query's text: its tables meet the schema, its two
/// choices are valid, and the plan's outcomes under them do not agree. They are rows of which some row appears more often in one outcome
/// than in the other, or rows and a fault, or two different faults. Nothing of the witness is trusted: both outcomes are evaluated. For a
/// true witness `verify` accepts no certificate for the two texts.
///
/// A refusal is returned only where its cause is in the inputs, in this order: 101 to 107 and 301 to 309 of the schema; 101 to 107, 201,
/// 202 and 401 to 419 of the query; 601 of the witness's text; 602 of its tables; then of the first choice and of the second 603, and 802
/// where a step has more than 10,000,000 rows; 604.
pub fn refute(
    alloc: Global,
    schema: &[u8],
    query: &[u8],
    witness: &[u8],
) -> Result<Refuted, WitnessError>
    ensures refuted { IfOk result (λ _. IsRefuted schema.now query.now witness.now) }
    ensures uncertified { IfOk result (λ _. HaveNoCertificate schema.now query.now) }
    ensures refused { IfErr result (λ e. HasCause schema.now query.now witness.now e) }

    // For texts that have a meaning a true witness is refused only where memory runs out, or by 802.
    ensures taken { IfErr result (λ e. HaveMeaning schema.now query.now → IsRefuted schema.now query.now witness.now → IsTaken e) }
{
    refuted_has_no_certificate();
    refuted_is_taken();
    let planned = match read_texts(alloc, schema, query) {
        Ok(planned) => planned,
        Err(error) => return Err(WitnessError::Texts(error)),
    };
    match refute_plan(alloc, &planned.schema, &planned.resolved.plan, witness) {
        Ok(()) => Ok(Refuted),
        Err(refusal) => Err(WitnessError::Witness(refusal)),
    }
}
