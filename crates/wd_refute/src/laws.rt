//! Laws over the definitions.

ghost use Rattle.wd_refute.specs.Laws.{RefutedHasNoCertificate, RefutedIsTaken, ShownIsNotRefused};

use wd_query::laws::{meaning_or_cause, one_plan};
use wd_resolve::laws::plans_fit;
use wd_rules::laws::never_both;
use wd_schema::laws::one_meaning;
use wd_witness_text::laws::{is_read_back, spells_one};

/// For texts with an accepted witness no certificate is accepted.
pub fn refuted_has_no_certificate()
    ensures { RefutedHasNoCertificate }
{
    one_meaning();
    one_plan();
    plans_fit();
    never_both();
}

/// The text of a true witness contains no cause of a refusal.
pub fn shown_is_not_refused()
    ensures { ShownIsNotRefused }
{
    spells_one();
    is_read_back();
}

/// For texts that have a meaning an accepted witness is refused only where memory runs out, or where a step is too large to be evaluated.
pub fn refuted_is_taken()
    ensures { RefutedIsTaken }
{
    meaning_or_cause();
    one_meaning();
    one_plan();
    spells_one();
    is_read_back();
}
