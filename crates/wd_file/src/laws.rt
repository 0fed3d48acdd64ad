//! A law of verdicts.

ghost use Rattle.wd_file.specs.Laws.{CertifiedHaveOne};

use wd_decide::laws::reported_are_sound;
use wd_query::laws::one_plan;
use wd_resolve::laws::plans_fit;
use wd_rules::laws::valid_has_one;
use wd_schema::laws::one_meaning;

/// A query whose verdict is DETERMINISTIC has one answer.
pub fn certified_have_one()
    ensures { CertifiedHaveOne }
{
    one_meaning();
    one_plan();
    plans_fit();
    valid_has_one();
    reported_are_sound();
}
