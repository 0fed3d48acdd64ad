//! Laws over the definitions.

ghost use Rattle.wd_certain.specs.Laws.{CertainHasOne, SimplerHasOne};

use wd_laws::laws::{agreeing_is_an_equivalence, plan_commutes};
use wd_query::laws::one_plan;
use wd_resolve::laws::plans_fit;
use wd_rules::laws::valid_has_one;
use wd_schema::laws::one_meaning;
use wd_simpler::laws::simpler_is_alike;

/// A plan whose simpler plan has one answer has one answer.
pub fn simpler_has_one()
    ensures { SimplerHasOne }
{
    agreeing_is_an_equivalence();
    plan_commutes();
    simpler_is_alike();
}

/// A query whose simpler plan has a valid certificate has one answer.
pub fn certain_has_one()
    ensures { CertainHasOne }
{
    one_meaning();
    one_plan();
    plans_fit();
    valid_has_one();
    simpler_has_one();
}
