//! Laws of texts, over the definitions alone.

ghost use Rattle.wd_query.specs.Laws.{HasMeaningOrCause, HasOnePlan};

/// A schema's text and a query's text have at most one plan.
pub fn one_plan()
    ensures { HasOnePlan }
{}

/// Texts that have a meaning within the limits contain no cause of a refusal.
pub fn meaning_or_cause()
    ensures { HasMeaningOrCause }
{}
