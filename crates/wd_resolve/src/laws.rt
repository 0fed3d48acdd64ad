//! Laws of plans, over the definitions alone.

ghost use Rattle.wd_resolve.specs.Laws.{OrderedEndInLimit, PlansFit};

/// Each plan that a query has under a schema fits the schema.
pub fn plans_fit()
    ensures { PlansFit }
{}

/// The plan of a query whose outermost select has ORDER BY ends in a Limit, or in a Map over a Limit that drops hidden sort keys.
pub fn ordered_end_in_limit()
    ensures { OrderedEndInLimit }
{}
