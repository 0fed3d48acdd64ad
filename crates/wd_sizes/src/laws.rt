//! What the bounds say of outcomes.

ghost use Rattle.wd_sizes.specs.Laws.{BoundedAreSmall};

/// Where no step can have more than 10,000,000 rows, none has.
pub fn bounded_are_small()
    ensures { BoundedAreSmall }
{}
