//! The laws of the dialect's schema texts, over the definitions alone.

ghost use Rattle.wd_dialect_schema.specs.Laws.{HasMeaningOrCause, HasOneMeaning};

/// A text has at most one list of statements.
pub fn one_meaning()
    ensures { HasOneMeaning }
{}

/// A text that has statements has no cause of a refusal, except that its text in the profile would be too long.
pub fn meaning_or_cause()
    ensures { HasMeaningOrCause }
{}
