//! The laws of schema texts, over the definitions alone.

ghost use Rattle.wd_schema.specs.Laws.{HasMeaningOrCause, HasOneMeaning, UnexpectedIsNoSchema};

/// A text declares at most one list of tables.
pub fn one_meaning()
    ensures { HasOneMeaning }
{}

/// A text that declares tables contains no cause of a refusal.
pub fn meaning_or_cause()
    ensures { HasMeaningOrCause }
{}

/// Where a text is refused for an unexpected token, its tokens are no schema.
pub fn unexpected_is_no_schema()
    ensures { UnexpectedIsNoSchema }
{}
