//! Laws of choices, for all plans and instances: of those that leave rows that tie as they are, and
//! of wrong orderings.

ghost use Rattle.wd_eval.specs.Laws.{HasNoWrongOrdering, HasOneStableOutcome, HasStableChoice};

/// Each plan has such a choice over each instance, whichever ordering takes rows that tie in another turn.
pub fn has_stable_choice()
    ensures { HasStableChoice }
{}

/// All such choices give one outcome.
pub fn has_one_stable_outcome()
    ensures { HasOneStableOutcome }
{}

/// A valid choice has no wrong ordering: none that is missing, not lawful or left over.
pub fn has_no_wrong_ordering()
    ensures { HasNoWrongOrdering }
{}
