//! Laws over the definitions alone.

ghost use Rattle.wd_facts.specs.Laws.{DependenciesAreFacts, GivenFactsHold, KnownHolds};

/// What a plan that fits and its schema say of a node's rows is true of them: their width, columns
/// that are not null, nullable keys.
pub fn known_holds()
    ensures { KnownHolds }
{}

/// The given facts of a node hold where the facts that its children keep hold.
pub fn given_facts_hold()
    ensures { GivenFactsHold }
{}

/// The dependencies that plans name are facts: that columns determine a column, and that they determine the row.
pub fn dependencies_are_facts()
    ensures { DependenciesAreFacts }
{}
