//! Laws over the definitions alone.

ghost use Rattle.wd_complete.specs.Examples.{ExampleIsPlain};
ghost use Rattle.wd_complete.specs.Laws.{OpenIsFound, OpenShowsTwo};
ghost use Rattle.wd_complete.specs.QueryLaws.{QueriesArePlain};

/// A query of the plain class that has a plan has a plain plan.
pub fn queries_are_plain()
    ensures { QueriesArePlain }
{}

/// Where no rule justifies the call of a plain plan, the table of two rows that tie by the window's columns is a true witness.
pub fn open_shows_two()
    ensures { OpenShowsTwo }
{}

/// Where no rule justifies the call of a plain plan, the search for a witness finds one.
pub fn open_is_found()
    ensures { OpenIsFound }
{}

/// `SELECT b, ROW_NUMBER() OVER (ORDER BY a) FROM p` is of the plain class.
pub fn example_is_plain()
    ensures { ExampleIsPlain }
{}
