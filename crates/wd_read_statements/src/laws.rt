//! Laws of the trees of schemas and their tokens, over the definitions alone.

ghost use Rattle.wd_read_statements.specs.Laws.{HasOnePlace, HasOneTree};

/// A list of tokens has at most one tree of a schema.
pub fn one_tree()
    ensures { HasOneTree }
{}

/// A list of tokens has at most one place where no schema continues.
pub fn one_place()
    ensures { HasOnePlace }
{}
