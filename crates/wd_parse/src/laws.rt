//! Laws of tokens and their trees, over the definitions alone.

ghost use Rattle.wd_syntax.specs.Laws.{HasOneTree};

/// One list of tokens has at most one well-levelled tree.
pub fn one_tree()
    ensures { HasOneTree }
{}
