//! Laws of queries without NATURAL JOIN, over the definitions alone.

ghost use Rattle.wd_natural.specs.Examples.{NaturalComesOut};

/// Worked joins: what replaces them, and which stay as they are.
pub fn natural_comes_out()
    ensures { NaturalComesOut }
{}
