//! Laws of queries without USING, over the definitions alone.

ghost use Rattle.wd_using.specs.Examples.{UsingComesOut};

/// Worked joins: what replaces them, and which stay as they are.
pub fn using_comes_out()
    ensures { UsingComesOut }
{}
