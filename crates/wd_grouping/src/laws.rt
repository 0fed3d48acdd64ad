//! Laws of queries whose keys are columns, over the definitions alone.

ghost use Rattle.wd_grouping.specs.Examples.{ExpressionsComeOut};

/// Worked queries: what replaces them, and which stay unchanged.
pub fn expressions_come_out()
    ensures { ExpressionsComeOut }
{}
