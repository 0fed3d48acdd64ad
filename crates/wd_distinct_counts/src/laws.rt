//! Laws of queries without COUNT( DISTINCT c ), over the definitions alone.

ghost use Rattle.wd_distinct_counts.specs.Examples.{CountsComeOut};

/// Worked queries: what replaces them, and which stay unchanged.
pub fn counts_come_out()
    ensures { CountsComeOut }
{}
