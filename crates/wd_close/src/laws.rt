//! Laws over the definitions alone.

ghost use Rattle.wd_close.specs.Examples.{ClosuresComeOut};

/// What some columns determine by three facts, and in how many steps.
pub fn closures_come_out()
    ensures { ClosuresComeOut }
{}
