//! Worked texts, over the definitions alone.

ghost use Rattle.wd_calendar.specs.Examples.{TextsComeOut};

/// Texts whose numbers are known.
pub fn texts_come_out()
    ensures { TextsComeOut }
{}
