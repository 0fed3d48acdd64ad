//! The law of printed tokens, over the definitions alone.

ghost use Rattle.wd_print.specs.Printed.{PrintedIsRead};

/// A text of printed tokens has just these tokens.
pub fn printed_is_read()
    ensures { PrintedIsRead }
{}
