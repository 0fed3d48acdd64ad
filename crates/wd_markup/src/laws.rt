//! Laws of escaped texts.

ghost use Rattle.wd_markup.specs.Escapes.{EscapedIsPlain};

/// An escaped text has no byte that begins or ends a tag or the value of an attribute, and no control characters other than tabs and line
/// feeds.
/// feeds.
pub fn escaped_is_plain()
    ensures { EscapedIsPlain }
{}
