//! Laws of meanings, over the definitions alone.

ghost use Rattle.wd_resolve_scope.specs.Laws.{MeaningsAreTyped, WindowsAreTyped};

/// The meaning of an expression is typed, and each call in it is one over the columns in scope.
pub fn meanings_are_typed()
    ensures { MeaningsAreTyped }
{}

/// The meaning of a window is a window over the columns in scope.
pub fn windows_are_typed()
    ensures { WindowsAreTyped }
{}
