//! The context in which an expression is read.

ghost use Rattle.std.specs.Prelude.{◌≡◌};
ghost use Rattle.wd_resolve_scope.specs.Places as spec;

use crate::scope::Scope;
use wd_resolve_call::KnownWindow;
use wd_resolve_operand::Cause;

/// The place of an expression in a query.
#[derive(Clone, Copy)]
pub enum Place {
    SelectList,
    On,
    Where,
    Having,
    /// PARTITION BY and ORDER BY of a window.
    Window,
    /// An argument of a call with a window.
    Argument,
    /// An argument of an aggregate without a window.
    Aggregated,
    /// The final ORDER BY.
    SortKey,
}

impl Place {
    /// Whether window calls may appear at this place.
    pub fn allows_window_calls(self) -> bool
        ensures { result ≡ spec.allows_window_calls self }
    {
        match self {
            Place::SelectList => true,
            Place::On
            | Place::Where
            | Place::Having
            | Place::Window
            | Place::Argument
            | Place::Aggregated
            | Place::SortKey => false,
        }
    }

    /// Whether aggregates and GROUPING may appear at this place.
    pub(crate) fn allows_group_calls(self) -> bool
        ensures { result ≡ spec.allows_group_calls self }
    {
        match self {
            Place::On | Place::Where | Place::Aggregated => false,
            Place::SelectList | Place::Having | Place::Window | Place::Argument | Place::SortKey =>
                true,
        }
    }

    /// The place of the arguments of a window call at this place.
    pub(crate) fn within_call(self) -> Place
        ensures { result ≡ spec.within_call self }
    {
        match self {
            Place::SelectList => Place::Argument,
            _ => self,
        }
    }
}

/// The columns that a select is grouped by, and why no other may appear.
#[derive(Clone, Copy)]
pub struct Grouped<'a> {
    pub columns: &'a [u16],
    pub other: Cause,
}

/// The columns in scope, those that a grouped select is grouped by, the named windows, and the place.
#[derive(Clone, Copy)]
pub struct Context<'a> {
    pub scope: &'a Scope,
    pub groups: Option<Grouped<'a>>,
    pub windows: &'a [KnownWindow],
    pub place: Place,
}
