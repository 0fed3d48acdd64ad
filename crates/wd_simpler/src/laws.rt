//! Laws over the definitions.

ghost use Rattle.wd_simpler.specs.Laws.{SimplerIsAlike};

/// Over each instance of a schema the same choices are valid for a plan and for the simpler one, and both have the same outcome under
/// each of them.
pub fn simpler_is_alike()
    ensures { SimplerIsAlike }
{}
