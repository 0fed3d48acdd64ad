//! Laws of expanded tokens, over the definitions alone.

ghost use Rattle.wd_equations.specs.Examples.{EquationsComeOut};

/// Worked tests, calls and CASE: what replaces them, and which stay unchanged.
pub fn equations_come_out()
    ensures { EquationsComeOut }
{}
