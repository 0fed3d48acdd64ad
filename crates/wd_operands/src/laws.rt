//! Laws of lengths, over the definitions alone.

ghost use Rattle.wd_operands.specs.Examples.{OperandsComeOut};

/// Worked brackets and operands, and how many tokens they take.
pub fn operands_come_out()
    ensures { OperandsComeOut }
{}
