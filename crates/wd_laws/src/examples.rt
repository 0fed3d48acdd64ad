//! Worked examples of the definitions, computed from them.

ghost use Rattle.wd_laws.specs.examples.Functions.{FunctionsComeOut};
ghost use Rattle.wd_laws.specs.examples.Frames.{FramesComeOut};
ghost use Rattle.wd_laws.specs.examples.Values.{ValuesComeOut};
ghost use Rattle.wd_laws.specs.examples.Joins.{JoinsComeOut};
ghost use Rattle.wd_laws.specs.examples.Grouping.{GroupsComeOut};
ghost use Rattle.wd_laws.specs.examples.Limits.{LimitsComeOut};
ghost use Rattle.wd_laws.specs.examples.Faults.{FaultsComeOut};
ghost use Rattle.wd_laws.specs.examples.Choosing.{ChoicesComeOut};
ghost use Rattle.wd_laws.specs.examples.Agreeing.{AgreeingComesOut};

/// The values of the window functions over a few rows.
pub fn functions_come_out()
    ensures { FunctionsComeOut }
{}

/// The rows of each frame, for each mode, bound and exclusion.
pub fn frames_come_out()
    ensures { FramesComeOut }
{}

/// The values of expressions.
pub fn values_come_out()
    ensures { ValuesComeOut }
{}

/// The rows of joins, conditions and DISTINCT.
pub fn joins_come_out()
    ensures { JoinsComeOut }
{}

/// The rows of grouping sets, and windows over them.
pub fn groups_come_out()
    ensures { GroupsComeOut }
{}

/// The rows that OFFSET, FETCH and LIMIT leave.
pub fn limits_come_out()
    ensures { LimitsComeOut }
{}

/// Which fault a step has, and which it does not have.
pub fn faults_come_out()
    ensures { FaultsComeOut }
{}

/// Which choices are valid.
pub fn choices_come_out()
    ensures { ChoicesComeOut }
{}

/// Which outcomes are one answer.
pub fn agreeing_comes_out()
    ensures { AgreeingComesOut }
{}
