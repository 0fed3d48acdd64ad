//! The least fault of a step.

ghost use Rattle.std.specs.Prelude.{◌≡◌, Option, Some};
ghost use Rattle.wd_steps.specs.Faults as spec;

use wd_value::{Fault, Value};

/// The least fault, where one value more is looked at.
pub fn with_value(fault: Option<Fault>, value: &Result<Value, Fault>) -> Option<Fault>
    ensures { result ≡ spec.with_result fault value.now }
{
    match value {
        Ok(_) => fault,
        Err(found) => Some(with_fault(fault, *found)),
    }
}

/// The least fault, where one fault more is met.
pub fn with_fault(fault: Option<Fault>, found: Fault) -> Fault
    ensures { Some result ≡ spec.with_fault fault found }
{
    match fault {
        Some(Fault::DivisionByZero) => Fault::DivisionByZero,
        _ => found,
    }
}
