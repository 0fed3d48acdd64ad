//! Expressions over references, what literals and operators mean, and why a query has no plan.
//!
//! `expression` has the expressions, whose `references` are of any type, and `operand` an expression as an operand with the kind of its values;
//! `literals` and `operator` make operands, and `cause` has the refusals. `mapping` replaces the references of an expression, or makes an
//! expression of a plan: both are a `maker` for the one `walk` over an expression, which is a loop, so that the depth of an expression
//! takes no stack.
#![tactic(auto)]

mod cause;
mod expression;
mod literals;
mod maker;
mod mapping;
mod operand;
mod operator;
mod references;
mod walk;

pub use cause::{Cause, ResolveError};
pub use expression::{BoundExpression, Reference};
pub use literals::{literal, number, signed_number};
pub use mapping::{ColumnMap, ReferenceMap, over_columns, over_references};
pub use operand::TypedOperand;
pub use operator::{CaseArm, case_of, combine, negate, sign_operand, test_null};
pub use references::references_of;
