//! The value of an expression over a row.
//!
//! `expression` evaluates an expression by recursion to a fixed depth, which takes no memory from the allocator, and leaves what is
//! deeper to `deep`, a loop whose state is on the heap and which takes no stack. `arithmetic` and `truth` have the operators, and `view`
//! reads two rows as one.
#![tactic(auto)]

mod arithmetic;
mod deep;
mod expression;
mod truth;
mod view;

pub use expression::{has_arithmetic, value_at, value_of_pair};
pub use truth::is_true;
pub use view::value_in_pair;
