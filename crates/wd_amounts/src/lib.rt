//! What the names and the operands of a query count: days, microseconds, units of a decimal's last place, or other whole numbers.
//!
//! `term` and `operand` say what an operand counts, by the units of wd_units and by what the operand's names count. What these count,
//! `levels` finds: by the columns of a schema, and by the names that the query gives to operands, which `scan` finds level by level of
//! brackets, so that a name is known before it is used. `uses` and `known` keep what all uses of a name come to, of units as of any other
//! values (`NameValue`); `names` finds the names that a query gives.
#![tactic(auto)]

mod known;
mod levels;
mod names;
mod operand;
mod scan;
mod term;
mod uses;

pub use known::KnownNames;
pub use levels::known_names;
pub use names::{given_names, has_lists};
pub use operand::unit_of;
pub use term::{
    bracket_contents, case_contents, default_of, is_picked, is_star, past_sign, picked_argument,
};
pub use uses::{NameUse, NameValue, columns};
