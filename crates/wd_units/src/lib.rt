//! What a number counts (days, microseconds, units of a decimal's last place, or ones), and what comes of it: sums, differences, products
//! and the branches of CASE.
//!
//! `unit` has the units and what operations on them give; it reads no tokens but the operator. `token` looks at single tokens and finds
//! how far a part reaches. `amount` reads literals of moments, each with the unit that it counts, and `numeral` numbers with a point.
#![tactic(auto)]

mod amount;
mod numeral;
mod token;
mod unit;

pub use amount::{Amount, amount_at, number_said};
pub use numeral::{Numeral, numeral_at};
pub use token::{
    Stop, begins_bracket, begins_item, begins_query, depth_after, holds_text, is_as,
    is_between_factors, is_branch, is_case, is_comparison, is_dot, is_end, is_right_bracket,
    part_length,
};
pub use unit::{
    Unit, as_value, common_unit, counts_decimal, either, is_number, is_unclear, number_alone,
    operation_unit, unit_of_kind, with_branch, with_default,
};
