//! The literals of moments in a query, written as numbers in comparisons whose sides are known to count one unit and in items of lists;
//! and numbers beside decimals, written as units of their last place.
//!
//! `numbered` goes over the tokens from left to right: wd_clashes finds comparisons and what their sides count, and operators that have no
//! equation; `item` finds other operands that count moments or decimals. `side` says which parts of such an operand are written on their
//! own, as the condition of a CASE and a window; they are gone over in the same way. Of the other tokens `literal` writes literals of
//! moments as numbers, and `decimal` numbers beside decimals as units. `write` adds tokens.
#![tactic(auto)]

mod decimal;
mod error;
mod item;
mod literal;
mod numbered;
mod side;
mod write;

pub use error::MomentError;
pub use numbered::with_numbers;
