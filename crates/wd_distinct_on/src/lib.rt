//! DISTINCT ON by ROW_NUMBER: `SELECT DISTINCT ON ( keys ) items FROM .. ORDER BY orders` keeps the first row of each key, which has
//! the number 1 among the rows of its key. `select` finds the pieces of such a select, `item` and `key` read its lists, `write` writes
//! the select that replaces it, and `respell` respells a query. `selects` goes through the selects of a query from its end, here and
//! for other such equations.
#![tactic(auto)]

mod item;
mod key;
mod kind;
mod respell;
mod select;
mod selects;
mod write;

pub use item::{Item, column_of, item_of};
pub use key::strip;
pub use kind::{is_by, is_direction, is_dot, starts_with_select};
pub use respell::without_distinct_on;
pub use selects::{Selects, respell_backwards, split_at_place};
pub use write::{add_all_placed, add_name, add_placed, add_terminals, added_name};
