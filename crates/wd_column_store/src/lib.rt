//! Tables kept column by column, and lists of rows, whose values are moved.
//!
//! `Columns` is a table with a list of values for each column, which contracts see as the list of its rows; `growing` fills one row by row,
//! `taking` makes a list of rows of it. Of its rows some are picked by their positions (`picking`), of its columns some selected, or one is
//! put after the others; `moved`, `picking` and `appending` do the same with a list of rows.
#![tactic(auto)]

mod appending;
mod columns;
mod growing;
mod moved;
mod numbering;
mod picking;
mod taking;

pub use appending::with_values_beside;
pub use columns::Columns;
pub use growing::{empty_columns, push_row};
pub use moved::moved_rows;
pub use numbering::all_positions;
pub use picking::picked_columns;
