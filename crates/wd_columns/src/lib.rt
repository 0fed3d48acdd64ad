//! Rows, kept column by column or by their positions in tables where all of them have as many values, and else row by row.
//!
//! `RowSource` reads rows and `OwnRows` owns them, however they are kept, so that what goes over rows is written once. `copying` makes own
//! rows of those that stay where they are; `pairing` joins the rows of two sides by their positions, so that a pair of rows costs a
//! position for each table and no value is copied. Of one table the positions are not kept beside the columns: that would cost each
//! later reader a look-up.
#![tactic(auto)]

mod copying;
mod own;
mod pairing;
mod source;

pub use copying::{copy_all, copy_rows, push_values, share_rows};
pub use own::OwnRows;
pub use pairing::{Pairing, pair_rows};
pub use source::{RowSource, row_in};
pub use wd_column_store::{Columns, all_positions, empty_columns, push_row};
pub use wd_joined::{Pair, StoredColumn};
