//! What a select groups by and shows: its grouping sets and HAVING, the outputs of its list, and the window calls, the calls over groups
//! and the expressions that these need of the rows below them.
//!
//! `grouping` reads GROUP BY and HAVING into `below`, and `outputs` the members of the list into `output`. `projected` gathers what they
//! read: `calls`, `inputs` and `groups` keep each distinct element once, in order of first use, and `places` finds the column of a reference
//! in FROM or in a Group. Lists are searched from the front; a node has at most 1,024 columns.
#![tactic(auto)]

mod below;
mod calls;
mod grouping;
mod groups;
mod inputs;
mod output;
mod outputs;
mod places;
mod projected;

pub use below::Below;
pub use grouping::{GroupedBy, resolve_below, resolve_group_by};
pub use groups::{expression_number, group_inputs};
pub use inputs::input_number;
pub use output::{Output, OutputColumn};
pub use outputs::resolve_item;
pub use places::column_number;
pub use projected::ProjectedInputs;
