//! The frames of window calls: which places of a partition a row's frame has, and functions of the values there.
//!
//! `frame` tells by the definition which places a frame has, with `distance` for the bounds; `extent` finds the two bounds of a frame,
//! by halving for one place or moved on from place to place for all. `exclusion` gives the frames of all places as lists of ranges
//! whose ends rise. So a `slide` pushes and pops each value at most once (`over`) instead of going over each frame anew: `count`,
//! `sum`, and `extreme`, the least or the greatest value, which keeps only the `candidate` values.
#![tactic(auto)]

mod answer;
mod candidate;
mod count;
mod distance;
mod exclusion;
mod extent;
mod extreme;
mod frame;
pub mod laws;
mod over;
mod slide;
mod sum;

pub use answer::Answer;
pub use count::Count;
pub use exclusion::frame_ranges;
pub use extent::{IndexRange, all_bounds, bounds};
pub use extreme::{Ascending, Descending, Direction, Extreme};
pub use frame::{Part, members};
pub use over::{over_frames, over_lists, over_ranges};
pub use slide::{Join, Slide};
pub use sum::Sum;
