//! The values of window calls at the places of a partition.
//!
//! `call` puts the values of a call into a `column`, from a `Source`, by the kind of its function: `ranking` and `bucket` from a
//! place and its peer group, `shift` from the place at a distance, and functions of frames from the frames' places, which wd_frame
//! gives; there `aggregate` slides over all frames instead of summing each anew. `partition` reads values by place, and `places` counts
//! and picks the places of one frame.
#![tactic(auto)]

mod aggregate;
mod bucket;
mod call;
mod column;
mod partition;
mod places;
mod ranking;
mod shift;

pub use aggregate::aggregate_over;
pub use call::put_values;
pub use column::CallColumn;
pub use partition::Partition;
