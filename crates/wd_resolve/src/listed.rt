//! The part of a select list that is read.

ghost use Rattle.std.specs.Prelude.{◌≡◌, ◌≤◌, [], false, map, vec_len};
ghost use Rattle.wd_resolve_list.specs.Grouping.{below_of};
ghost use Rattle.wd_resolve_list.specs.SelectLists.{are_wide};
ghost use Rattle.wd_resolve_list.specs.Outputs.{expressions_of, output_of};

use wd_resolve_select::{Below, Output, ProjectedInputs};

/// The outputs of a select list over what is below its windows, at most 1,024, and what they need of the rows below them; no node is too
/// wide for them.
#[derive(Drop)]
pub struct ReadList {
    pub below: Below,
    pub outputs: Vec<Output>,
    pub projected: ProjectedInputs,
    pub ghost few: { vec_len outputs ≤ 1024 },
    pub ghost narrow: { are_wide (below_of below) (expressions_of (map output_of outputs.items)) [] ≡ false },
}
