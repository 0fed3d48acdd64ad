//! What is below the windows of a select.

ghost use Rattle.std.specs.Prelude.{◌≡◌, [], false, option_map};
ghost use Rattle.wd_resolve_call.specs.Rows.{row_expression_of};
ghost use Rattle.wd_resolve_list.specs.SelectLists.{grouped_by_of, having_groups, is_group_wide};

use crate::grouping::GroupedBy;
use wd_resolve_operand::BoundExpression;
use wd_resolve_scope::RowReference;

/// What is below the windows of a select: how it is grouped, if it is, and the condition of HAVING, if there is one, for which no node is
/// too wide.
#[derive(Drop)]
pub struct Below {
    pub grouped: Option<GroupedBy>,
    pub having: Option<BoundExpression<RowReference>>,
    pub ghost narrow: { is_group_wide (option_map grouped_by_of grouped) (having_groups [] (option_map row_expression_of having)) ≡ false },
}
