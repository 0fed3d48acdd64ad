//! Laws over the definitions of plans alone.

ghost use Rattle.wd_laws.specs.Laws.{AgreeingIsAnEquivalence, ValuesGoByRows, SameRowsAtPlaces, ExchangeRenames, SameResults, WindowHasOne, LimitHasOne, PlanHasOne, WindowCommutes, HasValidChoice, PeerGroupsRise, RowNumbersCount, StepsCommute, GroupsGoByColumns, GroupsPartRows, GroupsAreWindows, SetsAreWindows, LimitCommutes, PlanCommutes, FramesAreContiguous, NtileIsEven, ExtremesAreFirst, HasWidths, HasKinds};

pub use crate::examples::{
    agreeing_comes_out, choices_come_out, faults_come_out, frames_come_out, functions_come_out,
    groups_come_out, joins_come_out, limits_come_out, values_come_out,
};

/// That two outcomes agree is an equivalence.
pub fn agreeing_is_an_equivalence()
    ensures { AgreeingIsAnEquivalence }
{}

/// Under the rules `peers`, `unique` and `values` a call's value (or fault) at a row is a function of the row's columns and of the
/// input's rows, whatever their order.
pub fn values_go_by_rows()
    ensures { ValuesGoByRows }
{}

/// Two lawful orderings of a class whose columns determine every column put the same rows at each place of each partition.
pub fn same_rows_at_places()
    ensures { SameRowsAtPlaces }
{}

/// Two orderings of a class whose columns determine every column differ by a renaming that keeps every column.
pub fn exchange_renames()
    ensures { ExchangeRenames }
{}

/// Under two lawful orderings of a class whose columns determine every column, each row appears equally often with the same results of
/// the class's calls, values or faults.
pub fn same_results()
    ensures { SameResults }
{}

/// A Window with settled calls has outcomes that agree over rearranged rows, under any orderings.
pub fn window_has_one()
    ensures { WindowHasOne }
{}

/// A settled limit cuts the same rows under any orderings.
pub fn limit_has_one()
    ensures { LimitHasOne }
{}

/// A plan whose calls and limits are settled has outcomes that agree over the same tables in any
/// row order, under any valid choices, faults included.
pub fn plan_has_one()
    ensures { PlanHasOne }
{}

/// Over rearranged rows a Window gives the rearranged rows of the renamed orderings.
pub fn window_commutes()
    ensures { WindowCommutes }
{}

/// Every instance has a valid choice for each plan.
pub fn has_valid_choice()
    ensures { HasValidChoice }
{}

/// Along a partition list the peer group number begins at 0 and rises by at most one.
pub fn peer_groups_rise()
    ensures { PeerGroupsRise }
{}

/// ROW_NUMBER over a partition of n members gives 1 to n.
pub fn row_numbers_count()
    ensures { RowNumbersCount }
{}

/// Over rearranged rows a Filter, a Map, a Group, a Join and a Distinct have rearranged outcomes too, faults included.
pub fn steps_commute()
    ensures { StepsCommute }
{}

/// Rows are of one group of a grouping set exactly where they are the same on the set's columns.
pub fn groups_go_by_columns()
    ensures { GroupsGoByColumns }
{}

/// Each row is of one group of a grouping set, and each group of a set with columns has a row.
pub fn groups_part_rows()
    ensures { GroupsPartRows }
{}

/// An aggregate of a row's group is the value at the row of a window call of the aggregate, over the whole partition by the set's columns.
pub fn groups_are_windows()
    ensures { GroupsAreWindows }
{}

/// A grouping set with columns gives the first rows of the partitions of a window over its columns,
/// with the window's values.
pub fn sets_are_windows()
    ensures { SetsAreWindows }
{}

/// Over rearranged rows a Limit keeps the rows of the renamed ordering, in the same order.
pub fn limit_commutes()
    ensures { LimitCommutes }
{}

/// Rearranged tables with the choice renamed give the rearranged outcome, faults included.
pub fn plan_commutes()
    ensures { PlanCommutes }
{}

/// A frame without exclusion is contiguous along its partition list.
pub fn frames_are_contiguous()
    ensures { FramesAreContiguous }
{}

/// NTILE's buckets differ in size by at most one, the larger first, and hold all members, in order.
pub fn ntile_is_even()
    ensures { NtileIsEven }
{}

/// MIN and MAX give one of the values, the least and the greatest, and NULL only where all are NULL.
pub fn extremes_are_first()
    ensures { ExtremesAreFirst }
{}

/// The rows of each node of a plan that fits have the node's width, under lawful orderings.
pub fn has_widths()
    ensures { HasWidths }
{}

/// Each value of the rows of a plan that fits is of its column's kind.
pub fn has_kinds()
    ensures { HasKinds }
{}
