ghost use Rattle.std.specs.Prelude.{◌≡◌};
ghost use Rattle.wd_plan.specs.Plans.{has};

use crate::function::Aggregate;

/// What a Group shows of a group besides its grouping columns.
#[derive(Debug, Drop)]
pub enum GroupCall {
    /// An aggregate of the group's rows; its argument is a column of the Group's input.
    OfRows(Aggregate),
    /// GROUPING as a mask: which of these grouping columns are not in the group's set.
    Grouping(Vec<u16>),
}

/// Grouping sets over the first `columns` columns of the input, and what is shown of each group.
#[derive(Debug, Drop)]
pub struct Group {
    pub columns: u16,
    pub sets: Vec<Vec<u16>>,
    pub calls: Vec<GroupCall>,
}

/// Whether a grouping set has a column.
pub fn has_column(set: &[u16], column: u16) -> bool
    ensures { result ≡ has set.now column }
{
    for other in set {
        if column == *other {
            return true;
        }
    }
    false
}
