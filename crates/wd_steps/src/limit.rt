//! What a Limit keeps.

ghost use Rattle.std.specs.Prelude.{◌≡◌, length, take_while};
ghost use Rattle.wd_plan.specs.Outcomes.{limited_rows, first_rows, peers};
ghost use Rattle.wd_plan.specs.Plans.{limit_of};
ghost use Rattle.wd_steps.specs.Cuts.{IsSliceOf};
ghost use Rattle.wd_value.specs.Rows.{row_at, rows_at};

use wd_columns::RowSource;
use wd_plan::Limit;
use wd_sort::compare_source_at;
use wd_value::SortColumn;

/// The part of an ordering of the rows' positions that stands for what a Limit keeps: those after the
/// offset, and where there is a count the first of them, with ties also those that follow and tie
/// with the last of these.
pub fn kept_positions<'a>(limit: &Limit, rows: &RowSource, ordering: &'a [u64]) -> &'a [u64]
    ensures kept { rows_at rows.now result.now ≡ limited_rows (limit_of limit.now) (rows_at rows.now ordering.now) }
    ensures part { IsSliceOf ordering.now result.now }
{
    let start = (limit.offset as usize).min(ordering.len());
    let rest = &ordering[start..];
    match limit.count {
        None => rest,
        Some(count) => first_positions(&limit.keys, limit.ties, count, rows, rest),
    }
}

/// The first positions of an ordering, and with ties those of the rows that follow and tie with the
/// last one; none where the count is 0.
fn first_positions<'a>(
    keys: &[SortColumn],
    ties: bool,
    count: u64,
    rows: &RowSource,
    ordering: &'a [u64],
) -> &'a [u64]
    ensures first { rows_at rows.now result.now ≡ first_rows keys.now ties count (rows_at rows.now ordering.now) }
    ensures part { IsSliceOf ordering.now result.now }
{
    let end = (count as usize).min(ordering.len());
    if !ties || end == 0 {
        return &ordering[..end];
    }
    let more = count_peers(keys, ordering[end - 1], rows, &ordering[end..]);
    &ordering[..end + more]
}

/// How many rows at the front of an ordering tie with the row at this position.
fn count_peers(keys: &[SortColumn], last: u64, rows: &RowSource, ordering: &[u64]) -> usize
    ensures { result ≡ length (take_while (peers keys.now (row_at rows.now last)) (rows_at rows.now ordering.now)) }
{
    for (count, position) in ordering.iter().enumerate() {
        if !compare_source_at(rows, keys, last, *position).is_eq() {
            return count;
        }
    }
    ordering.len()
}
