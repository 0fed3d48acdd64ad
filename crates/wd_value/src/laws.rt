//! Laws over the definitions alone.

ghost use Rattle.wd_value.specs.Laws.{IsTotal, IsExact};

/// Each sort key orders the values totally, and values that tie are equal.
pub fn compare_is_a_total_order()
    ensures total { IsTotal }
    ensures exact { IsExact }
{}
