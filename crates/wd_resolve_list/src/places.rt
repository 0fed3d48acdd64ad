//! The columns of references of rows, in FROM or in a Group.

ghost use Rattle.std.specs.Prelude.{◌≡◌, ◌+◌, ◌≤◌, length, map, nat_eq};
ghost use Rattle.wd_resolve_call.specs.Rows.{group_call_of, row_reference_of, same_group_call};
ghost use Rattle.wd_resolve_list.specs.SelectLists.{number_in, shared_call};
ghost use Rattle.wd_resolve_list.specs.SelectLists as spec;

use std::rc::Rc;
use wd_resolve_scope::{GroupCall, RowReference, same_group_call};

/// The number of a column among those that are grouped by, and their number where it is not among them.
pub fn column_number(columns: &[u16], column: u16) -> usize
    ensures number { result ≡ number_in nat_eq columns.now column }
    ensures within { result ≤ length columns.now }
{
    for (number, other) in columns.iter().enumerate() {
        if column == *other {
            return number;
        }
    }
    columns.len()
}

/// The number of a call over groups in the list, and the length of the list where it is not in it.
pub(crate) fn group_number(calls: &[Rc<GroupCall>], call: &GroupCall) -> usize
    ensures number { result ≡ number_in same_group_call (map shared_call calls.now) (group_call_of call.now) }
    ensures within { result ≤ length calls.now }
{
    for (number, other) in calls.iter().enumerate() {
        if same_group_call(call, other) {
            return number;
        }
    }
    calls.len()
}

/// The column of FROM that a reference of rows is.
pub(crate) fn column_of_from(reference: &RowReference) -> u16
    ensures { result ≡ spec.column_of (row_reference_of reference.now) }
{
    match reference {
        RowReference::Column(number) => *number,
        RowReference::Group(_) => 0,
    }
}

/// The column of a reference of rows in a Group with these columns and calls.
pub(crate) fn group_place(columns: &[u16], calls: &[Rc<GroupCall>], reference: &RowReference) -> u16
    requires { length columns.now + length calls.now ≤ 1024 }
    ensures { result ≡ spec.group_place columns.now (map shared_call calls.now) (row_reference_of reference.now) }
{
    match reference {
        RowReference::Column(number) => column_number(columns, *number) as u16,
        RowReference::Group(call) => (columns.len() + group_number(calls, call)) as u16,
    }
}
