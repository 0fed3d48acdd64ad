//! Laws of queries without memberships, over the definitions alone.

ghost use Rattle.wd_membership.specs.Examples.{MembershipComesOut};

/// Worked queries: what replaces them, and which stay as they are.
pub fn membership_comes_out()
    ensures { MembershipComesOut }
{}
