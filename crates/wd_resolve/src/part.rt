//! The parts of a plan while FROM and selects are read.

ghost use Rattle.std.specs.Prelude.{◌≤◌, ◌+◌, vec_len};
ghost use Rattle.wd_resolve.specs.Widths.{tables_before, columns_before};

use wd_plan::Plan;
use wd_resolve_scope::Scope;
use wd_resolve_select::OutputColumn;

/// A plan, and the names and kinds of its columns, at most 1,024.
#[derive(Drop)]
pub struct LoweredSelect {
    pub plan: Plan,
    pub columns: Vec<OutputColumn>,
    pub ghost narrow: { vec_len columns ≤ 1024 },
}

/// Tables joined to one another: their columns, and the plan that has these columns.
#[derive(Drop)]
pub struct JoinedTables {
    pub scope: Scope,
    pub plan: Plan,
}

/// The tables of FROM so far, at most 8 with at most 1,024 columns: those before the last comma, and those that are joined after it.
#[derive(Drop)]
pub struct FromSoFar {
    pub before: Option<JoinedTables>,
    pub current: JoinedTables,
    pub ghost few: { tables_before before + vec_len current.scope.tables ≤ 8 },
    pub ghost narrow: { columns_before before + vec_len current.scope.columns ≤ 1024 },
}
