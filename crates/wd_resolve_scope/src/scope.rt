//! The columns that names may stand for.

ghost use Rattle.std.specs.Prelude.{◌≤◌, vec_len};

use wd_plan::ValueKind;
use wd_value::Text;

/// The most columns of a node of a plan.
pub const MOST_COLUMNS: usize = 1024;

/// A column in scope: its table's name in FROM, its own name, and the kind of its values.
#[derive(Drop)]
pub struct ScopeColumn {
    pub table: Text,
    pub name: Text,
    pub kind: ValueKind,
}

/// The names of the tables of FROM, and their columns from left to right, at most 1,024.
#[derive(Drop)]
pub struct Scope {
    pub tables: Vec<Text>,
    pub columns: Vec<ScopeColumn>,
    pub ghost narrow: { vec_len columns ≤ 1024 },
}
