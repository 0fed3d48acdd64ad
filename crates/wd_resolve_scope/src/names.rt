//! Names, and the columns that they stand for.

ghost use Rattle.std.specs.Prelude.{◌≡◌, option_map};
ghost use Rattle.wd_resolve_operand.specs.Causes.{Gives};
ghost use Rattle.wd_resolve_scope.specs.Names.{column_named};
ghost use Rattle.wd_resolve_scope.specs.Scopes.{scope_of};
ghost use Rattle.wd_resolve_scope.specs.Scopes as spec;

use crate::scope::{Scope, ScopeColumn};
use wd_plan::ValueKind;
use wd_resolve_operand::{Cause, ResolveError};
use wd_value::Text;

/// Whether a column has the name and, if a table is named, is of that table.
fn carries(table: Option<&Text>, name: &Text, column: &ScopeColumn) -> bool
    ensures { result ≡ spec.carries (option_map (λ t. t.now) table.entry) name.now column.now }
{
    match table {
        None => column.name.as_str() == name.as_str(),
        Some(table) => column.table.as_str() == table.as_str()
            && column.name.as_str() == name.as_str(),
    }
}

impl Scope {
    /// The only column of that name, in the named table if one is named; 402 where there is none, 403 where there are several.
    #[tactic(auto, using(crate::proofs::Naming::found_first))]
    pub fn column(
        &self,
        table: Option<&Text>,
        name: &Text,
    ) -> Result<(u16, ValueKind), ResolveError>
        ensures { Gives (λ c. c) result (column_named (scope_of self.now) (option_map (λ t. t.now) table.entry) name.now) }
    {
        let mut found = None;
        for (number, column) in self.columns.iter().enumerate() {
            if carries(table, name, column) {
                match found {
                    None => found = Some((number as u16, column.kind)),
                    Some(_) => return Err(ResolveError::Refused(Cause::Ambiguous)),
                }
            }
        }
        match found {
            None => Err(ResolveError::Refused(Cause::UnknownColumn)),
            Some(column) => Ok(column),
        }
    }

    /// Whether FROM has a table of that name.
    pub fn has_table(&self, table: &Text) -> bool
        ensures { result ≡ spec.has_table (scope_of self.now) table.now }
    {
        for other in &self.tables {
            if table.as_str() == other.as_str() {
                return true;
            }
        }
        false
    }
}
