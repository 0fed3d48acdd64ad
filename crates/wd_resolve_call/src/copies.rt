//! Copies of expressions over rows.

ghost use Rattle.std.specs.Prelude.{◌≡◌, IfOk};
ghost use Rattle.wd_resolve_call.specs.Rows.{row_expression_of, row_reference_of};

use crate::row::RowReference;
use std::alloc::Global;
use wd_resolve_operand::{BoundExpression, ReferenceMap, ResolveError, over_references};
use wd_value::OutOfMemory;

impl RowReference {
    /// An equal reference, which shares calls over groups.
    pub fn copy(&self) -> Result<RowReference, OutOfMemory>
        ensures { IfOk result (λ l. row_reference_of l ≡ row_reference_of self.now) }
    {
        match self {
            RowReference::Column(number) => Ok(RowReference::Column(*number)),
            RowReference::Group(call) => Ok(RowReference::Group(call.clone()?)),
        }
    }
}

/// An equal expression with boxes of its own.
pub fn copy_of(
    alloc: Global,
    expression: &BoundExpression<RowReference>,
) -> Result<BoundExpression<RowReference>, OutOfMemory>
    ensures { IfOk result (λ f. row_expression_of f ≡ row_expression_of expression.now) }
{
    match over_references(alloc, &Itself, expression) {
        Ok(copy) => Ok(copy),
        Err(_) => Err(OutOfMemory),
    }
}

/// Maps each reference to an equal one.
#[derive(Drop)]
struct Itself;

impl ReferenceMap for Itself {
    ghost use Rattle.std.specs.Prelude.{Ok};
    ghost use Rattle.wd_resolve_call.specs.Rows.{RowReference as RowTree, row_reference_of};

    type From = RowReference;

    type To = RowReference;

    ghost Read = { RowTree };

    ghost read = { row_reference_of };

    ghost Shown = { RowTree };

    ghost shown = { row_reference_of };

    ghost meaning = { λ _ l. Ok l };

    fn reference(
        &self,
        _alloc: Global,
        reference: &RowReference,
    ) -> Result<RowReference, ResolveError> {
        Ok(reference.copy()?)
    }
}
