//! The values that a search uses for columns.

ghost use Rattle.std.specs.Prelude.{◌≡◌, filter, IfOk};
ghost use Rattle.wd_schema.specs.Meets.{is_of_type as is_of};
ghost use Rattle.wd_value.specs.declared.value.ColumnType.TheVariants.{SmallInt, Integer, BigInt, Text as TextType, Boolean as BooleanType};
ghost use Rattle.wd_varied.specs.Patterns.{filling_of};

use crate::conditions::{Compared, Equated};
use crate::patterns::Filling;
use std::alloc::Global;
use wd_schema::is_of_type;
use wd_value::{ColumnType, OutOfMemory, Value};

/// What a plan suggests for the columns of tables: the literals with which its conditions compare a column, values near these, the
/// columns that it equates, and values for all other columns.
#[derive(Drop)]
pub struct Suggested {
    pub exact: Vec<Compared>,
    pub near: Vec<Compared>,
    pub equated: Vec<Equated>,
    pub all: Vec<Value>,
    // The values of each type among all values.
    small: Vec<Value>,
    whole: Vec<Value>,
    big: Vec<Value>,
    texts: Vec<Value>,
    truths: Vec<Value>,
    ghost of_small: { small.items ≡ filter (is_of SmallInt) all.items },
    ghost of_whole: { whole.items ≡ filter (is_of Integer) all.items },
    ghost of_big: { big.items ≡ filter (is_of BigInt) all.items },
    ghost of_texts: { texts.items ≡ filter (is_of TextType) all.items },
    ghost of_truths: { truths.items ≡ filter (is_of BooleanType) all.items },
}

impl Suggested {
    /// What conditions suggest, and the values of all literals, split by type.
    pub(crate) fn new(
        alloc: Global,
        exact: Vec<Compared>,
        near: Vec<Compared>,
        equated: Vec<Equated>,
        all: Vec<Value>,
    ) -> Result<Suggested, OutOfMemory>
        ensures exact { IfOk result (λ s. s.exact.items ≡ exact.items) }
        ensures near { IfOk result (λ s. s.near.items ≡ near.items) }
        ensures equated { IfOk result (λ s. s.equated.items ≡ equated.items) }
        ensures all { IfOk result (λ s. s.all.items ≡ all.items) }
    {
        let small = values_of(alloc, &all, ColumnType::SmallInt)?;
        let whole = values_of(alloc, &all, ColumnType::Integer)?;
        let big = values_of(alloc, &all, ColumnType::BigInt)?;
        let texts = values_of(alloc, &all, ColumnType::Text)?;
        let truths = values_of(alloc, &all, ColumnType::Boolean)?;
        Ok(Suggested {
            exact,
            near,
            equated,
            all,
            small,
            whole,
            big,
            texts,
            truths,
        })
    }

    /// The values of a type.
    fn of_type(&self, kind: ColumnType) -> &[Value]
        ensures { result.now ≡ filter (is_of kind) self.now.all.items }
    {
        match kind {
            ColumnType::SmallInt => &self.small,
            ColumnType::Integer => &self.whole,
            ColumnType::BigInt => &self.big,
            ColumnType::Text => &self.texts,
            ColumnType::Boolean => &self.truths,
        }
    }

    /// The pool of a filling: the values that comparisons with its column suggest, or else those of all literals.
    pub(crate) fn pool<'a>(&'a self, filling: &'a Filling) -> &'a [Value]
        ensures { result.now ≡ (filling_of self.now.all.items filling.now).pool }
    {
        if filling.own.is_empty() {
            self.of_type(filling.kind)
        } else {
            &filling.own
        }
    }
}

/// The values that are of a type.
fn values_of(alloc: Global, all: &[Value], kind: ColumnType) -> Result<Vec<Value>, OutOfMemory>
    ensures { IfOk result (λ v. v.items ≡ filter (is_of kind) all.now) }
{
    let mut values = Vec::new(alloc);
    for value in all {
        if is_of_type(kind, value) {
            values.push(value.copy(alloc)?)?;
        }
    }
    Ok(values)
}
