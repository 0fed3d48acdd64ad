ghost use Rattle.std.specs.Prelude.{◌≡◌, ◌↔◌, IsTrue, IfOk};

use crate::text::Text;
use std::alloc::{AllocError, AllocFailed, Global};

/// A value of a column: NULL, a whole number of 64 bits, a text or a truth value.
#[derive(Debug, Drop)]
pub enum Value {
    Null,
    Int(i64),
    Text(Text),
    Bool(bool),
}

/// A row of a table: a value for each column.
pub type Row = Vec<Value>;

/// For each table of a schema, in order of declaration, the list of its rows.
pub type Instance = Vec<Vec<Row>>;

/// The type of a column. The first three are whole numbers of 16, 32 and 64 bits.
#[derive(Clone, Copy, PartialEq, Eq, Debug)]
pub enum ColumnType {
    SmallInt,
    Integer,
    BigInt,
    Text,
    Boolean,
}

/// Why an expression has no value. Of two faults the first variant is the lesser.
#[derive(Clone, Copy, PartialEq, Eq, Debug)]
pub enum Fault {
    /// SQLSTATE 22012.
    DivisionByZero = 1,
    /// SQLSTATE 22003: a result that 64 bits don't hold.
    OutOfRange = 2,
}

/// The allocator refused to allocate.
#[derive(Clone, Copy, PartialEq, Eq, Debug)]
pub struct OutOfMemory;

impl From<AllocError> for OutOfMemory {
    fn from(_error: AllocError) -> OutOfMemory {
        OutOfMemory
    }
}

impl<T: Drop> From<AllocFailed<T>> for OutOfMemory {
    fn from(_error: AllocFailed<T>) -> OutOfMemory {
        OutOfMemory
    }
}

impl Value {
    /// An equal value. A text's bytes are shared, and no memory is taken for them.
    pub fn copy(&self, _alloc: Global) -> Result<Value, OutOfMemory>
        ensures { IfOk result (λ v. v ≡ self.now) }
    {
        match self {
            Value::Null => Ok(Value::Null),
            Value::Int(n) => Ok(Value::Int(*n)),
            Value::Text(text) => Ok(Value::Text(text.copy()?)),
            Value::Bool(b) => Ok(Value::Bool(*b)),
        }
    }
}

/// Whether two values are not distinct: NULL equals NULL (SQL:2003, "distinct").
pub fn same(a: &Value, b: &Value) -> bool
    ensures { IsTrue result ↔ (a.now ≡ b.now) }
{
    match (a, b) {
        (Value::Null, Value::Null) => true,
        (Value::Int(m), Value::Int(n)) => *m == *n,
        (Value::Text(s), Value::Text(t)) => s.as_bytes() == t.as_bytes(),
        (Value::Bool(p), Value::Bool(q)) => *p == *q,
        _ => false,
    }
}
