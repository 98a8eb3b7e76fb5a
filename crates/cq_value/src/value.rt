ghost use Rattle.std.specs.Prelude.{◌≡◌, IfOk};

use crate::items::Items;
use crate::row::Row;
use crate::text::{NoMemory, Text};
use std::alloc::Global;

/// NULL, a whole number or a text.
#[derive(Debug, Drop)]
pub enum Value {
    Null,
    Int(i128),
    Text(Text),
}

/// A truth value of SQL's three-valued logic (PostgreSQL, "Logical Operators").
#[derive(Clone, Copy, Debug, PartialEq, Eq)]
pub enum Truth {
    Yes,
    No,
    Unknown,
}

/// Values, in order.
pub type Values = Items<Value>;

pub type Rows = Items<Row>;

/// Rows that are still written to.
pub type Drafts = Items<Values>;

/// The rows of intermediate results, by number.
pub type Results = Items<Rows>;

impl Value {
    /// An equal value.
    pub fn copy(&self, alloc: Global) -> Result<Value, NoMemory>
        ensures { IfOk result (λ v. v ≡ self.now) }
    {
        match self {
            Value::Null => Ok(Value::Null),
            Value::Int(x) => Ok(Value::Int(*x)),
            Value::Text(t) => Ok(Value::Text(t.copy(alloc)?)),
        }
    }
}
