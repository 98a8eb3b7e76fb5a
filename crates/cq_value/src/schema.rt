ghost use Rattle.std.specs.Prelude.{◌≡◌, IfOk};

use crate::items::Items;
use crate::text::{NoMemory, Text};
use std::alloc::Global;

/// A column's type: `bigint` has 64 bits, `integer` 32, `text` is UTF-8 and compared by bytes.
#[derive(Clone, Copy, Debug, PartialEq, Eq)]
pub enum Kind {
    Bigint,
    Integer,
    Text,
}

/// A column of a table.
#[derive(Debug, Drop)]
pub struct Column {
    pub name: Text,
    pub kind: Kind,
}

impl Column {
    /// An equal column.
    pub fn copy(&self, alloc: Global) -> Result<Column, NoMemory>
        ensures { IfOk result (λ c. c ≡ self.now) }
    {
        let name = self.name.copy(alloc)?;
        Ok(Column {
            name,
            kind: self.kind,
        })
    }
}

/// What a new distributed table is co-located with (Citus, `create_distributed_table`): by default the tables of the
/// same column type and shard count, none, or the named table.
#[derive(Debug, Drop)]
pub enum With {
    Default,
    Alone,
    Table(Text),
}

/// What a write is judged by: the places of its table's primary key columns, and its columns' types.
#[derive(Debug, Drop)]
pub struct Shape {
    pub key: Positions,
    pub kinds: Kinds,
}

impl Shape {
    /// An equal shape.
    pub fn copy(&self, alloc: Global) -> Result<Shape, NoMemory>
        ensures { IfOk result (λ s. s ≡ self.now) }
    {
        let key = self.key.copy(alloc)?;
        let kinds = self.kinds.copy(alloc)?;
        Ok(Shape { key, kinds })
    }
}

/// Places from 0, of columns, tables, groups or nodes.
pub type Positions = Items<u32>;

pub type Kinds = Items<Kind>;

pub type Columns = Items<Column>;

/// The names of a table's or an answer's columns, in order.
pub type Names = Items<Text>;
