ghost use Rattle.std.specs.Prelude.{◌≡◌, IfOk};

use crate::items::Items;
use crate::row::Row;
use crate::text::NoMemory;
use std::alloc::Global;

/// A change of one row of a numbered table: a new row under a new id, another row under an id that is there, or an id's
/// row taken out.
#[derive(Debug, Drop)]
pub enum Change {
    Add(u64, Row),
    Put(u64, Row),
    Drop(u64),
}

/// Row changes, in order.
pub type Changes = Items<Change>;

impl Change {
    /// An equal change.
    pub fn copy(&self, alloc: Global) -> Result<Change, NoMemory>
        ensures { IfOk result (λ c. c ≡ self.now) }
    {
        match self {
            Change::Add(id, row) => Ok(Change::Add(*id, row.copy(alloc)?)),
            Change::Put(id, row) => Ok(Change::Put(*id, row.copy(alloc)?)),
            Change::Drop(id) => Ok(Change::Drop(*id)),
        }
    }
}
